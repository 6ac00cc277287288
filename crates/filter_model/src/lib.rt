// The filter's state and what a strike does to it, as definitions and laws: no functions. specs/ has the definitions, proofs/ the laws.
#![tactic(auto)]
