// A session kept in memory that a host lends, as definitions and laws: no functions. specs/ has the definitions, proofs/ the laws.
#![tactic(auto)]
