// Tables of bounds and their closing, as definitions and laws: no functions. specs/ has the meaning and the model, proofs/ the laws.
#![tactic(auto)]
