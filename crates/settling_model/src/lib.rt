// The settling of masks and the plans of a book, as definitions and laws: no functions. specs/ has the meaning and the model, proofs/ the laws.
#![tactic(auto)]
