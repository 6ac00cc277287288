// Filling (document 02, request six): closing's first two rules only, as definitions and laws: no functions. specs/ has the meaning, the model, and what rows
// give; proofs/ has the laws.
#![tactic(auto)]
