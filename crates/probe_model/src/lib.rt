// Which assign calls of a list would die, each alone on an opened book, as definitions and laws: no functions. specs/ has what the probe entry answers and
// writes, and what its bytes mean; proofs/ has the laws.
#![tactic(auto)]
