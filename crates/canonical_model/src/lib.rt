// The canonical book (document 02, request six), as definitions and laws: no functions. specs/ has its rows, its bytes, and what the entry answers and writes;
// proofs/ has the laws.
#![tactic(auto)]
