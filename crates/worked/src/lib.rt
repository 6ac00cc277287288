// Document 01's worked table, M1 to M8, as one computed test: no functions. specs/ has the books and the figures, proofs/ the test and what it means.
#![tactic(auto)]
