// The segments of one value and one kind of bound have no code here: what the cells hold, and the laws of a fall and of the building.
#![tactic(auto)]
