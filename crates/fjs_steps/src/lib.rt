// The published steps of the Franek-Jennings-Smyth engine (source document 001, Algorithm 3) and the list of its moves, as definitions and laws.
// `fjs` computes what is defined here; this crate has no functions. A change to a definition or a law is checked here, in a second or two. Demand 3 is carried by proofs/Bound.antt (at most 3n - 2m comparisons) and proofs/Aba.antt (aba in n letters a costs 3n - 6).
// It depends on `matching` for the run of an engine's steps, and on `tables`, `letter_tables` and `border_tables` for the entries and the moves by them.
#![tactic(auto)]
