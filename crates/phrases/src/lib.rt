// A group of phrases looked for at once (document 02, (vi)), as definitions and laws: the phrases that end at a letter as bits of one number, and the states from which one letter gives the next number.
// `tries` and `automaton` build on what is defined here; this crate has no functions. A change to a definition or a law is checked here, in a second or two.
// It depends on `matching` for the occurrences, which the numbers give, and for case analysis.
#![tactic(auto)]
