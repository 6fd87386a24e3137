// The trie of a group's phrases in a table of 16-bit numbers, with fail links, bits and rows of next states (document 02, (vi)), as definitions and laws: what each entry means, and the step by the table.
// `automaton` makes and walks what is defined here; this crate has no functions. No public promise is told in these words.
// It depends on `phrases` for the states and numbers that the table stands for, and on `matching` for case analysis and equal lists.
#![tactic(auto)]
