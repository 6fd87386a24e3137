// The starred cases of document 01, those that document 02, (ii), (iv) and (x), names, the moves of an example run, late cuts, phrases looked for together, groups of cues at their limits, cues that do not run forward, days and dates, cues that do not play, and roles: one table (specs/Cases.antt), shown to agree with the definitions by one theorem (proofs/Hold.antt).
// It has no functions. It depends on every crate whose definitions have a case here; a new part adds rows, and where it needs one a kind of row.
#![tactic(auto)]
