// Document 01's cases marked †, document 02's, and cases of string starts by document 01's rule: one table, one proof over it, and no code of its own.
// Each is an input, what the definitions make of it, and what the documents state of it; none comes from a file of the Rust.
// specs/Table promises that every row holds: the definitions compute what the documents say.
#![tactic(auto)]
