//! What the readers of texts in the Berkeley Logic Interchange Format have in common.
//!
//! `lw_blif` reads models and `lw_mapped` reads netlists of cells, each line by line, up to a line
//! that ends the reading, and each stops at the first line that breaks a rule. In come the rules of
//! a reader, as parameters of definitions and lemmas; out come what it has to keep of the lines
//! that it was given, and that one more line is kept as well. The module:
//!
//! * `stop`: why a reader stopped (`Stop`).
//!
//! The definitions to read are `first_fault_by` in `specs/FirstFaults.antt` and `IsKeptBy` in
//! `specs/Standing.antt`.
#![tactic(auto)]

mod stop;

pub use stop::Stop;
