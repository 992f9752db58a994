//! Facts about truth values, numbers, lists and results, which the proofs of several crates cite.
//!
//! The crate has no code: its lemmas stand in `proofs`, beside those that the standard library has,
//! and the definitions that the contracts of several crates cite in `specs`.
#![tactic(auto)]
