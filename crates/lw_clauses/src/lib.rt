//! Clauses that hold in an and-inverter graph, and the one check by which a clause is taken in.
//!
//! In come a clause and its antecedents: gates and clauses that were taken in before, along which
//! it is to follow. Out comes its number, if it is found to follow. Whoever found it is not
//! trusted. The modules in order:
//!
//! * `cause`: what a clause may follow from;
//! * `store`: clauses in flat arrays;
//! * `denied`: the literals that are false wherever a clause is, and what they leave of an
//!   antecedent;
//! * `following`: the check, along the antecedents;
//! * `clauses`: the clauses that were taken in (`Clauses`).
//!
//! The one definition to read is `Holds` in `specs/Clauses.antt`. `lw_search` calls these.
#![tactic(auto)]

mod cause;
mod clauses;
mod denied;
mod following;
mod store;

pub use cause::Cause;
pub use clauses::Clauses;
