//! An and-inverter graph in which literals that are equal under every assignment are one.
//!
//! Each new conjunction is compared with earlier nodes that have its values in simulated patterns.
//! Where the search says that both are equal, the earlier node stands for the new one from then on;
//! where it finds an assignment that tells them apart, that becomes a further pattern. Patterns and
//! the classes that they make are candidates alone, and nothing is believed of them.
//!
//! Where `Limits` ask for it, a node that looks like a sum of inputs modulo 2 is brought to one
//! form. Its sum is split at the bits of the numbers of its inputs (`forms`); the form of a sum of
//! two sums is made of those of their halves, and each step is searched above four nodes alone
//! (`summing`). A node is then searched above the sums that it is made of (`cone`), which are few,
//! where a search down to the inputs would not end. What looks like a sum is found by the patterns
//! (`parity`).
#![tactic(auto)]

mod classes;
mod cone;
mod forms;
mod limits;
mod parity;
mod patterns;
mod plain;
mod random;
mod rows;
mod simplifying;
mod starting;
mod summing;
mod sweep;

pub use limits::{Counts, Limits};
pub use patterns::Pattern;
pub use sweep::Sweep;
