//! Pairs of listed forms that have one value under every assignment.
//!
//! In goes the list of the base forms of a network. Each gets a literal of a swept graph, in which
//! literals that are equal under every assignment are one. Two base forms with literals of one node
//! are linked: a form of the one and a form of the other become a further pair of the list.
//!
//! `literals` has the literals, `pairing` the pair of two base forms, and `linking` takes them
//! together. The definition to read is `IsLinked` in `specs/Linked.antt`. `lw_joined` calls
//! `link_equal_forms`.
#![tactic(auto)]

mod linking;
mod literals;
mod pairing;

pub use linking::{Counts, link_equal_forms};
pub use lw_sweep::Limits;
