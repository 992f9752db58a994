//! Graphs of classes with their NAND pairs: for each class the pairs of classes of which it is the
//! NAND.
//!
//! In come the classes of inputs and of base forms, and the pairs of all classes, one class after
//! the other. Out come the pairs of a class, the class of a form, and the class that holds a pair.
//! A class and its complement have numbers that differ in the last bit, and each has pairs of its
//! own. The modules in order:
//!
//! * `pair`: two classes;
//! * `parts`: the pairs of each class, in one pool;
//! * `index`: where a pair stands, found without a search;
//! * `graph`: all of it (`Graph`).
//!
//! The one definition to read is `IsGraph` in `specs/Graphs.antt`, of the plain graph that is
//! `Graph` in `lw_laws`. `lw_reduce` makes graphs, and all that searches for matches reads them.
#![tactic(auto)]

mod graph;
mod index;
mod pair;
mod parts;

pub use graph::Graph;
pub use pair::Pair;
