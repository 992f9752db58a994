//! Patterns of the cells of a library: their functions as trees of NANDs and inverters.
//!
//! In comes a library. Out come the patterns of its cells, in the order of cells, their forms, and
//! the bracketings of a form. The modules in order:
//!
//! * `node`, `pattern`: the nodes of a tree, and a pattern of them;
//! * `step`, `shape`, `shapes`: trees in postfix order, and lists of them;
//! * `counting`: how many bracketings an expression has;
//! * `growing`: the trees of an expression;
//! * `placing`: from a tree to the nodes of a pattern;
//! * `library`: the patterns of all cells (`patterns`).
//!
//! The one definition to read is `library_patterns` in `specs/Libraries.antt`. `lw_map` calls
//! `patterns`, and all that searches for matches reads them.
#![tactic(auto)]

mod counting;
mod growing;
mod library;
mod node;
mod pattern;
mod placing;
mod shape;
mod shapes;
mod step;

pub use library::patterns;
pub use node::{PatNode, PatNodes};
pub use pattern::{Pattern, Patterns};
