//! And-inverter graphs in flat arrays, and the values of their nodes.
//!
//! A node is the constant false, an input, or the conjunction of two literals of earlier nodes. A
//! literal is a node, or its complement. In come inputs and conjunctions, one after another; out
//! comes a literal for each. The modules in order:
//!
//! * `literal`, `gate`: a literal, and what a node is;
//! * `places`: where conjunctions stand, by their literals. It is an open table, whose entries are
//!   looked at before they are believed;
//! * `aig`: the graph (`Aig`);
//! * `laws`: a theorem, that an input may have either value.
//!
//! The definitions to read are `IsAig` and `AreNodeValues` in `specs/Aigs.antt`. `lw_clauses`,
//! `lw_search`, `lw_sweep`, `lw_joint` and `lw_equal` are over such graphs.
#![tactic(auto)]

mod aig;
mod gate;
mod laws;
mod literal;
mod places;

pub use aig::Aig;
pub use gate::Gate;
pub use laws::each_input_is_free;
pub use literal::Literal;
