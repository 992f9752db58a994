//! Theorems that the definition of a result is not empty: whatever the files are, it cannot be that
//! nothing is an answer to words that ask for a mapping, for a check of one, for lookup tables, for
//! the size of a graph, for the sizes of a drawn network, for times or values, or for one of the
//! ways between a mapped netlist and Verilog.
//!
//! There is no code that runs. `laws` has functions with empty bodies, whose clauses are the
//! theorems. Nothing calls this crate.
#![tactic(auto)]

mod laws;

pub use laws::{
    answers_want_no_memory, checks_have_answers, counts_and_values_have_answers, graphs_exist,
    mappings_have_answers, netlists_have_answers, sizes_have_answers, tables_have_answers,
};
