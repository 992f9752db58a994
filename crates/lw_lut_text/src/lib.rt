//! What the text of a network of lookup tables means to the reader of BLIF.
//!
//! There is no code that runs. In go a network of tables of `lw_lut` and its text; the theorems say
//! that the text is read by `lw_blif` to a network of these tables, with the frame that it was
//! written with, and that each output of this network has the value and the least depth that it
//! should have. `laws` has functions with empty bodies, whose clauses are the theorems. The
//! definitions, in order:
//!
//! * `Said`: what a text of tables says, as a draft of nodes;
//! * `Readable`: when a network of tables can be said, and what it is that its text is read;
//! * `Meaning`: what the network that is said owes to the graph and to the network it comes from.
//!
//! The one definition to read is `IsTableMapping` in `specs/Meaning.antt`. `lw_map` cites the
//! theorems for its answer to `lut`.
#![tactic(auto)]

mod laws;

pub use laws::{
    made_tables_are_sayable, network_ports_fit, table_depths_are_one, table_nets_are_named_apart,
    table_texts_are_mappings, tables_close, tables_compute_classes, tables_have_least_depths,
    the_limit_alone_is_left_out, written_tables_are_read,
};
