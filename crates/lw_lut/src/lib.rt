//! Lookup tables of least depth over the classes of a graph, and their text.
//!
//! In come a graph, how many inputs a table may have, and ports. Out comes a network of tables,
//! each output at its least depth, and its text as BLIF. The modules in order:
//!
//! * `cut`, `task`, `span`, `reach`: cuts with their bits, and what a search goes by;
//! * `start`, `search`, `found`, `finding`: the least depth of each class, one depth after another;
//! * `table`, `lists`, `rows`: tables, made from cuts, and their rows;
//! * `choosing`: the classes that are needed, each with its table;
//! * `ports`, `placing`, `naming`, `net`, `making`: the network of these tables;
//! * `writing`: its text;
//! * `laws`: theorems on depths and networks.
//!
//! The one definition to read is `IsTableNetOf` in `specs/Nets.antt`. `lw_map` calls `depths` and
//! `tables`, and `lw_top` writes the text. What the text means is said in `lw_lut_text`.
#![tactic(auto)]

mod choosing;
mod cut;
mod finding;
mod found;
mod laws;
mod lists;
mod making;
mod naming;
mod net;
mod placing;
mod ports;
mod reach;
mod rows;
mod search;
mod span;
mod start;
mod table;
mod task;
mod writing;

pub use finding::depths;
pub use found::Depths;
pub use laws::{class_depths_are_form_depths, table_nets_are_kept};
pub use lists::Tables;
pub use making::tables;
pub use net::TableNet;
pub use ports::TablePorts;
pub use table::Table;
pub use writing::write_tables;
