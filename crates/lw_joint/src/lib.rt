//! Networks over one swept graph: a literal for each net.
//!
//! In come a graph in which equal literals are one, a network, and literals for its inputs. Out
//! comes the graph with more nodes, and a literal for each net, which has the net's value. The
//! modules in order:
//!
//! * `rows`: the literals of rows and of their sums;
//! * `nodes`, `nets`: the literals of nodes, and of all nets of a network (`net_literals`);
//! * `pairs`: networks over shared inputs, and whether nets of two of them have one value
//!   (`place_network`, `compare_nets`);
//! * `laws`: theorems, such as that networks that were placed stay right as the graph grows.
//!
//! The definitions to read are `Computes` in `specs/Joint.antt` and `HaveEqualValues` in
//! `specs/Pairs.antt`. `lw_equal` calls these.
#![tactic(auto)]

mod laws;
mod nets;
mod nodes;
mod pairs;
mod rows;

pub use laws::{equal_literals_tell, placed_networks_stay};
pub use nets::net_literals;
pub use pairs::{Placed, compare_nets, input_literals, place_network};
pub use rows::or;
