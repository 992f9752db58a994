//! Graphs whose nodes are numbers: how far each signal is from the inputs, the first node on a
//! cycle, and the stable order by depth.
//!
//! In comes how many inputs there are, and a list of fan-ins for each node. The inputs are the
//! first signals, and each node drives the next one; there are at most 262,144. The modules in
//! order:
//!
//! * `graph`: a graph with how many inputs it has;
//! * `levels`: the height of each signal that no cycle stands before (`find_levels`);
//! * `turning`, `ranking`: an order in which a walk leaves the nodes, and ranks by it, which tell
//!   of most nodes without a search that they are on no cycle;
//! * `cycles`: the first node that leads to itself (`first_on_cycle`);
//! * `order`: a list in the order of the depths of its entries (`in_order`).
//!
//! The definitions to read are `AreHeights` and `IsFirst` in `specs/Graphs.antt`. `lw_net` and
//! `lw_named_netlist` close drafts by these, and `lw_trade` orders gates.
#![tactic(auto)]

mod cycles;
mod graph;
mod levels;
mod order;
mod ranking;
mod turning;

pub use cycles::first_on_cycle;
pub use levels::{Levels, find_levels};
pub use order::in_order;
