//! Networks of nodes with rows, closed from their drafts by names, and the values of their nets.
//!
//! In comes a draft, whose signals are known by names. Out comes the network of it, whose nets are
//! numbers and whose nodes stand by depth, or the fault of the draft. The modules in order:
//!
//! * `node`: a node with its fan-ins and its rows;
//! * `network`: the network, and what is asked of it (`Network`);
//! * `eval`: the values of nets;
//! * `draft`, `fault`: what comes in, and why it is no network;
//! * `naming`, `written`: from names to numbers;
//! * `places`, `close`: the order of nodes, and the network in it (`Network::close`);
//! * `joining`: networks that are joined over the inputs of one of them;
//! * `laws`: theorems on what is closed.
//!
//! The one definition to read is `IsClosed` in `specs/Closing.antt`. `lw_blif` closes what it read.
#![tactic(auto)]

mod close;
mod draft;
mod eval;
mod fault;
mod joining;
mod laws;
mod naming;
mod network;
mod node;
mod places;
mod written;

pub use draft::{Draft, DraftNode, DraftNodes};
pub use fault::NetFault;
pub use laws::closed_is_network;
pub use network::Network;
pub use node::{Cube, Cubes, Node, Nodes, are_signs};
