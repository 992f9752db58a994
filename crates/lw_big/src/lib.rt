//! Large networks, each drawn from a number.
//!
//! In come a seed and how many nodes are wanted, at most 20,000. Out comes a network of 16 inputs
//! and so many nodes with two fan-ins each. The modules in order:
//!
//! * `draws`: numbers that are drawn from a seed;
//! * `naming`: the names of signals;
//! * `nodes`: the nodes that are drawn;
//! * `generating`: the network (`generate`);
//! * `laws`: a theorem, that what is drawn is a network.
//!
//! The one definition to read is `IsGenerated` in `specs/Generated.antt`. `lw_map` calls `generate`
//! for `big`, and so do tests.
#![tactic(auto)]

mod draws;
mod generating;
mod laws;
mod naming;
mod nodes;

pub use generating::generate;
pub use laws::generated_is_network;
