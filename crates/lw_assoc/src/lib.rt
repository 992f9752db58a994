//! The graph of all decompositions of the forms of a network at once.
//!
//! In come the listed forms of a network and a mode, which says what rules of decomposition hold.
//! Out comes the graph of the classes of these forms, or `Limit` where the mode has more than
//! 16,777,216 splits. The modules in order:
//!
//! * `mode`, `fault`: which laws hold, and why there is no graph;
//! * `splits`: how many splits there are;
//! * `parts`: the parts of an And by their masks;
//! * `drops`: the Ands of all operands but one;
//! * `overlaps`: the facts of the further mode, of parts that overlap;
//! * `drafting`: the draft of all splits and links;
//! * `graph`: from forms to the graph (`build`), by `lw_reduce`.
//!
//! The one definition to read is `IsGraphOf` in `specs/Classes.antt` of `lw_laws`. `lw_map` calls
//! `build`.
#![tactic(auto)]

mod drafting;
mod drops;
mod fault;
mod graph;
mod mode;
mod overlaps;
mod parts;
mod splits;

pub use fault::GraphFault;
pub use graph::build;
pub use mode::Mode;
pub use splits::split_count;
