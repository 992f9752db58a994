//! Stored matches, and marks of classes by them.
//!
//! In come a graph and patterns. Out come a store of all matches, each once, with the uses of each
//! class as a pin; and by a store and a cost the marks of the classes. The modules in order:
//!
//! * `pins`: how many pins each pattern has, and whether one stands at two leaves;
//! * `side`, `tally`: a column for each NAND that occurs in a pattern, which says in how many ways
//!   it stands at each class. Where no pin of a pattern stands at two leaves, the ways of its root
//!   are no more than its matches, and where they alone are too many, nothing is listed;
//! * `goals`, `job`, `walk`: each pattern is walked through at each class, and a pair is entered
//!   only where both its sides may stand;
//! * `listing`: the matches class by class (`store_matches`), or why there are none (`fault`);
//! * `uses`: the uses of each class, by counting;
//! * `store`: the matches and their uses in flat arrays (`Store`);
//! * `entry`, `queue`: the classes that wait with a mark, the least first;
//! * `settling`: the classes in the order of their marks (`settle`). When a class is taken, each of
//!   its uses is read once, and a match is priced once, when its last pin is taken. A class whose
//!   mark is taken never gets another;
//! * `laws`: theorems on stores and marks.
//!
//! The words of this crate:
//!
//! * mark: the least cost of a cover of a class, in units of the cost, and its height in gates. It
//!   is before another if it costs less, or as much with less height;
//! * binding: a class or none for each pin of a pattern. A goal is a node with the class at which
//!   it has to stand;
//! * side: what a node of a pattern is, where all leaves are alike: a leaf, a part, its complement,
//!   or not known. A part is a NAND of two sides;
//! * way: a choice of pairs by which a part stands at a class. Ways are counted up to 16,777,216;
//! * use: a stored match with a pin of it that has the class;
//! * place: the number of a stored match, from 0, by class;
//! * left: how many pins of a match have classes that are not taken yet.
//!
//! The definitions to read are `IsStoreOf` in `specs/Stores.antt` and `AreSettledMarks` in
//! `specs/Settled.antt`. `lw_map` calls both for `big` and `trade none`, and `lw_choices` lists the
//! choices of `trade` by a store.
#![tactic(auto)]

mod entry;
mod fault;
mod goals;
mod job;
mod laws;
mod listing;
mod pins;
mod queue;
mod settling;
mod side;
mod store;
mod tally;
mod uses;
mod walk;

pub use fault::StoreFault;
pub use laws::{
    leaf_costs_are_least, least_marks_are_one, settled_marks_are_least, steps_are_few,
    steps_are_one, stores_are_of_cells,
};
pub use listing::store_matches;
pub use settling::settle;
pub use store::{Found, Head, Store};
