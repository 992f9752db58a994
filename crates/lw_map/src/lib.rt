//! From what was read to an answer: each command's way through the layers below.
//!
//! In go a library, a model and a mapped netlist as their readers give them, and a command's
//! options. Out comes the command's answer, or a `MapFault`. `lw_top` calls `map`, `check`,
//! `trade`, `lut`, `graph` and `big`, and turns what comes into an answer or a refusal.
//!
//! A mapping goes through the modules in this order. `options` and `choices` make the choices of a
//! network, which each command begins with. `problem` joins them with a library's patterns and the
//! starts. `labelling` finds labels, `covering` the netlist that they choose, with names by
//! `naming`, and `certifying` its certificate. `mapping`, `checking`, `trading`, `tabling` and
//! `counting` have the commands, and `fault` says what keeps a network from its answer. `laws` says
//! what the text of tables is.
//!
//! The words of this crate:
//!
//! * choices: the classes of a network's forms in a graph, with the ways to decompose each, and the
//!   class of each output, which is its root;
//! * label: the least cost of a cover of a class: a time, or for `trade none` an area, in
//!   millionths of the library's unit. With the height in gates the code has it as a mark;
//! * starts: when the inputs arrive, in millionths;
//! * deadline: the time by which outputs have to arrive in `trade`, in millionths;
//! * points: the times of a class at which its least area falls (`lw_curves`);
//! * steps: how often a stored match was read (`lw_settle`), none if none was stored;
//! * leaves: how many fan-ins a lookup table has at most.
//!
//! The one definition to read is `IsMappedNetlist` in `specs/Mapped.antt`, the netlist that a
//! network is mapped to. `IsTradedNetlist` in `specs/Trading.antt` and `IsTabled` in
//! `specs/Tabled.antt` are its likes for `trade` and `lut`.
#![tactic(auto)]

mod certifying;
mod checking;
mod choices;
mod counting;
mod covering;
mod fault;
mod labelling;
mod laws;
mod mapping;
mod naming;
mod options;
mod problem;
mod tabling;
mod trading;

pub use certifying::certificate;
pub use checking::check;
pub use choices::{Choices, decompose};
pub use counting::{Counts, Sizes, all_at_once, big, graph};
pub use covering::{Mapping, cover, ports};
pub use fault::MapFault;
pub use labelling::Labeller;
pub use laws::tabled_texts_are_mappings;
pub use lw_assoc::Mode;
pub use lw_big::generate;
pub use lw_check::{Reason, Verdict};
pub use mapping::{CertifiedNetlist, map};
pub use naming::refused;
pub use options::Options;
pub use tabling::lut;
pub use trading::trade;
