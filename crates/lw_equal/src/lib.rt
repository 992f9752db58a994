//! Whether two circuits compute the same, register by register.
//!
//! In go two sides, and networks that may help in between: each a network of nodes with rows or a
//! netlist of cells, with the frame that it was read with. Out comes an answer, or the first port
//! that only one of them has. Inputs, outputs and latches are matched by name, a latch's output as
//! an input and what it reads as an output. First both sides are placed in a graph without a
//! search, where patterns may tell them apart. Then all networks are placed in one swept graph, in
//! which literals that are equal under every assignment are one, and what is left is searched.
//! Where a sum of inputs modulo 2 is left, this is done again with such sums in one form. What is
//! still left is decided by all assignments, where these are few. An assignment that tells the
//! sides apart is looked at in both as they were read before it is believed.
//!
//! Modules, in order: the sides and their ports (`side`), where they are compared (`point`), what
//! is answered (`answer`), names as sets (`known`), ports that only one side has (`ports`), pairs
//! of nets (`pairing`), literals of cells (`cells`) and of sides (`placing`), looks at assignments
//! (`looking`), decisions (`deciding`), all assignments of few inputs (`trying`, `small`), and the
//! whole (`comparing`). The one definition to read is `IsAnswer` in `specs/Answers.antt`.
//! `lw_equal_top` calls `compare`.
#![tactic(auto)]

mod answer;
mod cells;
mod comparing;
mod deciding;
mod known;
mod looking;
mod pairing;
mod placing;
mod point;
mod ports;
mod side;
mod small;
mod trying;

pub use answer::{Answer, Counts, Difference, Fault, Outcome, PortFault, PortKind};
pub use comparing::compare;
pub use lw_sweep::Limits;
pub use point::{Kind, Point, Points};
pub use side::{Logic, Side};
