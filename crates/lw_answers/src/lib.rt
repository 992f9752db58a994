//! Theorems on the results of `lwmap`: what its answer to words over known files comes to, whatever
//! the program does.
//!
//! There is no code that runs. `laws` has functions with empty bodies, whose clauses are the
//! theorems. The definition to start at is `IsCheckOf` in `specs/Checked.antt`; `docs/PROMISES.md`
//! says what each theorem means. Nothing calls this crate.
#![tactic(auto)]

mod laws;

pub use laws::{
    answers_are_mappings, answers_are_one, answers_are_trades, trades_are_refused,
    uncovered_roots_are_refused, unsayable_netlists_are_refused, verilog_reads_back,
    written_mappings_are_accepted, written_netlists_read_back,
};
pub use lw_top::answers_are_tables;
