// What a run comes to.
ghost use Rattle.std.specs.Prelude.{◌≡◌, ◌≤◌, true, IsTrue, IsOk};
ghost use Rattle.std.specs.Io.KnownBytes.{Keeps};
ghost use Rattle.lw_io.specs.Causes.{Rose};
ghost use Rattle.lw_io.specs.Waitings.{IsTaken};
ghost use Rattle.lw_equal_top.specs.Requests.{plain_comparison, plain_request};
ghost use Rattle.lw_equal_top.specs.Outcomes.{CanBeSaid, Compares, IsAnsweredOr, IsToldOr, Serves};
ghost use Rattle.lw_equal_top.specs.Outcomes.{WritesOut, names_in};
ghost use Rattle.lw_equal_top.specs.Texts.{answer_text};

use crate::comparing::compare_sources;
use crate::fault::Refusal;
use crate::pages::{HELP, VERSION};
use crate::reading::{read_cells, read_sources};
use crate::request::{Comparison, Request};
use crate::saying::put_answer;
use crate::source::Source;
use lw_equal::Outcome;
use lw_io::{Failed, Shelf, Sink, Writer, write_all};
use std::alloc::Global;

/// The networks that were read, and what their comparison came to.
#[derive(Drop)]
pub struct Compared {
    pub sources: Vec<Source>,
    pub outcome: Outcome,
}

/// What a run comes to.
#[derive(Drop)]
pub enum Ending {
    /// The help or the version went out.
    Told,
    /// The answer went out.
    Answered(Compared),
    /// Standard output failed.
    WriteFault,
    Refused(Refusal),
}

// Reads the files and compares them.
fn compare_files<F: Shelf>(
    alloc: Global,
    comparison: Comparison<'_>,
    shelf: &mut F,
) -> Result<Compared, Refusal>
    ensures { Compares F.files F.faults shelf.old shelf.new (plain_comparison comparison.entry)
        result }
{
    let known = comparison.library.is_some();
    let library = read_cells(alloc, shelf, comparison.library)?;
    let sources = match read_sources(alloc, known, &library, shelf, comparison.files) {
        Ok(sources) => sources,
        Err(refusal) => {
            drop(library);
            return Err(refusal);
        }
    };
    match compare_sources(alloc, &library, &sources, comparison.tries) {
        Ok(outcome) => {
            drop(library);
            Ok(Compared { sources, outcome })
        }
        Err(refusal) => {
            drop(library);
            drop(sources);
            Err(refusal)
        }
    }
}

// Writes the answer.
fn write_answer<O: Sink>(compared: &Compared, out: &mut O) -> Result<(), Failed>
    requires { CanBeSaid compared.now }
    ensures { IsTaken (O.taken out.old) (O.faults out.old) (O.taken out.new) (O.faults out.new)
        (answer_text (names_in compared.now.sources.items) compared.now.outcome.answer) result }
{
    let mut text = Writer::new(out);
    put_answer(
        &mut text,
        compared.sources[0].input_names(),
        &compared.outcome.answer,
    );
    text.end()
}

// Hands on what was written, if all was.
fn finished<O: Sink>(written: Result<(), Failed>, out: &mut O) -> bool
    ensures kept { Keeps (O.taken out.old) (O.taken out.new) }
    ensures finished { IsTrue result → O.is_finished out.new ≡ true }
    ensures whole { IsTrue result → IsOk written }
    ensures later { O.faults out.old ≤ O.faults out.new }
    ensures failed { (IsTrue result → ⊥) → IsOk written →
        Rose (O.faults out.old) (O.faults out.new) }
{
    match written {
        Ok(()) => out.finish().is_ok(),
        Err(_) => false,
    }
}

// Writes a page.
fn tell<O: Sink>(page: &[u8], out: &mut O) -> Ending
    ensures writes { WritesOut O.taken O.is_finished O.faults out.old out.new page.now result }
    ensures told { IsToldOr result }
    ensures later { O.faults out.old ≤ O.faults out.new }
{
    let written = write_all(out, page);
    if finished(written, out) {
        Ending::Told
    } else {
        Ending::WriteFault
    }
}

// Writes an answer.
fn answer<O: Sink>(compared: Compared, out: &mut O) -> Ending
    requires { CanBeSaid compared }
    ensures writes { WritesOut O.taken O.is_finished O.faults out.old out.new
        (answer_text (names_in compared.sources.items) compared.outcome.answer) result }
    ensures answered { IsAnsweredOr compared result }
    ensures later { O.faults out.old ≤ O.faults out.new }
{
    let written = write_answer(&compared, out);
    if finished(written, out) {
        return Ending::Answered(compared);
    }
    drop(compared);
    Ending::WriteFault
}

/// Does what is asked for: the whole answer stands before its first byte is written.
pub fn serve<F: Shelf, O: Sink>(
    alloc: Global,
    request: Request<'_>,
    shelf: &mut F,
    out: &mut O,
) -> Ending
    ensures { Serves (F.files shelf.old) (F.files shelf.new) (F.faults shelf.old)
        (F.faults shelf.new) O.taken O.is_finished O.faults out.old out.new
        (plain_request request.entry) result }
{
    match request {
        Request::Help => tell(HELP, out),
        Request::Version => tell(VERSION, out),
        Request::Comparing(comparison) => match compare_files(alloc, comparison, shelf) {
            Ok(compared) => answer(compared, out),
            Err(refusal) => Ending::Refused(refusal),
        },
    }
}
