// What a run comes to.
ghost use Rattle.std.specs.Prelude.{◌≡◌, ◌≤◌, IfOk};
ghost use Rattle.lw_io.specs.Waitings.{IsTaken};
ghost use Rattle.lw_area.specs.Outcomes.{CanBeWritten, Gives, Responds, Serves, WritesPage};
ghost use Rattle.lw_area.specs.Outcomes.{WritesText, answer_text, ending_status};
ghost use Rattle.lw_area.specs.Plain.{plain_asked, plain_settings, plain_task};
ghost use Rattle.lw_area.specs.Sources.{AreSources};
ghost use Rattle.lw_area.specs.Words.{checking};

use crate::checking::verdict_on;
use crate::mapping::{Made, Notes, map_smaller};
use crate::refusal::Refusal;
use crate::sources::{Sources, read_sources};
use crate::telling::{USAGE, VERSION};
use crate::timing::Began;
use crate::words::{Asked, Settings, Task};
use lw_io::{Failed, Shelf, Sink, write_all};
use lw_map::Verdict;
use lw_mapped::write;
use std::alloc::Global;
use std::time::Clock;

/// What was read, and the netlist that it is mapped to.
#[derive(Drop)]
pub struct Answer {
    pub sources: Sources,
    pub made: Made,
}

/// What a run comes to.
#[derive(Drop)]
pub enum Ending {
    /// A page or a yes was written.
    Done,
    /// A netlist was written.
    Mapped(Notes),
    WriteFault,
    Refused(Refusal),
}

// What the files come to.
fn map_read<C: Clock>(
    alloc: Global,
    clock: &C,
    read: u128,
    sources: Sources,
    settings: Settings,
) -> Result<Answer, Refusal>
    requires { AreSources sources }
    ensures { Gives (plain_settings settings) sources result }
{
    match map_smaller(alloc, clock, read, &sources, settings) {
        Ok(made) => Ok(Answer { sources, made }),
        Err(fault) => {
            drop(sources);
            Err(Refusal::Unmapped(fault))
        }
    }
}

// Reads the files and maps the network.
fn respond<F: Shelf, C: Clock>(
    alloc: Global,
    clock: &C,
    task: Task<'_>,
    shelf: &mut F,
) -> Result<Answer, Refusal>
    ensures { Responds F.files F.faults shelf.old shelf.new (plain_task task.entry) result }
{
    let began = Began::now(clock);
    let sources = read_sources(alloc, task, shelf)?;
    map_read(alloc, clock, began.millis(clock), sources, task.settings)
}

// Writes the text of an answer.
fn write_text<O: Sink>(answer: &Answer, out: &mut O) -> Result<(), Failed>
    requires { CanBeWritten answer.now }
    ensures { IsTaken (O.taken out.old) (O.faults out.old) (O.taken out.new) (O.faults out.new)
        (answer_text answer.now) result }
{
    let (mapped, model) = (&answer.made.mapped, &answer.sources.model);
    write(
        &mapped.netlist,
        &answer.sources.library,
        &model.frame,
        &model.starts,
        mapped.certificate.as_ref(),
        out,
    )
}

// What is said beside an answer.
fn notes_of(answer: Answer) -> Notes {
    let Answer { sources, made } = answer;
    drop(sources);
    let Made { mapped, notes } = made;
    drop(mapped);
    notes
}

// Writes an answer, all of it.
fn write_answer<O: Sink>(answer: Answer, out: &mut O) -> Ending
    requires { CanBeWritten answer }
    ensures writes { WritesText O.taken O.is_finished O.faults out.old out.new (answer_text answer)
        result }
    ensures later { O.faults out.old ≤ O.faults out.new }
{
    let written = write_text(&answer, out);
    let notes = notes_of(answer);
    match written {
        Err(_) => Ending::WriteFault,
        Ok(()) => match out.finish() {
            Err(_) => Ending::WriteFault,
            Ok(()) => Ending::Mapped(notes),
        },
    }
}

// Writes a page, all of it.
fn write_page<O: Sink>(page: &[u8], out: &mut O) -> Ending
    ensures writes { WritesPage O.taken O.is_finished O.faults out.old out.new page.now result }
    ensures later { O.faults out.old ≤ O.faults out.new }
{
    match write_all(out, page) {
        Err(_) => Ending::WriteFault,
        Ok(()) => match out.finish() {
            Err(_) => Ending::WriteFault,
            Ok(()) => Ending::Done,
        },
    }
}

// The verdict on the netlist of a file.
fn judge<F: Shelf, O: Sink>(
    alloc: Global,
    task: Task<'_>,
    mapped: &str,
    shelf: &mut F,
    out: &mut O,
) -> Ending
    ensures { Serves (F.files shelf.old) (F.files shelf.new) (F.faults shelf.old)
        (F.faults shelf.new) O.taken O.is_finished O.faults out.old out.new
        (checking (plain_task task.entry) mapped.now) result }
{
    let verdict = match verdict_on(alloc, task, mapped, shelf) {
        Ok(verdict) => verdict,
        Err(refusal) => return Ending::Refused(refusal),
    };
    match verdict {
        Verdict::Yes => write_page(b"yes\n", out),
        Verdict::No(reason) => Ending::Refused(Refusal::No(reason)),
    }
}

/// Does what is asked for. The whole answer stands before its first byte is written.
pub(crate) fn serve<F: Shelf, O: Sink, C: Clock>(
    alloc: Global,
    clock: &C,
    asked: Asked<'_>,
    shelf: &mut F,
    out: &mut O,
) -> Ending
    ensures { Serves (F.files shelf.old) (F.files shelf.new) (F.faults shelf.old)
        (F.faults shelf.new) O.taken O.is_finished O.faults out.old out.new
        (plain_asked asked.entry) result }
{
    match asked {
        Asked::Usage => write_page(USAGE, out),
        Asked::Version => write_page(VERSION, out),
        Asked::Mapping(task) => match respond(alloc, clock, task, shelf) {
            Ok(answer) => write_answer(answer, out),
            Err(refusal) => Ending::Refused(refusal),
        },
        Asked::Checking(task, mapped) => judge(alloc, task, mapped, shelf, out),
    }
}

impl Ending {
    /// The exit status.
    pub(crate) fn status(&self) -> u8
        ensures { result ≡ ending_status self.now }
    {
        match self {
            Ending::Done | Ending::Mapped(_) => 0,
            Ending::WriteFault => 7,
            Ending::Refused(refusal) => refusal.status(),
        }
    }
}
