// What a run comes to.
ghost use Rattle.std.specs.Prelude.{◌≡◌, ◌≤◌, ◌↔◌, None, IfSome};
ghost use Rattle.lw_io.specs.Waitings.{IsTaken};
ghost use Rattle.lw_io.specs.Writers.{Writes};
ghost use Rattle.lw_top.specs.Words.{IsInRange};
ghost use Rattle.lw_top.specs.Commands.{asked};
ghost use Rattle.lw_top.specs.Answered.{CanBeWritten};
ghost use Rattle.lw_top.specs.Counts.{counts_text, sizes_text, steps_text};
ghost use Rattle.lw_top.specs.Outcome.{Serves, WritesAnswer, WritesText};

use crate::answer::{Answer, respond};
use crate::refusal::Refusal;
use crate::words::Command;
use lw_files::{put_count, put_number, put_time};
use lw_io::{Failed, Shelf, Sink, Writer, write_all};
use lw_lut::write_tables;
use lw_map::{Counts, Sizes};
use lw_mapped::write;
use lw_verilog::write_verilog;
use std::alloc::Global;

/// What a run comes to.
#[derive(Drop)]
pub enum Outcome {
    Done,
    WriteFault,
    Refused(Refusal),
}

/// Computes the whole answer of a command, and then writes it. Without a command the words are
/// refused.
pub fn serve<F: Shelf, O: Sink>(
    alloc: Global,
    command: Option<Command<'_>>,
    shelf: &mut F,
    out: &mut O,
) -> Outcome
    requires { IfSome (asked command) IsInRange }
    ensures words { (result ≡ Outcome.Refused Refusal.Words) ↔ (asked command.entry ≡ None) }
    ensures serves { Serves (F.files shelf.old) (F.files shelf.new) (F.faults shelf.old)
        (F.faults shelf.new) O.taken O.is_finished O.faults out.old out.new (asked command.entry)
        result }
{
    let Some(command) = command else {
        return Outcome::Refused(Refusal::Words);
    };
    match respond(alloc, command, shelf) {
        Ok(answer) => written(answer, out),
        Err(refusal) => Outcome::Refused(refusal),
    }
}

// Writes an answer, all of it, and lets go of it.
fn written<O: Sink>(answer: Answer, out: &mut O) -> Outcome
    requires { CanBeWritten answer }
    ensures writes { WritesAnswer O.taken O.is_finished O.faults out.old out.new answer result }
    ensures later { O.faults out.old ≤ O.faults out.new }
{
    let mut answer = answer;
    let text = write_text(&mut answer, out);
    drop(answer);
    match text {
        Err(_) => Outcome::WriteFault,
        Ok(()) => match out.finish() {
            Err(_) => Outcome::WriteFault,
            Ok(()) => Outcome::Done,
        },
    }
}

// Writes the text of an answer.
fn write_text<O: Sink>(answer: &mut Answer, out: &mut O) -> Result<(), Failed>
    requires { CanBeWritten answer.old }
    ensures { WritesText (O.taken out.old) (O.faults out.old) (O.taken out.new)
        (O.faults out.new) answer.old result }
{
    match answer {
        Answer::Mapping(library, netlist, frame, starts, certificate) => {
            write(netlist, library, frame, starts, certificate.as_ref(), out)
        }
        Answer::Verilog(library, netlist) => write_verilog(netlist, library, out),
        Answer::Tables(net, frame) => write_tables(net, frame, out),
        Answer::Yes => write_all(out, b"yes\n"),
        Answer::Times(library, netlist, timing) => timing.write(netlist, library, out),
        Answer::Values(network, vectors, sim) => sim.network(network, vectors, out),
        Answer::GateValues(library, netlist, vectors, sim) => {
            sim.netlist(netlist, library, vectors, out)
        }
        Answer::Counts(counts) => write_counts(*counts, out),
        Answer::Sizes(sizes) => write_sizes(*sizes, out),
    }
}

// Writes the counts of a graph, one on a line.
fn write_counts<O: Sink>(counts: Counts, out: &mut O) -> Result<(), Failed>
    ensures { IsTaken (O.taken out.old) (O.faults out.old) (O.taken out.new) (O.faults out.new)
        (counts_text counts) result }
{
    let mut text = Writer::new(out);
    put_count(&mut text, b"forms ", u128::from(counts.forms), b"\n");
    put_count(&mut text, b"classes ", u128::from(counts.classes), b"\n");
    put_count(&mut text, b"alternatives ", counts.pairs, b"\n");
    text.end()
}

// Writes how often stored matches were read, `none` if none was stored.
fn put_steps<O: Sink>(out: &mut Writer<'_, O>, steps: Option<u64>)
    ensures { Writes O.taken O.faults out.old out.new (steps_text steps) }
{
    match steps {
        None => out.put(b"none"),
        Some(steps) => put_number(out, u128::from(steps)),
    }
}

// Writes the sizes of a drawn network, one on a line, the greatest arrival as a decimal.
fn write_sizes<O: Sink>(sizes: Sizes, out: &mut O) -> Result<(), Failed>
    ensures { IsTaken (O.taken out.old) (O.faults out.old) (O.taken out.new) (O.faults out.new)
        (sizes_text sizes) result }
{
    let mut text = Writer::new(out);
    put_count(&mut text, b"nodes ", u128::from(sizes.nodes), b"\n");
    put_count(&mut text, b"classes ", u128::from(sizes.classes), b"\n");
    put_count(&mut text, b"gates ", u128::from(sizes.gates), b"\n");
    text.put(b"max ");
    put_time(&mut text, sizes.latest);
    text.put(b"\n");
    text.put(b"steps ");
    put_steps(&mut text, sizes.steps);
    text.put(b"\n");
    text.end()
}
