// The line of each outcome.
ghost use Rattle.std.specs.Prelude.{◌++◌, codes};
ghost use Rattle.lw_io.specs.Waitings.{IsTaken};
ghost use Rattle.lw_io.specs.Writers.{Writes};
ghost use Rattle.lw_top.specs.Words.{file_word};
ghost use Rattle.lw_top.specs.Commands.{asked};
ghost use Rattle.lw_top.specs.Reasons.{reason_text, no_verilog_text};
ghost use Rattle.lw_top.specs.Telling.{outcome_line, refusal_line, refusal_text};

use crate::outcome::Outcome;
use crate::reasons::{put_no_verilog, put_reason, verilog_kind_text};
use crate::refusal::{Refusal, Which};
use crate::words::{Command, file_word};
use lw_files::{put_broken, put_fault, put_two};
use lw_io::{Failed, Sink, Writer};
use lw_map::Reason;
use lw_verilog::NoVerilog;

/// Writes the line of an outcome to `err`, if it has one.
pub fn tell<E: Sink>(
    command: Option<Command<'_>>,
    outcome: &Outcome,
    err: &mut E,
) -> Result<(), Failed>
    ensures { IsTaken (E.taken err.old) (E.faults err.old) (E.taken err.new) (E.faults err.new)
        (outcome_line (asked command.entry) outcome.now) result }
{
    let mut out = Writer::new(err);
    put_outcome(command, outcome, &mut out);
    out.end()
}

// Writes the line of an outcome, and nothing if the answer was written.
fn put_outcome<E: Sink>(command: Option<Command<'_>>, outcome: &Outcome, out: &mut Writer<'_, E>)
    ensures { Writes E.taken E.faults out.old out.new
        (outcome_line (asked command.entry) outcome.now) }
{
    match outcome {
        Outcome::Done => out.put(b""),
        Outcome::WriteFault => out.put(b"lwmap: cannot write\n"),
        Outcome::Refused(refusal) => put_line(command, refusal, out),
    }
}

// Writes the line of a refusal, which begins with the program's name.
fn put_line<E: Sink>(command: Option<Command<'_>>, refusal: &Refusal, out: &mut Writer<'_, E>)
    ensures { Writes E.taken E.faults out.old out.new
        (refusal_line (asked command.entry) refusal.now) }
{
    out.put(b"lwmap: ");
    put_refusal(command, refusal, out);
    out.put(b"\n");
}

// Writes why there is no answer. A file is named by its word in the command.
fn put_refusal<E: Sink>(command: Option<Command<'_>>, refusal: &Refusal, out: &mut Writer<'_, E>)
    ensures { Writes E.taken E.faults out.old out.new
        (refusal_text (asked command.entry) refusal.now) }
{
    match refusal {
        Refusal::Words => out.put(USAGE),
        Refusal::Faulty(w, fault) => put_fault(out, file_word(command, *w), fault),
        Refusal::Verilog(n, kind) => put_broken(
            out,
            file_word(command, Which::Mapped),
            *n,
            verilog_kind_text(kind),
        ),
        Refusal::Vector(n) => put_broken(
            out,
            file_word(command, Which::Vectors),
            *n,
            b"bad vector",
        ),
        Refusal::Forms => out.put(b"limit: more than 2097152 forms"),
        Refusal::Splits => out.put(b"limit: more than 16777216 splits"),
        Refusal::NoCover(s) => put_two(out, b"no cover for output ", s.as_bytes()),
        Refusal::Points => out.put(b"limit: more than 8000000 points"),
        Refusal::No(reason) => put_no(out, reason),
        Refusal::NoVerilog(why) => put_unsaid(out, why),
        Refusal::Memory => out.put(b"out of memory"),
    }
}

// Writes why a check says no, after `no: `.
fn put_no<E: Sink>(out: &mut Writer<'_, E>, reason: &Reason)
    ensures { Writes E.taken E.faults out.old out.new (codes "no: " ++ reason_text reason.now) }
{
    out.put(b"no: ");
    put_reason(out, reason);
}

// Writes why there is no text in Verilog, after `no verilog: `.
fn put_unsaid<E: Sink>(out: &mut Writer<'_, E>, why: &NoVerilog)
    ensures { Writes E.taken E.faults out.old out.new
        (codes "no verilog: " ++ no_verilog_text why.now) }
{
    out.put(b"no verilog: ");
    put_no_verilog(out, why);
}

// The line for words of no written form.
const USAGE: &[u8] =
    b"usage: map [-w K] [-i] [-c] LIB IN | check [-w K] [-i] LIB IN MAPPED | time LIB MAPPED | sim IN VECTORS | sim -g LIB MAPPED VECTORS | graph [-w K] [-i] IN | big SEED N LIB | trade [-w K] [-i] T LIB IN | lut L [-w K] [-i] IN | verilog LIB MAPPED | unverilog LIB VER";
