// What is said on err, and the pages.
ghost use Rattle.std.specs.Prelude.{◌≡◌};
ghost use Rattle.lw_io.specs.Waitings.{IsTaken};
ghost use Rattle.lw_io.specs.Writers.{Writes};
ghost use Rattle.lw_area.specs.Outcomes.{ending_line};
ghost use Rattle.lw_area.specs.Plain.{plain_asked, plain_task, plain_wrong};
ghost use Rattle.lw_area.specs.Refusals.{counts_line, left_line, left_lines, limit_text, map_text};
ghost use Rattle.lw_area.specs.Refusals.{notes_lines, refusal_line, refusal_text, why_text};
ghost use Rattle.lw_area.specs.Refusals.{word_at, word_part, wrong_line};

use crate::mapping::Notes;
use crate::outcome::Ending;
use crate::refusal::Refusal;
use crate::words::{Asked, Task, Wrong, WrongWord};
use lw_files::put_count;
use lw_io::{Failed, Sink, Writer};
use lw_joined::{Left, Limit};
use lw_map::MapFault;
use lw_shown::{put_named, put_shown, put_shown_fault};
use lw_top::put_reason;

/// The page of `-h`.
pub const USAGE: &[u8] = b"usage: lwarea [-w K] [-i] [-n] [-c] [-s] [-e E] [-t T] LIB IN [MORE ..]
       lwarea -k [-w K] [-i] [-n] LIB IN [MORE ..] MAPPED
Maps the network IN (BLIF) to cells of LIB (genlib): each output by its deadline,
with as little area as is found. The netlist goes to standard output as mapped BLIF.
MORE are networks over inputs of IN, by name, such as IN restructured: nets of equal
value are found and proved equal, and the netlist may take its parts from any of them.
  -t T   by when outputs arrive, and never before their own least times:
         max (the greatest least time; the default), each (each its own),
         N% (that part of the greatest, 100 to 999), or a time
  -e E   how much is tried: 0 as lwmap map, 1 passes, 2 curves and rounds
         (the default), 3 passes by chance, too
  -w K   the most operands of an AND in a decomposition, 2 to 8; 6 if left out
  -i     two rules of idempotence more
  -n     no nets are found equal: the decompositions are those of lwmap
  -c     with the netlist's certificate, for lwarea -k; wants -t each
  -s     says on standard error how many pairs of nets were found, proved and left
  -k     checks a netlist with its certificate: the same files, then MAPPED
lwarea -h writes this, lwarea -v the version.
";

/// The page of `-v`.
pub const VERSION: &[u8] = b"lwarea 0.3.0\n";

fn why_text(why: Wrong) -> &'static [u8]
    ensures { result.now ≡ why_text why }
{
    match why {
        Wrong::Missing => b"a word is missing",
        Wrong::Unknown => b"no option",
        Wrong::Width => b"no width from 2 to 8",
        Wrong::Trial => b"no effort from 0 to 3",
        Wrong::Time => b"no deadline: max, each, 100% to 999%, or a time",
        Wrong::Certified => b"a certificate wants -t each",
        Wrong::Late => b"options stand before LIB",
    }
}

// The word, where one is wrong.
fn put_word<E: Sink>(out: &mut Writer<'_, E>, word: &[u8])
    ensures { Writes E.taken E.faults out.old out.new (word_part word.now) }
{
    if word.is_empty() {
        out.put(b"");
    } else {
        put_shown(out, word);
        out.put(b": ");
    }
}

fn put_words<E: Sink>(out: &mut Writer<'_, E>, wrong: WrongWord<'_>)
    ensures { Writes E.taken E.faults out.old out.new (wrong_line (plain_wrong wrong.entry)) }
{
    out.put(PREFIX);
    put_word(out, wrong.word.as_bytes());
    out.put(why_text(wrong.why));
    out.put(b"; lwarea -h says more");
    out.put(b"\n");
}

/// Says which word is wrong.
pub(crate) fn tell_word<E: Sink>(wrong: WrongWord<'_>, err: &mut E) -> Result<(), Failed>
    ensures { IsTaken (E.taken err.old) (E.faults err.old) (E.taken err.new) (E.faults err.new)
        (wrong_line (plain_wrong wrong.entry)) result }
{
    let mut out = Writer::new(err);
    put_words(&mut out, wrong);
    out.end()
}

fn put_unmapped<E: Sink>(out: &mut Writer<'_, E>, fault: &MapFault)
    ensures { Writes E.taken E.faults out.old out.new (map_text fault.now) }
{
    match fault {
        MapFault::Forms => out.put(b"limit: more than 2097152 forms"),
        MapFault::Splits => out.put(b"limit: more than 16777216 splits"),
        MapFault::Points => out.put(b"limit: more than 8000000 points"),
        MapFault::NoCover(name) => put_named(out, b"", b"no cover for output ", name.as_bytes()),
        MapFault::Memory => out.put(b"out of memory"),
    }
}

// The word for the file of a further network.
fn word_at<'a>(task: &Task<'a>, place: usize) -> &'a [u8]
    ensures { result.now ≡ word_at (plain_task task.now) place }
{
    match task.more.get(place) {
        Some(word) => word.as_str().as_bytes(),
        None => b"",
    }
}

// Why there is no answer, where a netlist that is checked has this word.
fn put_refusal<E: Sink>(out: &mut Writer<'_, E>, task: &Task<'_>, mapped: &[u8], refusal: &Refusal)
    ensures { Writes E.taken E.faults out.old out.new
        (refusal_text (plain_task task.now) mapped.now refusal.now) }
{
    match refusal {
        Refusal::Library(fault) => put_shown_fault(out, task.library.as_bytes(), fault),
        Refusal::Network(fault) => put_shown_fault(out, task.network.as_bytes(), fault),
        Refusal::Further(place, fault) => put_shown_fault(out, word_at(task, *place), fault),
        Refusal::Strange(place, name) => put_named(
            out,
            word_at(task, *place),
            b": no input of the first network: ",
            name.as_bytes(),
        ),
        Refusal::Mapped(fault) => put_shown_fault(out, mapped, fault),
        Refusal::Unmapped(fault) => put_unmapped(out, fault),
        Refusal::No(reason) => {
            out.put(b"no: ");
            put_reason(out, reason);
        }
    }
}

// The line of a refusal.
fn put_line<E: Sink>(out: &mut Writer<'_, E>, task: &Task<'_>, mapped: &[u8], refusal: &Refusal)
    ensures { Writes E.taken E.faults out.old out.new
        (refusal_line (plain_task task.now) mapped.now refusal.now) }
{
    out.put(PREFIX);
    put_refusal(out, task, mapped, refusal);
    out.put(b"\n");
}

fn limit_text(limit: Limit) -> &'static [u8]
    ensures { result.now ≡ limit_text limit }
{
    match limit {
        Limit::Signals => b" left out: more than 262144 signals\n",
        Limit::Forms => b" left out: more than 2097152 forms\n",
        Limit::Splits => b" left out: more than 16777216 splits\n",
    }
}

fn put_left_line<E: Sink>(out: &mut Writer<'_, E>, task: &Task<'_>, left: &Left)
    ensures { Writes E.taken E.faults out.old out.new (left_line (plain_task task.now) left.now) }
{
    out.put(PREFIX);
    put_shown(out, word_at(task, left.place));
    out.put(limit_text(left.limit));
}

// The networks that were left out, a line for each.
fn put_left<E: Sink>(out: &mut Writer<'_, E>, task: &Task<'_>, left: &[Left])
    ensures { Writes E.taken E.faults out.old out.new (left_lines (plain_task task.now) left.now) }
{
    for one in left {
        put_left_line(out, task, one);
    }
}

// What was done to find links.
fn put_counts<E: Sink>(out: &mut Writer<'_, E>, notes: &Notes)
    ensures { Writes E.taken E.faults out.old out.new (counts_line notes.now) }
{
    let counts = &notes.counts;
    out.put(PREFIX);
    put_count(out, b"networks ", notes.networks as u128, b"");
    put_count(out, b", forms ", u128::from(notes.forms), b"");
    put_count(out, b", pairs equal ", u128::from(counts.equal), b"");
    put_count(out, b", apart ", u128::from(counts.apart), b"");
    put_count(out, b", left ", u128::from(counts.open), b"");
    put_count(out, b", links ", u128::from(counts.links), b"");
    put_count(out, b", conflicts ", u128::from(counts.conflicts), b"");
    put_count(out, b", ms to read ", notes.times.read, b"");
    put_count(out, b", to join ", notes.times.joined, b"");
    put_count(out, b", to map ", notes.times.mapped, b"\n");
}

// What is said of a run beside its answer.
fn put_notes<E: Sink>(out: &mut Writer<'_, E>, task: &Task<'_>, notes: &Notes)
    ensures { Writes E.taken E.faults out.old out.new
        (notes_lines (plain_task task.now) notes.now) }
{
    if task.settings.counted {
        put_left(out, task, &notes.left);
        put_counts(out, notes);
    } else {
        put_left(out, task, &notes.left);
    }
}

const PREFIX: &[u8] = b"lwarea: ";

// The lines of an ending.
fn put_ending<E: Sink>(out: &mut Writer<'_, E>, asked: &Asked<'_>, ending: &Ending)
    ensures { Writes E.taken E.faults out.old out.new
        (ending_line (plain_asked asked.now) ending.now) }
{
    match ending {
        Ending::Done => out.put(b""),
        Ending::WriteFault => out.put(b"lwarea: cannot write\n"),
        Ending::Mapped(notes) => match asked {
            Asked::Mapping(task) => put_notes(out, task, notes),
            _ => out.put(b""),
        },
        Ending::Refused(refusal) => match asked {
            Asked::Mapping(task) => put_line(out, task, b"", refusal),
            Asked::Checking(task, mapped) => put_line(out, task, mapped.as_bytes(), refusal),
            _ => out.put(b""),
        },
    }
}

/// Writes the lines of an ending.
pub(crate) fn tell_ending<E: Sink>(
    asked: &Asked<'_>,
    ending: &Ending,
    err: &mut E,
) -> Result<(), Failed>
    ensures { IsTaken (E.taken err.old) (E.faults err.old) (E.taken err.new) (E.faults err.new)
        (ending_line (plain_asked asked.now) ending.now) result }
{
    let mut out = Writer::new(err);
    put_ending(&mut out, asked, ending);
    out.end()
}
