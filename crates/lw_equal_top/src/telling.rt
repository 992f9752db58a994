// The line of each ending.
ghost use Rattle.std.specs.Prelude.{◌≡◌, [], map, string_bytes, option_map, unwrap_or};
ghost use Rattle.lw_io.specs.Waitings.{IsTaken};
ghost use Rattle.lw_io.specs.Writers.{Writes};
ghost use Rattle.lw_equal_top.specs.Telling.{comparison_line, counts_text, ending_line, file_of};
ghost use Rattle.lw_equal_top.specs.Telling.{kind_name, port_text, refusal_text, word_at};
ghost use Rattle.lw_equal_top.specs.Telling.{word_text, words_line};
ghost use Rattle.lw_equal_top.specs.Requests.{plain_comparison, plain_fault, plain_request};

use crate::fault::Refusal;
use crate::outcome::Ending;
use crate::request::{Comparison, Request, WordFault};
use lw_equal::{Counts, PortFault, PortKind};
use lw_files::put_count;
use lw_io::{Failed, Sink, Writer};
use lw_shown::{put_behind, put_named, put_shown_fault};

fn kind_name(kind: PortKind) -> &'static [u8]
    ensures { result.now ≡ kind_name kind }
{
    match kind {
        PortKind::Input => b" has no input ",
        PortKind::Output => b" has no output ",
        PortKind::Latch => b" has no latch ",
    }
}

// The word at a place, and nothing past the last.
fn word_at(words: &[String], place: usize) -> &[u8]
    ensures { result.now ≡ word_at (map string_bytes words.now) place }
{
    match words.get(place) {
        Some(word) => word.as_str().as_bytes(),
        None => b"",
    }
}

// The file of a network, whose number counts from 1.
fn file_of(files: &[String], number: usize) -> &[u8]
    ensures { result.now ≡ file_of (map string_bytes files.now) number }
{
    word_at(files, number.saturating_sub(1))
}

fn put_port_fault<E: Sink>(out: &mut Writer<'_, E>, files: &[String], fault: &PortFault)
    ensures { Writes E.taken E.faults out.old out.new
        (port_text (map string_bytes files.now) fault.now) }
{
    put_named(
        out,
        file_of(files, fault.lacks),
        kind_name(fault.kind),
        fault.name.as_bytes(),
    );
    put_behind(out, b"", b", which ", file_of(files, fault.has), b" has");
}

fn library_word(word: Option<&str>) -> &[u8]
    ensures { result.now ≡ unwrap_or (option_map (λ word. word.now) word.entry) [] }
{
    match word {
        Some(word) => word.as_bytes(),
        None => b"",
    }
}

// Why there is no answer.
fn put_refusal<E: Sink>(out: &mut Writer<'_, E>, comparison: &Comparison<'_>, refusal: &Refusal)
    ensures { Writes E.taken E.faults out.old out.new
        (refusal_text (plain_comparison comparison.now) refusal.now) }
{
    match refusal {
        Refusal::Library(f) => put_shown_fault(out, library_word(comparison.library), f),
        Refusal::File(place, f) => put_shown_fault(out, word_at(comparison.files, *place), f),
        Refusal::Ports(f) => put_port_fault(out, comparison.files, f),
        Refusal::Memory => out.put(b"out of memory"),
    }
}

// What was found on the way.
fn put_counts<E: Sink>(out: &mut Writer<'_, E>, counts: &Counts)
    ensures { Writes E.taken E.faults out.old out.new (counts_text counts.now) }
{
    put_count(out, b"points ", u128::from(counts.points), b"");
    put_count(out, b", nodes ", u128::from(counts.nodes), b"");
    put_count(out, b", pairs equal ", u128::from(counts.equal), b"");
    put_count(out, b", apart ", u128::from(counts.apart), b"");
    put_count(out, b", left ", u128::from(counts.open), b"");
    put_count(out, b", conflicts ", u128::from(counts.conflicts), b"");
}

// The line of a comparison.
fn put_comparison<E: Sink>(out: &mut Writer<'_, E>, comparison: &Comparison<'_>, ending: &Ending)
    ensures { Writes E.taken E.faults out.old out.new
        (comparison_line (plain_comparison comparison.now) ending.now) }
{
    match ending {
        Ending::Told => out.put(b""),
        Ending::Answered(compared) => {
            if comparison.counted {
                out.put(PREFIX);
                put_counts(out, &compared.outcome.counts);
                out.put(b"\n");
            }
        }
        Ending::WriteFault => out.put(CANNOT_WRITE),
        Ending::Refused(refusal) => {
            out.put(PREFIX);
            put_refusal(out, comparison, refusal);
            out.put(b"\n");
        }
    }
}

const PREFIX: &[u8] = b"lwequal: ";

const CANNOT_WRITE: &[u8] = b"lwequal: cannot write\n";

// The line of an ending, if it has one.
fn put_ending<E: Sink>(out: &mut Writer<'_, E>, request: &Request<'_>, ending: &Ending)
    ensures { Writes E.taken E.faults out.old out.new
        (ending_line (plain_request request.now) ending.now) }
{
    match request {
        Request::Comparing(comparison) => put_comparison(out, comparison, ending),
        _ => match ending {
            Ending::WriteFault => out.put(CANNOT_WRITE),
            _ => out.put(b""),
        },
    }
}

/// Writes the line of an ending, if it has one.
pub fn tell_ending<E: Sink>(
    request: &Request<'_>,
    ending: &Ending,
    err: &mut E,
) -> Result<(), Failed>
    ensures { IsTaken (E.taken err.old) (E.faults err.old) (E.taken err.new) (E.faults err.new)
        (ending_line (plain_request request.now) ending.now) result }
{
    let mut out = Writer::new(err);
    put_ending(&mut out, request, ending);
    out.end()
}

// What is wrong with the words.
fn put_word_fault<E: Sink>(out: &mut Writer<'_, E>, fault: WordFault<'_>)
    ensures { Writes E.taken E.faults out.old out.new (word_text (plain_fault fault.entry)) }
{
    match fault {
        WordFault::Few => out.put(b"two networks are needed"),
        WordFault::Dashed(word) => put_named(out, b"", b"unexpected option ", word.as_bytes()),
        WordFault::Numeral(word) => put_named(out, b"", NO_NUMBER, word.as_bytes()),
    }
}

const NO_NUMBER: &[u8] = b"-n needs a number below 4294967296, not ";

const USAGE: &[u8] =
    b"; usage: lwequal [-l LIB] [-n CONFLICTS] [-s] IN1 IN2 [MORE ..] | lwequal -h | lwequal -v";

fn put_words<E: Sink>(out: &mut Writer<'_, E>, fault: WordFault<'_>)
    ensures { Writes E.taken E.faults out.old out.new (words_line (plain_fault fault.entry)) }
{
    out.put(PREFIX);
    put_word_fault(out, fault);
    out.put(USAGE);
    out.put(b"\n");
}

/// Writes what is wrong with the words, and how they are written.
pub fn tell_words<E: Sink>(fault: WordFault<'_>, err: &mut E) -> Result<(), Failed>
    ensures { IsTaken (E.taken err.old) (E.faults err.old) (E.taken err.new) (E.faults err.new)
        (words_line (plain_fault fault.entry)) result }
{
    let mut out = Writer::new(err);
    put_words(&mut out, fault);
    out.end()
}
