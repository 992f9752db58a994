// Reads one word, by what is expected next.
ghost use Rattle.std.specs.Prelude.{[], ◌∷◌, Some};
ghost use Rattle.lw_genlib.specs.Cells.{IsWord};
ghost use Rattle.lw_genlib.specs.declared.state_parts.Expect.TheVariants as expects;
ghost use Rattle.lw_genlib.specs.Standing.{ReadsMore, ReadsWord, BeginsPiece, BeginsEntry};
ghost use Rattle.lw_genlib.specs.Standing.{EndsFunction, EndsField, item_of};
ghost use Rattle.lw_words.specs.Limits.{longest_word};

use crate::cells_so_far::close_entry;
use crate::entry::{begin_entry, with_delay};
use crate::fields::{begins_entry, cell_name, delay_behind, number, target};
use crate::function_text::{around_end, no_text, with_word};
use crate::given::Given;
use crate::reader_state::{CellsWithRoom, OpenCells, ReaderState};
use crate::state_parts::{CellsSoFar, Entry, Expect, FunctionText, GateHeader, GateName, PinDelay};
use crate::{Field, LibFault, LibKind};
use lw_fixed::Micro;
use lw_pool::Name;

/// The most entries of a library.
const MOST_ENTRIES: u32 = 4096;

/// Reads one more word.
pub(crate) fn read_word(given: &Given, state: ReaderState) -> Result<ReaderState, LibFault>
    requires word { IsWord longest_word given.now.word.now }
    ensures { ReadsMore state (item_of given.now ∷ []) result }
{
    let ReaderState { so_far, expect } = state;
    match expect {
        Expect::Piece(entry) => read_piece(given, OpenCells { so_far, entry }),
        Expect::Latch => read_latch(given, so_far),
        Expect::Name(gate) => read_name(given, CellsWithRoom { so_far }, gate),
        Expect::Area(gate) => read_area(given, CellsWithRoom { so_far }, gate),
        Expect::Function(header, text) => {
            read_function(given, CellsWithRoom { so_far }, header, text)
        }
        Expect::Pin(entry) => read_pin(given, CellsWithRoom { so_far }, entry),
        Expect::Field(entry, pin, field) => {
            read_field(given, CellsWithRoom { so_far }, entry, pin, field)
        }
    }
}

// A word that begins a pin or an entry.
fn read_piece(given: &Given, read: OpenCells) -> Result<ReaderState, LibFault>
    ensures { BeginsPiece read.so_far read.entry given.now result }
{
    let OpenCells { so_far, entry } = read;
    // Brings in what the type of `so_far` keeps.
    let _ = &so_far.cells;
    match entry {
        Some(entry) => read_behind(given, CellsWithRoom { so_far }, entry),
        None => read_entry(given, so_far),
    }
}

// A word that begins a pin of this entry, or another entry.
fn read_behind(given: &Given, before: CellsWithRoom, entry: Entry) -> Result<ReaderState, LibFault>
    ensures { BeginsPiece before.so_far (Some entry) given.now result }
{
    if given.word == b"PIN".as_slice() {
        let CellsWithRoom { so_far } = before;
        return Ok(ReaderState {
            so_far,
            expect: Expect::Pin(entry),
        });
    }
    let so_far = close_entry(given.alloc, before, entry)?;
    read_entry(given, so_far)
}

// A word that begins an entry.
fn read_entry(given: &Given, so_far: CellsSoFar) -> Result<ReaderState, LibFault>
    ensures { BeginsEntry so_far given.now result }
{
    let Given { line, word, .. } = *given;
    if word == b"LATCH".as_slice() {
        return Ok(ReaderState {
            so_far,
            expect: Expect::Latch,
        });
    }
    if word != b"GATE".as_slice() {
        return Err(LibFault::Line(line, LibKind::Expected));
    }
    if so_far.entries >= MOST_ENTRIES {
        return Err(LibFault::Line(line, LibKind::LimitCells));
    }
    Ok(ReaderState {
        so_far,
        expect: Expect::Name(line),
    })
}

// A word of a latch, or one that begins an entry.
fn read_latch(given: &Given, so_far: CellsSoFar) -> Result<ReaderState, LibFault>
    ensures { ReadsWord so_far expects.Latch given.now result }
{
    // Brings in what the type of `so_far` keeps.
    let _ = &so_far.cells;
    if begins_entry(given.word) {
        return read_entry(given, so_far);
    }
    Ok(ReaderState {
        so_far,
        expect: Expect::Latch,
    })
}

// The name of a cell, behind the word `GATE` on this line.
fn read_name(given: &Given, before: CellsWithRoom, gate: u32) -> Result<ReaderState, LibFault>
    requires { IsWord longest_word given.now.word.now }
    ensures { ReadsWord before.so_far (expects.Name gate) given.now result }
{
    let Some(name) = cell_name(given.word) else {
        return Err(LibFault::Line(given.line, LibKind::Expected));
    };
    let name = Name::from_slice(given.alloc, name)?;
    let CellsWithRoom { so_far } = before;
    Ok(ReaderState {
        so_far,
        expect: Expect::Area(GateName { line: gate, name }),
    })
}

// The area of a cell.
fn read_area(given: &Given, before: CellsWithRoom, gate: GateName) -> Result<ReaderState, LibFault>
    ensures { ReadsWord before.so_far (expects.Area gate) given.now result }
{
    let area = number(given)?;
    let GateName { line, name } = gate;
    let header = GateHeader { line, name, area };
    let CellsWithRoom { so_far } = before;
    Ok(ReaderState {
        so_far,
        expect: Expect::Function(header, no_text(given.alloc)),
    })
}

// A word of a function, and what is behind its `;`.
fn read_function(
    given: &Given,
    before: CellsWithRoom,
    header: GateHeader,
    text: FunctionText,
) -> Result<ReaderState, LibFault>
    requires { IsWord longest_word given.now.word.now }
    ensures { ReadsWord before.so_far (expects.Function header text) given.now result }
{
    let Given { alloc, line, word } = *given;
    let (word, behind) = around_end(word);
    if word.len() >= text.room {
        return Err(LibFault::Line(line, LibKind::LimitText));
    }
    let text = with_word(&Given { alloc, line, word }, text)?;
    if let Some(word) = behind {
        return end_function(&Given { alloc, line, word }, before, header, text);
    }
    let CellsWithRoom { so_far } = before;
    Ok(ReaderState {
        so_far,
        expect: Expect::Function(header, text),
    })
}

// The function's `;`, and what is left of its word.
fn end_function(
    given: &Given,
    before: CellsWithRoom,
    header: GateHeader,
    text: FunctionText,
) -> Result<ReaderState, LibFault>
    ensures { EndsFunction before.so_far header text given.now result }
{
    let entry = begin_entry(given.alloc, header, text, given.line)?;
    if given.word.is_empty() {
        let CellsWithRoom { so_far } = before;
        return Ok(ReaderState {
            so_far,
            expect: Expect::Piece(Some(entry)),
        });
    }
    read_behind(given, before, entry)
}

// The name of a pin, or `*`.
fn read_pin(given: &Given, before: CellsWithRoom, entry: Entry) -> Result<ReaderState, LibFault>
    ensures { ReadsWord before.so_far (expects.Pin entry) given.now result }
{
    let pins = target(given, entry.pins())?;
    let CellsWithRoom { so_far } = before;
    let delay = Micro(0);
    let pin = PinDelay { pins, delay };
    Ok(ReaderState {
        so_far,
        expect: Expect::Field(entry, pin, Field::Phase),
    })
}

// A word behind a pin's name.
fn read_field(
    given: &Given,
    before: CellsWithRoom,
    entry: Entry,
    pin: PinDelay,
    field: Field,
) -> Result<ReaderState, LibFault>
    ensures { ReadsWord before.so_far (expects.Field entry pin field) given.now result }
{
    let PinDelay { pins, delay } = pin;
    match delay_behind(given, field, delay) {
        Ok(delay) => Ok(behind_field(before, entry, PinDelay { pins, delay }, field)),
        Err(fault) => {
            drop(entry);
            drop(before);
            Err(fault)
        }
    }
}

// What is read behind a word of a pin.
fn behind_field(before: CellsWithRoom, entry: Entry, pin: PinDelay, field: Field) -> ReaderState
    ensures { EndsField before.so_far entry pin field result }
{
    let CellsWithRoom { so_far } = before;
    let expect = match field.next() {
        Some(next) => Expect::Field(entry, pin, next),
        None => Expect::Piece(Some(with_delay(entry, pin))),
    };
    ReaderState { so_far, expect }
}
