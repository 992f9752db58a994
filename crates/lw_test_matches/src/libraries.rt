// Libraries of small texts, and their patterns.
ghost use Rattle.std.specs.Prelude.{◌≡◌, ◌+◌, ◌≤◌, false, [], All, IfOk, length, map};
ghost use Rattle.lw_genlib.specs.Cells.{IsSmall};
ghost use Rattle.lw_genlib.specs.Tables.{delays_of_cells};
ghost use Rattle.lw_cost.specs.Least.{AreOfCells};
ghost use Rattle.lw_words.specs.Standing.{is_finished, fed_count};

use lw_fixed::Micros;
use lw_genlib::{LibFault, LibReader, Library, has_no_hash};
use lw_pattern::{Patterns, patterns};
use lw_words::Lines;
use std::alloc::{AllocError, Global};

/// An inverter and NANDs of two and three pins.
pub(crate) const NANDS: &str =
    "GATE inv 1 O=!a;PIN * INV 1 999 1 0 1 0\nGATE nand2 2 O=!(a*b);PIN * INV 1 999 1.5 0 1.5 0\nGATE nand3 3 O=!(a*b*c);PIN * INV 1 999 2 0 2 0\n";

// Feeds a small text, whole.
fn feed(lines: &mut Lines, bytes: &[u8]) -> Result<(), AllocError>
    requires unfinished { is_finished lines.old ≡ false }
    requires small { fed_count lines.old + length bytes.now ≤ 10000 }
{
    lines.feed(bytes)?;
    lines.finish()
}

// Reads the lines of a text that are no comments.
fn read_lines(reader: &mut LibReader, lines: &mut Lines) -> Result<(), LibFault> {
    for _ in 0..10_000 {
        let Some(line) = lines.take() else {
            break;
        };
        if has_no_hash(&line) {
            reader.line(&line)?;
        }
    }
    Ok(())
}

// Reads a small text.
fn read_text(reader: &mut LibReader, alloc: Global, text: &str) -> Result<(), LibFault> {
    let bytes = text.as_bytes();
    if bytes.len() > 10_000 {
        return Ok(());
    }
    let mut lines = Lines::new(alloc, false);
    feed(&mut lines, bytes)?;
    read_lines(reader, &mut lines)
}

/// What a small text is as a library.
pub(crate) fn library_of(alloc: Global, text: &str) -> Result<Library, LibFault> {
    let mut reader = LibReader::new(alloc);
    match read_text(&mut reader, alloc, text) {
        Ok(()) => reader.end(),
        Err(fault) => {
            drop(reader);
            Err(fault)
        }
    }
}

fn read_inverters(reader: &mut LibReader, alloc: Global, count: u32) -> Result<(), LibFault> {
    for k in 0..count {
        let text = format!(in alloc; "GATE inv{k} 1 O=!a;PIN * INV 1 999 1 0 1 0\n")?;
        read_text(reader, alloc, &text)?;
    }
    Ok(())
}

/// A library of so many inverters.
pub(crate) fn inverters(alloc: Global, count: u32) -> Result<Library, LibFault> {
    let mut reader = LibReader::new(alloc);
    match read_inverters(&mut reader, alloc, count) {
        Ok(()) => reader.end(),
        Err(fault) => {
            drop(reader);
            Err(fault)
        }
    }
}

/// A library and its patterns.
#[derive(Clone, Copy)]
pub(crate) struct Cells<'a> {
    pub(crate) lib: &'a Library,
    pub(crate) pats: &'a Patterns,
}

/// The patterns of a library, which are of its cells.
pub(crate) fn patterns_of(alloc: Global, lib: &Library) -> Result<Patterns, AllocError>
    ensures { IfOk result (AreOfCells (map length (delays_of_cells lib.now))) }
{
    let _ = lib.len();
    let pats = patterns(alloc, lib)?;
    Ok(pats)
}

/// No start, so that each input starts at 0.
pub(crate) fn no_starts(alloc: Global) -> Micros
    ensures small { All IsSmall result }
    ensures none { result ≡ [] }
{
    Micros::from_vec(Vec::new(alloc))
}
