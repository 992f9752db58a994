// The lines of a text, given to a reader.
ghost use Rattle.std.specs.Prelude.{◌≡◌, ◌++◌, [], ◌∷◌, ◌≤◌, ℕ, Bool, List, All, length, OnOk};
ghost use Rattle.lw_words.specs.Lines.{LogicalLine, logical_lines};
ghost use Rattle.lw_words.specs.Standing.{is_finished, fed_count};
ghost use Rattle.lw_genlib.specs.Standing.{HasNoHash};
ghost use Rattle.lw_files.specs.Texts.{IsGiven, IsGivenAll, IsGivenSome};
ghost use Rattle.lw_words.specs.Limits.{most_bytes};

use lw_blif::Reader;
use lw_genlib::{LibReader, Library};
use lw_mapped::MappedReader;
use lw_words::{Line, Lines};
use std::alloc::{AllocError, Global};

/// The most bytes that are cut into lines at once.
const PIECE: usize = 4096;

/// A reader of lines. `C` is what it reads them against, such as the library for a mapped netlist;
/// it is `()` for BLIF and genlib.
pub trait TakesLines<C> {
    /// The lines that were given.
    ghost given: { Self → C → List LogicalLine → Type 0 };
    /// The lines that may be given.
    ghost accepts: { LogicalLine → Type 0 };

    /// Takes the next line. A fault is kept and told at the end.
    fn take_line(&mut self, over: &C, line: &Line)
        requires { accepts line.now }
        ensures { (lines : List LogicalLine) → given self.old over.now lines →
            given self.new over.now (lines ++ line.now ∷ []) };
}

impl TakesLines<()> for LibReader {
    ghost use Rattle.lw_genlib.specs.Standing.{StandsFor};

    ghost given = { λ r over lines. StandsFor r lines };

    ghost accepts = { λ line. HasNoHash line };

    // Takes the next line of a library.
    fn take_line(&mut self, _over: &(), line: &Line) {
        // The reader keeps a fault, and reports it at its end.
        let _ = self.line(line);
    }
}

impl TakesLines<()> for Reader {
    ghost use Rattle.lw_blif.specs.Standing.{StandsFor};

    ghost given = { λ r over lines. StandsFor r lines };

    ghost accepts = { λ line. Unit {0} };

    // Takes the next line of a network.
    fn take_line(&mut self, _over: &(), line: &Line) {
        // The reader keeps a fault, and reports it at its end.
        let _ = self.line(line);
    }
}

impl TakesLines<Library> for MappedReader {
    ghost use Rattle.lw_mapped.specs.Standing.{StandsFor};

    ghost given = { λ r over lines. StandsFor r over lines };

    ghost accepts = { λ line. Unit {0} };

    // Takes the next line of a mapped netlist, by the cells of the library.
    fn take_line(&mut self, over: &Library, line: &Line) {
        // The reader keeps a fault, and reports it at its end.
        let _ = self.line(line, over);
    }
}

// Gives a reader the lines that are finished, and takes them from `lines`.
fn give_lines<C, R: TakesLines<C>>(lines: &mut Lines, over: &C, reader: &mut R)
    requires { (marked : Bool) × IsGivenSome
        (λ r ls. R.given r over.now ls) R.accepts marked lines.old reader.old }
    ensures given { (marked : Bool) (all : List LogicalLine) (fed : List ℕ) →
        IsGiven (λ r ls. R.given r over.now ls) R.accepts marked lines.old reader.old all fed →
        IsGivenAll (λ r ls. R.given r over.now ls) R.accepts marked lines.new reader.new all fed }
    ensures count { fed_count lines.new ≡ fed_count lines.old }
    ensures finished { is_finished lines.new ≡ is_finished lines.old }
{
    'each: while let Some(line) = lines.take() {
        reader.take_line(over, &line);
    }
}

/// Gives a new reader the lines of a text. If `marked`, a `#@` that begins a line is kept and
/// begins no comment; `over` is what the reader reads the lines against.
pub fn read_lines<C, R: TakesLines<C>>(
    alloc: Global,
    bytes: &[u8],
    marked: bool,
    over: &C,
    reader: &mut R,
) -> Result<(), AllocError>
    requires few { length bytes.now ≤ most_bytes }
    requires unread { R.given reader.old over.now [] }
    requires accepted { All R.accepts (logical_lines marked bytes.now) }
    ensures { OnOk result (R.given reader.new over.now (logical_lines marked bytes.now)) }
{
    let mut lines = Lines::new(alloc, marked);
    let mut at = 0;
    'pieces: while at < bytes.len() {
        let end = (at + PIECE).min(bytes.len());
        lines.feed(&bytes[at..end])?;
        give_lines(&mut lines, over, reader);
        at = end;
    }
    lines.finish()?;
    give_lines(&mut lines, over, reader);
    Ok(())
}
