// The files of a comparison.
ghost use Rattle.std.specs.Prelude.{◌≡◌, ◌≤◌, ◌++◌, ◌&&◌, ◌∷◌, [], All, length, map, string_bytes};
ghost use Rattle.std.specs.Prelude.{option_map, IfOk, OnOk};
ghost use Rattle.lw_words.specs.Limits.{most_bytes};
ghost use Rattle.lw_files.specs.Reading.{Comes, ReadsFile};
ghost use Rattle.lw_equal_top.specs.Sources.{is_gate, has_gates, HasSource, HasNetwork, HasNetlist};
ghost use Rattle.lw_equal_top.specs.Sources.{ReadsSource, ReadsCells, IsSource};
ghost use Rattle.lw_equal_top.specs.Reading.{ReadsCellsOf, ReadsSources};

use crate::fault::Refusal;
use crate::source::Source;
use lw_files::{FileFault, TakesLines, library_in, mapped_in, model_in, read_file, read_lines};
use lw_genlib::Library;
use lw_io::Shelf;
use lw_mapped::read_netlists_have_names;
use lw_words::{Line, is};
use std::alloc::{AllocError, Global};

// Looks for a line of a gate.
#[derive(Drop)]
struct Seeker {
    found: bool,
}

fn is_gate(line: &Line) -> bool
    ensures { result ≡ is_gate line.now }
{
    is(line.words.get(0), b".gate")
}

impl TakesLines<()> for Seeker {
    ghost use Rattle.std.specs.Prelude.{◌≡◌};
    ghost use Rattle.std.specs.List.{list_any};
    ghost use Rattle.lw_equal_top.specs.Sources.{is_gate};

    ghost given = { λ s over lines. s.found ≡ list_any is_gate lines };

    ghost accepts = { λ line. Unit {0} };

    fn take_line(&mut self, _over: &(), line: &Line) {
        if is_gate(line) {
            self.found = true;
        }
    }
}

// Whether a text has a line of a gate.
fn has_gates(alloc: Global, bytes: &[u8]) -> Result<bool, AllocError>
    requires { length bytes.now ≤ most_bytes }
    ensures { IfOk result (λ found. found ≡ has_gates bytes.now) }
{
    let mut seeker = Seeker { found: false };
    read_lines(alloc, bytes, false, &(), &mut seeker)?;
    Ok(seeker.found)
}

// The network of a text.
fn network_in(alloc: Global, library: &Library, bytes: &[u8]) -> Result<Source, FileFault>
    requires { length bytes.now ≤ most_bytes }
    ensures comes { Comes (λ source. source) (HasNetwork bytes.now) result }
    ensures source { IfOk result (IsSource library.now) }
{
    let model = model_in(alloc, bytes)?;
    Ok(Source::Network(model))
}

// The netlist of a text, by the cells of the library.
fn netlist_in(alloc: Global, library: &Library, bytes: &[u8]) -> Result<Source, FileFault>
    requires { length bytes.now ≤ most_bytes }
    ensures comes { Comes (λ source. source) (HasNetlist library.now bytes.now) result }
    ensures source { IfOk result (IsSource library.now) }
{
    read_netlists_have_names();
    let mapped = mapped_in(alloc, library, bytes)?;
    Ok(Source::Netlist(mapped))
}

// Whether a text is that of a netlist; `known` says whether there is a library.
fn is_netlist(alloc: Global, known: bool, bytes: &[u8]) -> Result<bool, AllocError>
    requires { length bytes.now ≤ most_bytes }
    ensures { IfOk result (λ is. is ≡ (known && has_gates bytes.now)) }
{
    if known {
        has_gates(alloc, bytes)
    } else {
        Ok(false)
    }
}

// What a text says.
fn source_in(
    alloc: Global,
    known: bool,
    library: &Library,
    bytes: &[u8],
) -> Result<Source, FileFault>
    requires { length bytes.now ≤ most_bytes }
    ensures comes { Comes (λ source. source) (HasSource known library.now bytes.now) result }
    ensures source { IfOk result (IsSource library.now) }
{
    if is_netlist(alloc, known, bytes)? {
        return netlist_in(alloc, library, bytes);
    }
    network_in(alloc, library, bytes)
}

// What a file says.
fn read_source<F: Shelf>(
    alloc: Global,
    known: bool,
    library: &Library,
    shelf: &mut F,
    name: &str,
) -> Result<Source, FileFault>
    ensures reads { ReadsFile (λ source. source) F.files F.faults shelf.old shelf.new
        (ReadsSource known library.now name.now) result }
    ensures source { IfOk result (IsSource library.now) }
{
    let bytes = read_file(alloc, shelf, name)?;
    source_in(alloc, known, library, &bytes)
}

// The library of the word, or that of an empty text.
fn cells_of<F: Shelf>(
    alloc: Global,
    shelf: &mut F,
    word: Option<&str>,
) -> Result<Library, FileFault>
    ensures { ReadsFile (λ cells. cells) F.files F.faults shelf.old shelf.new
        (ReadsCells (option_map (λ word. word.now) word.entry)) result }
{
    match word {
        Some(name) => lw_files::read_library(alloc, shelf, name),
        None => library_in(alloc, b""),
    }
}

/// The library of the word, or that of an empty text.
pub fn read_cells<F: Shelf>(
    alloc: Global,
    shelf: &mut F,
    word: Option<&str>,
) -> Result<Library, Refusal>
    ensures { ReadsCellsOf F.files F.faults shelf.old shelf.new
        (option_map (λ word. word.now) word.entry) result }
{
    match cells_of(alloc, shelf, word) {
        Ok(library) => Ok(library),
        Err(fault) => Err(Refusal::of_library(fault)),
    }
}

// Adds what a file says.
fn add(sources: &mut Vec<Source>, source: Source) -> Result<(), AllocError>
    ensures { OnOk result (sources.new.items ≡ sources.old.items ++ source ∷ []) }
{
    sources.push(source)?;
    Ok(())
}

/// What files say, one after another, each read once. The first that says nothing is refused.
pub fn read_sources<F: Shelf>(
    alloc: Global,
    known: bool,
    library: &Library,
    shelf: &mut F,
    names: &[String],
) -> Result<Vec<Source>, Refusal>
    ensures reads { ReadsSources F.files F.faults shelf.old shelf.new known library.now
        (map string_bytes names.now) result }
    ensures sources { IfOk result (λ v. All (IsSource library.now) v.items) }
{
    let mut sources = Vec::new(alloc);
    'names: for (place, name) in names.iter().enumerate() {
        match read_source(alloc, known, library, shelf, name.as_str()) {
            Ok(source) => add(&mut sources, source)?,
            Err(fault) => return Err(Refusal::of_file(place, fault)),
        }
    }
    Ok(sources)
}
