// What files say.
ghost use Rattle.std.specs.Prelude.{◌≤◌, length, IfOk};
ghost use Rattle.lw_blif.specs.BlifNetworks.{IsModel};
ghost use Rattle.lw_files.specs.Sources.{HasCells, HasModel, HasMapped, ReadsLibrary, ReadsModel};
ghost use Rattle.lw_files.specs.Sources.{ReadsMapped};
ghost use Rattle.lw_files.specs.Reading.{Comes, ReadsFile};
ghost use Rattle.lw_files.specs.Read.{IsReadNetlist};
ghost use Rattle.lw_words.specs.Limits.{most_bytes};

use crate::FileFault;
use crate::reading::read_file;
use crate::texts::read_lines;
use lw_blif::{BlifFault, Parsed, Reader};
use lw_genlib::{LibFault, LibReader, Library};
use lw_io::Shelf;
use lw_mapped::{Mapped, MappedFault, MappedReader};
use lw_named_netlist::NetlistFault;
use lw_net::NetFault;
use std::alloc::Global;

/// The library of a text, or its first fault.
pub fn library_in(alloc: Global, bytes: &[u8]) -> Result<Library, FileFault>
    requires { length bytes.now ≤ most_bytes }
    ensures { Comes (λ cells. cells) (HasCells bytes.now) result }
{
    let mut reader = LibReader::new(alloc);
    if read_lines(alloc, bytes, false, &(), &mut reader).is_err() {
        drop(reader);
        return Err(FileFault::Memory);
    }
    match reader.end() {
        Ok(library) => Ok(library),
        Err(LibFault::Line(line, kind)) => Err(FileFault::Library(line, kind)),
        Err(LibFault::Memory) => Err(FileFault::Memory),
    }
}

/// The library of a file.
pub fn read_library<F: Shelf>(
    alloc: Global,
    shelf: &mut F,
    name: &str,
) -> Result<Library, FileFault>
    ensures { ReadsFile (λ cells. cells) F.files F.faults shelf.old shelf.new
        (ReadsLibrary name.now) result }
{
    let bytes = read_file(alloc, shelf, name)?;
    library_in(alloc, &bytes)
}

/// The model of a text, or its first fault.
pub fn model_in(alloc: Global, bytes: &[u8]) -> Result<Parsed, FileFault>
    requires { length bytes.now ≤ most_bytes }
    ensures comes { Comes (λ model. model) (HasModel bytes.now) result }
    ensures model { IfOk result IsModel }
{
    let mut reader = Reader::new(alloc);
    if read_lines(alloc, bytes, false, &(), &mut reader).is_err() {
        drop(reader);
        return Err(FileFault::Memory);
    }
    match reader.end() {
        Ok(model) => Ok(model),
        Err(BlifFault::Line(line, kind)) => Err(FileFault::Network(line, kind)),
        Err(BlifFault::Whole(NetFault::Undefined(name))) => Err(FileFault::Undefined(name)),
        Err(BlifFault::Whole(NetFault::Cycle(name))) => Err(FileFault::Cycle(name)),
        Err(BlifFault::Whole(NetFault::Memory)) | Err(BlifFault::Memory) => Err(FileFault::Memory),
    }
}

/// The model of a file.
pub fn read_model<F: Shelf>(alloc: Global, shelf: &mut F, name: &str) -> Result<Parsed, FileFault>
    ensures reads { ReadsFile (λ model. model) F.files F.faults shelf.old shelf.new
        (ReadsModel name.now) result }
    ensures model { IfOk result IsModel }
{
    let bytes = read_file(alloc, shelf, name)?;
    model_in(alloc, &bytes)
}

/// The mapped netlist of a text, by the cells of a library, or its first fault.
pub fn mapped_in(alloc: Global, library: &Library, bytes: &[u8]) -> Result<Mapped, FileFault>
    requires { length bytes.now ≤ most_bytes }
    ensures comes { Comes (λ mapped. mapped) (HasMapped library.now bytes.now) result }
    ensures kept { IfOk result (IsReadNetlist library.now) }
{
    let mut reader = MappedReader::new(alloc);
    if read_lines(alloc, bytes, true, library, &mut reader).is_err() {
        drop(reader);
        return Err(FileFault::Memory);
    }
    match reader.end(library) {
        Ok(mapped) => Ok(mapped),
        Err(MappedFault::Line(line, kind)) => Err(FileFault::Mapped(line, kind)),
        Err(MappedFault::Whole(NetlistFault::Twice(name))) => Err(FileFault::Twice(name)),
        Err(MappedFault::Whole(NetlistFault::Undriven(name))) => Err(FileFault::Undriven(name)),
        Err(MappedFault::Whole(NetlistFault::Cycle(name))) => Err(FileFault::NetCycle(name)),
        Err(MappedFault::Whole(NetlistFault::Memory)) | Err(MappedFault::Memory) => {
            Err(FileFault::Memory)
        }
    }
}

/// The mapped netlist of a file, by the cells of a library.
pub fn read_mapped<F: Shelf>(
    alloc: Global,
    library: &Library,
    shelf: &mut F,
    name: &str,
) -> Result<Mapped, FileFault>
    ensures reads { ReadsFile (λ mapped. mapped) F.files F.faults shelf.old shelf.new
        (ReadsMapped name.now library.now) result }
    ensures kept { IfOk result (IsReadNetlist library.now) }
{
    let bytes = read_file(alloc, shelf, name)?;
    mapped_in(alloc, library, &bytes)
}
