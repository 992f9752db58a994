// The files of a command, each with its name for the line that tells its fault.
ghost use Rattle.std.specs.Prelude.{◌≡◌, ◌≤◌, length, vec_len, IfOk};
ghost use Rattle.lw_words.specs.Limits.{most_bytes};
ghost use Rattle.lw_netlist.specs.Plain.{IsOver};
ghost use Rattle.lw_blif.specs.BlifNetworks.{IsModel};
ghost use Rattle.lw_files.specs.Read.{IsReadNetlist};
ghost use Rattle.lw_top.specs.declared.refusal.Which.TheVariants as which;
ghost use Rattle.lw_top.specs.Answers.{text_in, HasVerilog, HasVectors, ReadsLibrary, ReadsModel};
ghost use Rattle.lw_top.specs.Answers.{ReadsMapped, ReadsVerilog, ReadsVectors};
ghost use Rattle.lw_top.specs.Reading.{ReadsFile};
ghost use Rattle.lw_top.specs.Named.{Comes, netlist_refusal, values_in, AreReadVectors};

use crate::refusal::{Refusal, Which};
use lw_blif::Parsed;
use lw_files::{FileFault, TakesLines, read_file, read_lines};
use lw_genlib::Library;
use lw_io::Shelf;
use lw_mapped::Mapped;
use lw_named_netlist::NetlistFault;
use lw_netlist::Netlist;
use lw_pool::Bytes;
use lw_report::{VectorFault, Vectors};
use lw_verilog::{VerilogFault, read_verilog};
use lw_words::Line;
use std::alloc::Global;

/// The library of a file.
pub(crate) fn read_library<F: Shelf>(
    alloc: Global,
    shelf: &mut F,
    name: &str,
) -> Result<Library, Refusal>
    ensures { ReadsFile (λ cells. cells) F.files F.faults shelf.old shelf.new which.Library
        (ReadsLibrary name.now) result }
{
    match lw_files::read_library(alloc, shelf, name) {
        Ok(library) => Ok(library),
        Err(fault) => Err(Refusal::of_file(Which::Library, fault)),
    }
}

/// The model of a file.
pub(crate) fn read_model<F: Shelf>(
    alloc: Global,
    shelf: &mut F,
    name: &str,
) -> Result<Parsed, Refusal>
    ensures reads { ReadsFile (λ model. model) F.files F.faults shelf.old shelf.new which.Network
        (ReadsModel name.now) result }
    ensures model { IfOk result IsModel }
{
    match lw_files::read_model(alloc, shelf, name) {
        Ok(model) => Ok(model),
        Err(fault) => Err(Refusal::of_file(Which::Network, fault)),
    }
}

/// The mapped netlist of a file, by the cells of a library.
pub(crate) fn read_mapped<F: Shelf>(
    alloc: Global,
    library: &Library,
    shelf: &mut F,
    name: &str,
) -> Result<Mapped, Refusal>
    ensures reads { ReadsFile (λ mapped. mapped) F.files F.faults shelf.old shelf.new which.Mapped
        (ReadsMapped name.now library.now) result }
    ensures kept { IfOk result (IsReadNetlist library.now) }
{
    match lw_files::read_mapped(alloc, library, shelf, name) {
        Ok(mapped) => Ok(mapped),
        Err(fault) => Err(Refusal::of_file(Which::Mapped, fault)),
    }
}

// The bytes of a file. `which` file of the command it is goes into the refusal.
fn read_text<F: Shelf>(
    alloc: Global,
    shelf: &mut F,
    which: Which,
    name: &str,
) -> Result<Vec<u8>, Refusal>
    ensures few { IfOk result (λ v. vec_len v ≤ most_bytes) }
    ensures reads { ReadsFile (λ v. v.items) F.files F.faults shelf.old shelf.new which
        (text_in which name.now) result }
{
    match read_file(alloc, shelf, name) {
        Ok(bytes) => Ok(bytes),
        Err(fault) => Err(Refusal::of_file(which, fault)),
    }
}

// The netlist of a text in Verilog.
fn netlist_in(alloc: Global, library: &Library, bytes: Bytes) -> Result<Netlist, Refusal>
    requires { length bytes ≤ most_bytes }
    ensures comes { Comes (λ netlist. netlist) (HasVerilog library.now bytes) result }
    ensures over { IfOk result (IsOver library.now) }
{
    match read_verilog(alloc, &bytes, library) {
        Ok(netlist) => Ok(netlist),
        Err(VerilogFault::Line(line, kind)) => Err(Refusal::Verilog(line, kind)),
        Err(VerilogFault::Whole(fault)) => Err(of_netlist(fault)),
        Err(VerilogFault::Memory) => Err(Refusal::Memory),
    }
}

// The refusal of a netlist in Verilog for a fault that no line has.
fn of_netlist(fault: NetlistFault) -> Refusal
    ensures { result ≡ netlist_refusal fault }
{
    match fault {
        NetlistFault::Twice(name) => Refusal::Faulty(Which::Mapped, FileFault::Twice(name)),
        NetlistFault::Undriven(name) => Refusal::Faulty(Which::Mapped, FileFault::Undriven(name)),
        NetlistFault::Cycle(name) => Refusal::Faulty(Which::Mapped, FileFault::NetCycle(name)),
        NetlistFault::Memory => Refusal::Memory,
    }
}

/// The netlist of a file in Verilog, by the cells of a library.
pub(crate) fn read_netlist<F: Shelf>(
    alloc: Global,
    library: &Library,
    shelf: &mut F,
    name: &str,
) -> Result<Netlist, Refusal>
    ensures reads { ReadsFile (λ netlist. netlist) F.files F.faults shelf.old shelf.new which.Mapped
        (ReadsVerilog name.now library.now) result }
    ensures over { IfOk result (IsOver library.now) }
{
    let bytes = read_text(alloc, shelf, Which::Mapped, name)?;
    netlist_in(alloc, library, Bytes::new(bytes))
}

// How many values each vector has.
#[derive(Drop)]
struct Inputs(u32);

impl TakesLines<Inputs> for Vectors {
    ghost use Rattle.std.specs.Prelude.{◌≡◌};
    ghost use Rattle.lw_report.specs.Standing.{StandsFor, inputs_of};

    ghost given = { λ v over lines. (inputs_of v ≡ over.0) × StandsFor v lines };

    ghost accepts = { λ line. Unit {0} };

    // Takes the next line as a vector. A fault is kept until all lines are given.
    fn take_line(&mut self, _over: &Inputs, line: &Line) {
        // The vectors keep a fault, which `fault` reports when all lines are given.
        let _ = self.line(line);
    }
}

// The vectors of a text, each with a value for so many inputs.
fn vectors_in(alloc: Global, inputs: u32, bytes: &[u8]) -> Result<Vectors, Refusal>
    requires { length bytes.now ≤ most_bytes }
    ensures comes { Comes values_in (HasVectors inputs bytes.now) result }
    ensures kept { IfOk result (AreReadVectors inputs) }
{
    let mut vectors = Vectors::new(alloc, inputs);
    read_lines(alloc, bytes, false, &Inputs(inputs), &mut vectors)?;
    match vectors.fault() {
        None => Ok(vectors),
        Some(VectorFault::Line(line)) => Err(Refusal::Vector(line)),
        Some(VectorFault::Memory) => Err(Refusal::Memory),
    }
}

/// The vectors of a file, with so many values each.
pub(crate) fn read_vectors<F: Shelf>(
    alloc: Global,
    inputs: u32,
    shelf: &mut F,
    name: &str,
) -> Result<Vectors, Refusal>
    ensures reads { ReadsFile values_in F.files F.faults shelf.old shelf.new which.Vectors
        (ReadsVectors name.now inputs) result }
    ensures kept { IfOk result (AreReadVectors inputs) }
{
    let bytes = read_text(alloc, shelf, Which::Vectors, name)?;
    vectors_in(alloc, inputs, &bytes)
}
