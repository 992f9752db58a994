// From a command to its answer.
ghost use Rattle.std.specs.Prelude.{IfSome};
ghost use Rattle.lw_genlib.specs.Cells.{IsSmall};
ghost use Rattle.lw_top.specs.Words.{IsInRange, IsCount, mapping, checking, timing, simulation};
ghost use Rattle.lw_top.specs.Words.{gate_simulation, counting, tabling, drawing, to_verilog};
ghost use Rattle.lw_top.specs.Words.{from_verilog, trading};
ghost use Rattle.lw_top.specs.Commands.{plain_command};
ghost use Rattle.lw_top.specs.Answered.{Responds};
ghost use Rattle.lw_map.specs.Options.{plain_options};
ghost use Rattle.lw_map.specs.Tabled.{AreLeaves};

use crate::answering::{check_mapped, count_model, draw, map_model, table_model, trade_model};
use crate::refusal::Refusal;
use crate::reports::{simulate, simulate_gates, time_mapped};
use crate::sources::{read_library, read_mapped, read_model, read_netlist, read_vectors};
use crate::verilog::{map_verilog, say_verilog};
use crate::words::Command;
use lw_fixed::{Micro, Micros};
use lw_genlib::Library;
use lw_io::Shelf;
use lw_lut::TableNet;
use lw_map::{Counts, Options, Sizes};
use lw_mapped::Certificate;
use lw_net::Network;
use lw_netlist::Netlist;
use lw_pool::Frame;
use lw_report::{Sim, Timing, Vectors};
use std::alloc::Global;

/// What a command comes to, ready to be written.
#[derive(Drop)]
pub enum Answer {
    /// A library, the netlist of its cells to which a network is mapped, what stands around it, and
    /// its certificate.
    Mapping(Library, Netlist, Frame, Micros, Option<Certificate>),
    Yes,
    /// A library, and a netlist of its cells, for its text in Verilog.
    Verilog(Library, Netlist),
    /// A library, a netlist of its cells, and the netlist's timing.
    Times(Library, Netlist, Timing),
    /// A network, vectors for its inputs, and a simulator of it.
    Values(Network, Vectors, Sim),
    /// A library, a netlist of its cells, vectors for its inputs, and a simulator of it.
    GateValues(Library, Netlist, Vectors, Sim),
    /// A network of lookup tables, and what stands around it.
    Tables(TableNet, Frame),
    /// The size of a network's graph.
    Counts(Counts),
    /// The sizes of a network that was drawn and mapped.
    Sizes(Sizes),
}

/// The answer to a command, or why there is none.
pub type Answered = Result<Answer, Refusal>;

// The answer of `map`: a library and a network are read, and the network is mapped, with a
// certificate if `certified`.
fn map_files<F: Shelf>(
    alloc: Global,
    options: Options,
    certified: bool,
    library: &str,
    network: &str,
    shelf: &mut F,
) -> Answered
    ensures { Responds F.files F.faults shelf.old shelf.new
        (mapping (plain_options options) certified library.now network.now) result }
{
    let library = read_library(alloc, shelf, library)?;
    let model = read_model(alloc, shelf, network)?;
    map_model(alloc, library, model, options, certified)
}

// The answer of `check`: a library, a network and a mapped netlist are read in this order, and the
// netlist is checked.
fn check_files<F: Shelf>(
    alloc: Global,
    options: Options,
    library: &str,
    network: &str,
    mapped: &str,
    shelf: &mut F,
) -> Answered
    ensures { Responds F.files F.faults shelf.old shelf.new
        (checking (plain_options options) library.now network.now mapped.now) result }
{
    let library = read_library(alloc, shelf, library)?;
    let model = match read_model(alloc, shelf, network) {
        Ok(model) => model,
        Err(refusal) => {
            drop(library);
            return Err(refusal);
        }
    };
    let mapped = match read_mapped(alloc, &library, shelf, mapped) {
        Ok(mapped) => mapped,
        Err(refusal) => {
            drop(library);
            drop(model);
            return Err(refusal);
        }
    };
    let answer = check_mapped(alloc, &library, &model, &mapped, options);
    drop(library);
    drop(model);
    drop(mapped);
    answer
}

// The answer of `time`: a library and a mapped netlist are read, and the netlist is timed.
fn time_files<F: Shelf>(alloc: Global, library: &str, mapped: &str, shelf: &mut F) -> Answered
    ensures { Responds F.files F.faults shelf.old shelf.new (timing library.now mapped.now) result }
{
    let library = read_library(alloc, shelf, library)?;
    let mapped = read_mapped(alloc, &library, shelf, mapped)?;
    time_mapped(alloc, library, mapped)
}

// The answer of `sim`: a network and vectors for its inputs are read, and a simulator is made.
fn simulate_files<F: Shelf>(alloc: Global, network: &str, vectors: &str, shelf: &mut F) -> Answered
    ensures { Responds F.files F.faults shelf.old shelf.new
        (simulation network.now vectors.now) result }
{
    let model = read_model(alloc, shelf, network)?;
    let vectors = read_vectors(alloc, model.network.inputs(), shelf, vectors)?;
    simulate(alloc, model, vectors)
}

// The answer of `sim -g`: a library, a mapped netlist and vectors for its inputs are read, and a
// simulator is made.
fn simulate_gate_files<F: Shelf>(
    alloc: Global,
    library: &str,
    mapped: &str,
    vectors: &str,
    shelf: &mut F,
) -> Answered
    ensures { Responds F.files F.faults shelf.old shelf.new
        (gate_simulation library.now mapped.now vectors.now) result }
{
    let library = read_library(alloc, shelf, library)?;
    let mapped = match read_mapped(alloc, &library, shelf, mapped) {
        Ok(mapped) => mapped,
        Err(refusal) => {
            drop(library);
            return Err(refusal);
        }
    };
    match read_vectors(alloc, mapped.netlist.inputs(), shelf, vectors) {
        Ok(vectors) => simulate_gates(alloc, library, mapped, vectors),
        Err(refusal) => {
            drop(library);
            drop(mapped);
            Err(refusal)
        }
    }
}

// The answer of `graph`: a network is read, and the graph of its forms is counted.
fn count_files<F: Shelf>(alloc: Global, options: Options, network: &str, shelf: &mut F) -> Answered
    ensures { Responds F.files F.faults shelf.old shelf.new
        (counting (plain_options options) network.now) result }
{
    let model = read_model(alloc, shelf, network)?;
    count_model(alloc, &model, options)
}

// The answer of `lut`: a network is read and covered by tables of at most `leaves` fan-ins.
fn table_files<F: Shelf>(
    alloc: Global,
    leaves: u8,
    options: Options,
    network: &str,
    shelf: &mut F,
) -> Answered
    requires { AreLeaves leaves }
    ensures { Responds F.files F.faults shelf.old shelf.new
        (tabling leaves (plain_options options) network.now) result }
{
    let model = read_model(alloc, shelf, network)?;
    table_model(alloc, model, options, leaves)
}

// The answer of `big`: a library is read, and a network of `count` nodes, drawn from `seed`, is
// mapped to its cells.
fn draw_files<F: Shelf>(
    alloc: Global,
    seed: u64,
    count: u32,
    library: &str,
    shelf: &mut F,
) -> Answered
    requires { IsCount count }
    ensures { Responds F.files F.faults shelf.old shelf.new
        (drawing seed count library.now) result }
{
    let library = read_library(alloc, shelf, library)?;
    draw(alloc, &library, seed, count)
}

// The answer of `verilog`: a library and a mapped netlist are read, for a text in Verilog.
fn to_verilog_files<F: Shelf>(alloc: Global, library: &str, mapped: &str, shelf: &mut F) -> Answered
    ensures { Responds F.files F.faults shelf.old shelf.new
        (to_verilog library.now mapped.now) result }
{
    let library = read_library(alloc, shelf, library)?;
    let mapped = read_mapped(alloc, &library, shelf, mapped)?;
    say_verilog(alloc, library, mapped)
}

// The answer of `unverilog`: a library and a netlist in Verilog are read, for a mapped text.
fn from_verilog_files<F: Shelf>(
    alloc: Global,
    library: &str,
    verilog: &str,
    shelf: &mut F,
) -> Answered
    ensures { Responds F.files F.faults shelf.old shelf.new
        (from_verilog library.now verilog.now) result }
{
    let library = read_library(alloc, shelf, library)?;
    let netlist = read_netlist(alloc, &library, shelf, verilog)?;
    map_verilog(alloc, library, netlist)
}

// The answer of `trade`: a library and a network are read, and the network is mapped with the least
// area by a deadline, or of all without one.
fn trade_files<F: Shelf>(
    alloc: Global,
    deadline: Option<Micro>,
    options: Options,
    library: &str,
    network: &str,
    shelf: &mut F,
) -> Answered
    requires { IfSome deadline IsSmall }
    ensures { Responds F.files F.faults shelf.old shelf.new
        (trading deadline (plain_options options) library.now network.now) result }
{
    let library = read_library(alloc, shelf, library)?;
    let model = read_model(alloc, shelf, network)?;
    trade_model(alloc, library, model, options, deadline)
}

/// What a command comes to, or why there is no answer.
pub fn respond<F: Shelf>(alloc: Global, command: Command<'_>, shelf: &mut F) -> Answered
    requires { IsInRange (plain_command command) }
    ensures { Responds F.files F.faults shelf.old shelf.new (plain_command command.entry) result }
{
    match command {
        Command::Mapping(options, certified, library, network) => {
            map_files(alloc, options, certified, library, network, shelf)
        }
        Command::Checking(options, library, network, mapped) => {
            check_files(alloc, options, library, network, mapped, shelf)
        }
        Command::Timing(library, mapped) => time_files(alloc, library, mapped, shelf),
        Command::Simulation(network, vectors) => simulate_files(alloc, network, vectors, shelf),
        Command::GateSimulation(library, mapped, vectors) => {
            simulate_gate_files(alloc, library, mapped, vectors, shelf)
        }
        Command::Counting(options, network) => count_files(alloc, options, network, shelf),
        Command::Tabling(leaves, options, network) => {
            table_files(alloc, leaves, options, network, shelf)
        }
        Command::Drawing(seed, count, library) => draw_files(alloc, seed, count, library, shelf),
        Command::ToVerilog(library, mapped) => to_verilog_files(alloc, library, mapped, shelf),
        Command::FromVerilog(library, verilog) => {
            from_verilog_files(alloc, library, verilog, shelf)
        }
        Command::Trading(deadline, options, library, network) => {
            trade_files(alloc, deadline, options, library, network, shelf)
        }
    }
}
