// What a command comes to when its library, model and netlist are read.
ghost use Rattle.std.specs.Prelude.{IfSome};
ghost use Rattle.lw_blif.specs.BlifNetworks.{IsModel};
ghost use Rattle.lw_genlib.specs.Cells.{IsSmall};
ghost use Rattle.lw_files.specs.Read.{IsReadNetlist};
ghost use Rattle.lw_map.specs.Options.{plain_options};
ghost use Rattle.lw_map.specs.Tabled.{AreLeaves};
ghost use Rattle.lw_top.specs.Answered.{Gives};
ghost use Rattle.lw_top.specs.Checks.{Checks};
ghost use Rattle.lw_top.specs.Counts.{Counts, Draws};
ghost use Rattle.lw_top.specs.Maps.{Maps};
ghost use Rattle.lw_top.specs.Tables.{Tabulates};
ghost use Rattle.lw_top.specs.Trades.{Trades};
ghost use Rattle.lw_top.specs.Words.{IsCount};

use crate::answer::{Answer, Answered};
use crate::refusal::Refusal;
use lw_blif::Parsed;
use lw_fixed::Micro;
use lw_genlib::Library;
use lw_map::{Options, Verdict, big, check, graph, lut, map, trade};
use lw_mapped::Mapped;
use std::alloc::Global;

/// What a library and a model come to: the mapped netlist with what stands around it, or why there
/// is none.
pub(crate) fn map_model(
    alloc: Global,
    library: Library,
    model: Parsed,
    options: Options,
    certified: bool,
) -> Answered
    requires { IsModel model }
    ensures { Gives (Maps (plain_options options) certified library model) result }
{
    match map(alloc, &library, &model, options, certified) {
        Ok(mapped) => {
            drop(model.network);
            Ok(Answer::Mapping(
                library,
                mapped.netlist,
                model.frame,
                model.starts,
                mapped.certificate,
            ))
        }
        Err(fault) => {
            drop(library);
            drop(model);
            Err(Refusal::of_map(fault))
        }
    }
}

/// What a library and a model come to by a deadline, or without one: the netlist of least area with
/// what stands around it, or why there is none.
pub(crate) fn trade_model(
    alloc: Global,
    library: Library,
    model: Parsed,
    options: Options,
    deadline: Option<Micro>,
) -> Answered
    requires late { IfSome deadline IsSmall }
    requires model { IsModel model }
    ensures { Gives (Trades deadline (plain_options options) library model) result }
{
    match trade(alloc, &library, &model, options, deadline) {
        Ok(netlist) => {
            drop(model.network);
            Ok(Answer::Mapping(library, netlist, model.frame, model.starts, None))
        }
        Err(fault) => {
            drop(library);
            drop(model);
            Err(Refusal::of_map(fault))
        }
    }
}

/// What a model comes to in lookup tables of at most `leaves` fan-ins, or why there are none.
pub(crate) fn table_model(alloc: Global, model: Parsed, options: Options, leaves: u8) -> Answered
    requires leaves { AreLeaves leaves }
    requires model { IsModel model }
    ensures { Gives (Tabulates leaves (plain_options options) model) result }
{
    match lut(alloc, &model, options, leaves) {
        Ok(net) => {
            drop(model.network);
            Ok(Answer::Tables(net, model.frame))
        }
        Err(fault) => {
            drop(model);
            Err(Refusal::of_map(fault))
        }
    }
}

/// What a check of a mapped netlist comes to: `Yes`, or a refusal with the reason against it.
pub(crate) fn check_mapped(
    alloc: Global,
    library: &Library,
    model: &Parsed,
    mapped: &Mapped,
    options: Options,
) -> Answered
    requires model { IsModel model.now }
    requires mapped { IsReadNetlist library.now mapped.now }
    ensures { Gives (Checks (plain_options options) library.now model.now mapped.now) result }
{
    let verdict = match check(alloc, library, model, mapped, options) {
        Ok(verdict) => verdict,
        Err(fault) => return Err(Refusal::of_map(fault)),
    };
    match verdict {
        Verdict::Yes => Ok(Answer::Yes),
        Verdict::No(reason) => Err(Refusal::No(reason)),
    }
}

/// The counts of a network's graph, or why there are none.
pub(crate) fn count_model(alloc: Global, model: &Parsed, options: Options) -> Answered
    ensures { Gives (Counts (plain_options options) model.now) result }
{
    match graph(alloc, &model.network, options) {
        Ok(counts) => Ok(Answer::Counts(counts)),
        Err(fault) => Err(Refusal::of_map(fault)),
    }
}

/// The sizes of a network of `count` nodes that is drawn from `seed` and mapped to cells of the
/// library, or why there are none.
pub(crate) fn draw(alloc: Global, library: &Library, seed: u64, count: u32) -> Answered
    requires { IsCount count }
    ensures { Gives (Draws seed count library.now) result }
{
    match big(alloc, library, seed, count) {
        Ok(sizes) => Ok(Answer::Sizes(sizes)),
        Err(fault) => Err(Refusal::of_map(fault)),
    }
}
