// What is counted of a network's graph, and of a network that is drawn from a number.
ghost use Rattle.std.specs.Prelude.{◌≡◌, ◌≤◌, IfErr, IfOk};
ghost use Rattle.std.specs.List.{IsDistinct};
ghost use Rattle.std.specs.Str.{bytes_eq};
ghost use Rattle.lw_net.specs.Networks.{output_names};
ghost use Rattle.lw_big.specs.Generated.{most_nodes};
ghost use Rattle.lw_map.specs.Counts.{AreCounts, AreSizes, HasSizes, IsDrawingFault, at_once};
ghost use Rattle.lw_map.specs.Counts.{drawing_options, pair_total};
ghost use Rattle.lw_map.specs.Faults.{IsChoiceFault, IsMapFault};
ghost use Rattle.lw_map.specs.Options.{plain_options};

use crate::labelling::Labeller;
use crate::{MapFault, Options, cover, decompose};
use lw_assoc::Mode;
use lw_big::generate;
use lw_fixed::{Micro, Micros};
use lw_genlib::Library;
use lw_graph::Graph;
use lw_net::Network;
use lw_pool::ClassId;
use lw_report::Timing;
use std::alloc::{AllocError, Global};

/// The size of the graph of a network's forms: how many base forms occur, how many classes there
/// are, and how many NAND pairs these hold together.
#[derive(Clone, Copy)]
pub struct Counts {
    pub forms: u32,
    pub classes: u32,
    pub pairs: u128,
}

/// The sizes of a network that was drawn and mapped: its nodes, the classes of its graph, the gates
/// of its netlist, and the greatest arrival. It has how often stored matches were read, if they
/// were not too many to store.
#[derive(Clone, Copy)]
pub struct Sizes {
    pub nodes: u32,
    pub classes: u32,
    pub gates: u32,
    pub latest: Micro,
    pub steps: Option<u64>,
}

// How many pairs the classes of a graph hold together.
fn pair_total(graph: &Graph) -> u128
    ensures { result ≡ pair_total graph.now }
{
    let mut total = 0;
    for class in 0..graph.classes() {
        total += graph.nands(ClassId(class)).len() as u128;
    }
    total
}

/// The counts of a network's graph. `Forms` and `Splits` come exactly where there are more than are
/// dealt with.
pub fn graph(alloc: Global, net: &Network, options: Options) -> Result<Counts, MapFault>
    ensures counts { IfOk result (AreCounts (plain_options options) net.now) }
    ensures fault { IfErr result (IsChoiceFault (plain_options options) net.now) }
{
    let choices = decompose(alloc, net, options)?;
    let classes = choices.graph.classes();
    let pairs = pair_total(&choices.graph);
    Ok(Counts {
        forms: choices.forms,
        classes,
        pairs,
    })
}

/// A start of 0 for each of so many inputs.
pub fn all_at_once(alloc: Global, inputs: u32) -> Result<Micros, AllocError>
    ensures { IfOk result (λ starts. starts ≡ at_once inputs) }
{
    Ok(Micros::from_vec(vec![in alloc; Micro(0); inputs as usize]?))
}

// The sizes of a drawn network of `count` nodes that is mapped to the cells of a library, by stored
// matches and with all inputs at 0.
fn map_drawn(alloc: Global, lib: &Library, net: &Network, count: u32) -> Result<Sizes, MapFault>
    requires { IsDistinct bytes_eq (output_names net.now) }
    ensures sizes { IfOk result (AreSizes count lib.now net.now) }
    ensures fault { IfErr result (IsMapFault drawing_options lib.now net.now
        (at_once net.now.inputs)) }
{
    let starts = all_at_once(alloc, net.inputs())?;
    let options = Options {
        width: WIDTH,
        mode: Mode::Plain,
    };
    let choices = decompose(alloc, net, options)?;
    let classes = choices.graph.classes();
    let mapping = cover(alloc, lib, net, &starts, &choices, Labeller::Store);
    drop(choices);
    let mapping = mapping?;
    let timing = Timing::new(alloc, &mapping.netlist, lib, &starts);
    let gates = mapping.netlist.gates().len() as u32;
    let steps = mapping.steps;
    drop(mapping);
    let timing = timing?;
    let latest = timing.latest();
    Ok(Sizes {
        nodes: count,
        classes,
        gates,
        latest,
        steps,
    })
}

/// The sizes of the network of so many nodes that is drawn from a seed and mapped to the cells of a
/// library. `Forms`, `Splits` and `NoCover` come exactly where its mapping is refused so.
pub fn big(alloc: Global, lib: &Library, seed: u64, count: u32) -> Result<Sizes, MapFault>
    requires { count ≤ most_nodes }
    ensures sizes { IfOk result (HasSizes seed count lib.now) }
    ensures fault { IfErr result (IsDrawingFault seed count lib.now) }
{
    let net = generate(alloc, seed, count)?;
    map_drawn(alloc, lib, &net, count)
}

/// The width at which a drawn network is decomposed.
const WIDTH: u8 = 6;
