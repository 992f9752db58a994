// The netlist of what lines say, with its frame, its starts and its certificate.
ghost use Rattle.std.specs.Prelude.{◌≡◌, ◌<◌, length, map, All, IfOk, IfErr, unwrap_or, codes};
ghost use Rattle.std.specs.Prelude.{slice_get, Some};
ghost use Rattle.std.specs.Str.{bytes_eq};
ghost use Rattle.indexmap.specs.IndexMap.{get};
ghost use Rattle.indexmap.specs.IndexSet.{index_set_len};
ghost use Rattle.lw_frame.specs.Frames.{input_names, root_names};
ghost use Rattle.lw_netlist.specs.declared.gate.Gate.{Gate as NetGate};
ghost use Rattle.lw_named_netlist.specs.Closing.{IsGateDraft};
ghost use Rattle.lw_netlist.specs.Plain.{IsOver};
ghost use Rattle.lw_mapped.specs.Texts.{net_name};
ghost use Rattle.lw_mapped.specs.Made.{IsMade, TellsWhole};

use crate::contents::Contents;
use crate::{Certificate, MappedFault, OptClasses, OptMicros};
use indexmap::{IndexMap, IndexSet};
use lw_fixed::Micros;
use lw_frame::add_roots;
use lw_genlib::Library;
use lw_named_netlist::{DraftGates, GateDraft, Wires, close};
use lw_netlist::{Gate, Netlist};
use lw_pool::{ClassId, Frame, Latch, Name, Names};
use std::alloc::{AllocError, Global};

/// What a mapped text holds: a netlist, what stands around it, when its inputs arrive, and its
/// certificate.
#[derive(Drop)]
pub struct Mapped {
    pub netlist: Netlist,
    pub frame: Frame,
    pub starts: Micros,
    pub cert: Certificate,
}

// The names of the inputs, and behind them those of the latches' outputs.
fn with_latch_outputs(alloc: Global, inputs: Names, latches: &[Latch]) -> Result<Names, AllocError>
    ensures { IfOk result (λ names. names ≡ input_names inputs latches.now) }
{
    let mut names = inputs;
    for latch in latches {
        names.push(Name::from_slice(alloc, latch.output.as_bytes())?)?;
    }
    Ok(names)
}

// The names of a set, in order.
fn names_of(alloc: Global, set: &IndexSet<Name>) -> Result<Names, AllocError>
    ensures { IfOk result (λ names. names ≡ set.now.keys) }
{
    let mut names = Names::new(alloc);
    for i in 0..set.len() {
        let name = name_at(set, i);
        names.push(Name::from_slice(alloc, name.as_bytes())?)?;
    }
    Ok(names)
}

fn name_at(set: &IndexSet<Name>, place: usize) -> &Name
    requires { place < index_set_len set.now }
    ensures { slice_get set.now.keys place ≡ Some result.now }
{
    set.get_index(place).unwrap()
}

// The name, or that of a model without one.
fn name_or_unnamed(alloc: Global, name: Option<Name>) -> Result<Name, AllocError>
    ensures { IfOk result (λ n. n ≡ unwrap_or name (codes "unnamed")) }
{
    match name {
        Some(name) => Ok(name),
        None => Name::from_slice(alloc, b"unnamed"),
    }
}

// The netlist by names.
fn draft_of(
    alloc: Global,
    model: Option<Name>,
    inputs: Names,
    outputs: &IndexSet<Name>,
    latches: &[Latch],
    gates: DraftGates,
    wires: Wires,
) -> Result<GateDraft, AllocError>
    ensures { IfOk result (λ draft. draft
        ≡ record {
          model = unwrap_or model (codes "unnamed");
          inputs = input_names inputs latches.now;
          outputs = outputs.now.keys;
          gates = gates;
          wires = wires;
        }) }
{
    let model = name_or_unnamed(alloc, model)?;
    let inputs = with_latch_outputs(alloc, inputs, latches)?;
    let outputs = names_of(alloc, outputs)?;
    Ok(GateDraft {
        model,
        inputs,
        outputs,
        gates,
        wires,
    })
}

// The draft of what lines say, with the names of what latches read behind those of the outputs,
// each name once.
fn rooted_draft(
    alloc: Global,
    model: Option<Name>,
    inputs: Names,
    outputs: IndexSet<Name>,
    latches: &[Latch],
    gates: DraftGates,
    wires: Wires,
) -> Result<GateDraft, AllocError>
    ensures { IfOk result (λ draft. draft
        ≡ record {
          model = unwrap_or model (codes "unnamed");
          inputs = input_names inputs latches.now;
          outputs = root_names outputs.keys latches.now;
          gates = gates;
          wires = wires;
        }) }
{
    let mut roots = outputs;
    // How many of the roots are outputs was counted before.
    let Ok(_own) = add_roots(alloc, &mut roots, latches) else {
        drop(roots);
        return Err(AllocError);
    };
    let draft = draft_of(alloc, model, inputs, &roots, latches, gates, wires);
    drop(roots);
    draft
}

// The class of a net, where it has one.
fn class_of(nets: &IndexMap<Name, ClassId>, name: &Name) -> Option<ClassId>
    ensures { result ≡ get bytes_eq nets.now name.now }
{
    nets.get(name).copied()
}

// The class of each gate that has one.
fn classes_of(
    alloc: Global,
    names: &[Name],
    gates: &[Gate],
    nets: &IndexMap<Name, ClassId>,
) -> Result<OptClasses, AllocError>
    requires { All (λ (gate : NetGate). gate.out.0 < length names.now) gates.now }
    ensures { IfOk result (λ classes. classes
        ≡ map (λ (gate : NetGate). get bytes_eq nets.now (net_name names.now gate.out)) gates.now) }
{
    let mut classes = Vec::with_capacity(alloc, gates.len())?;
    for gate in gates {
        classes.push(class_of(nets, &names[gate.out.0 as usize]))?;
    }
    Ok(OptClasses::from_vec(classes))
}

// Closes a netlist by names, with what stands around it.
fn closed(
    alloc: Global,
    lib: &Library,
    draft: GateDraft,
    frame: Frame,
    starts: Micros,
    labels: OptMicros,
    nets: &IndexMap<Name, ClassId>,
) -> Result<Mapped, MappedFault>
    requires { IsGateDraft lib.now draft }
    ensures made { IfOk result (λ mapped. IsMade draft frame starts labels
        (get bytes_eq nets.now) mapped) }
    ensures over { IfOk result (λ mapped. IsOver lib.now mapped.netlist) }
    ensures fault { IfErr result (TellsWhole draft) }
{
    let netlist = close(alloc, draft, lib)?;
    let Ok(nets) = classes_of(alloc, netlist.names(), netlist.gates(), nets) else {
        drop(netlist);
        return Err(MappedFault::Memory);
    };
    Ok(Mapped {
        netlist,
        frame,
        starts,
        cert: Certificate { labels, nets },
    })
}

impl Contents {
    ghost use Rattle.lw_mapped.specs.Closings.{AreStartsOf, IsClosingOf};
    ghost use Rattle.lw_mapped.specs.Keeping.{IsOfFew};

    // The starts of the inputs.
    fn starts(&self, alloc: Global) -> Result<Micros, AllocError>
        ensures { IfOk result (AreStartsOf self.now) }
    {
        self.arrivals
            .starts(alloc, self.inputs.as_slice(), self.latches.len())
    }

    /// The netlist of what lines say, or its fault.
    pub(crate) fn close(self, alloc: Global, lib: &Library) -> Result<Mapped, MappedFault>
        requires { IsOfFew self lib.now }
        ensures { IsClosingOf self lib.now result }
    {
        let Ok(starts) = self.starts(alloc) else {
            drop(self);
            return Err(MappedFault::Memory);
        };
        self.close_with(alloc, lib, starts)
    }

    // The netlist of what lines say, or its fault, given the starts of the inputs.
    fn close_with(self, alloc: Global, lib: &Library, starts: Micros) -> Result<Mapped, MappedFault>
        requires few { IsOfFew self lib.now }
        requires starts { AreStartsOf self starts }
        ensures { IsClosingOf self lib.now result }
    {
        let Contents {
            model,
            inputs,
            outputs,
            gates,
            wires,
            latches,
            arrivals,
            labels,
            nets,
        } = self;
        drop(arrivals);
        let frame = Frame {
            inputs: inputs.len() as u32,
            outputs: outputs.len() as u32,
            latches,
        };
        let read = frame.latches.as_slice();
        let Ok(draft) = rooted_draft(alloc, model, inputs, outputs, read, gates, wires) else {
            drop(nets);
            return Err(MappedFault::Memory);
        };
        let labels = OptMicros::from_vec(labels);
        let answer = closed(alloc, lib, draft, frame, starts, labels, &nets);
        drop(nets);
        answer
    }
}
