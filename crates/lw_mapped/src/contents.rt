// What lines say together, as far as they were read.
ghost use Rattle.std.specs.Prelude.{◌≡◌, ◌==◌, ◌<◌, ◌≤◌, ◌++◌, [], ℕ, List, None, Some, max};
ghost use Rattle.std.specs.Prelude.{is_some, length, slice_index_or, OnOk, if◌then◌else◌};
ghost use Rattle.std.specs.Str.{bytes_eq};
ghost use Rattle.indexmap.specs.IndexMap.{get};
ghost use Rattle.indexmap.specs.IndexSet.{insert_all};
ghost use Rattle.lw_laws.specs.Graphs.{most_classes};

use crate::{MappedKind, Refusal, Saying};
use indexmap::{IndexMap, IndexSet};
use lw_fixed::Micro;
use lw_frame::Arrivals;
use lw_named_netlist::{DraftGates, Wires};
use lw_pool::{ClassId, Latches, Name, Names};
use std::alloc::{AllocError, Global};

/// What lines say together, as far as they were read.
#[derive(Drop)]
pub struct Contents {
    pub(crate) model: Option<Name>,
    pub(crate) inputs: Names,
    pub(crate) outputs: IndexSet<Name>,
    pub(crate) gates: DraftGates,
    pub(crate) wires: Wires,
    pub(crate) latches: Latches,
    pub(crate) arrivals: Arrivals,
    // By class.
    pub(crate) labels: Vec<Option<Micro>>,
    pub(crate) nets: IndexMap<Name, ClassId>,
}

impl Contents {
    ghost use Rattle.lw_mapped.specs.declared.saying.Saying.{Saying};
    ghost use Rattle.lw_mapped.specs.Parsed.{TellsFault, IsFit, IsLabel};
    ghost use Rattle.lw_mapped.specs.LineFaults.{told_fault, MaySayAgain};
    ghost use Rattle.lw_mapped.specs.Keeping.{Keeps, Takes};
    ghost use Rattle.lw_mapped.specs.declared.fault.MappedKind.{MappedKind};

    /// Nothing was read yet.
    pub fn new(alloc: Global) -> Self
        ensures { Keeps result [] }
    {
        Contents {
            model: None,
            inputs: Names::new(alloc),
            outputs: IndexSet::new(alloc),
            gates: DraftGates::new(alloc),
            wires: Wires::new(alloc),
            latches: Latches::new(alloc),
            arrivals: Arrivals::new(alloc),
            labels: Vec::new(alloc),
            nets: IndexMap::new(alloc),
        }
    }

    /// Takes what a line says. What may be said only once and was said before is a fault.
    pub fn take(&mut self, saying: Saying) -> Result<(), Refusal>
        requires { IsFit saying }
        ensures fault { (before : List Saying) → Keeps self.old before →
            TellsFault result (told_fault before saying) }
        ensures takes { OnOk result (Takes self.old saying self.new) }
    {
        match saying {
            Saying::Label(class, label) => self.take_label(class, label),
            Saying::Net(name, class) => self.take_net(name, class),
            saying => Ok(self.add(saying)?),
        }
    }

    // Takes what a line says that may be said again.
    fn add(&mut self, saying: Saying) -> Result<(), AllocError>
        requires { IsFit saying }
        ensures { OnOk result (MaySayAgain saying → Takes self.old saying self.new) }
    {
        match saying {
            Saying::Gate(gate) => self.gates.push_spelled(gate),
            Saying::Wire(wire) => self.wires.push(wire),
            Saying::Inputs(names) => append(&mut self.inputs, names),
            Saying::Outputs(names) => add_all(&mut self.outputs, names),
            Saying::Latch(latch) => self.latches.push(latch),
            Saying::Arrival(name, start) => self.arrivals.set(name, start),
            Saying::DefaultArrival(start) => Ok(self.arrivals.set_every(start)),
            Saying::Model(name) => Ok(self.take_model(name)),
            Saying::Label(..) | Saying::Net(..) | Saying::Nothing => Ok(()),
        }
    }

    // Takes the name of the first model.
    fn take_model(&mut self, name: Name)
        ensures { Takes self.old (Saying.Model name) self.new }
    {
        if self.model.is_none() {
            self.model = Some(name);
        }
    }

    // Takes the label of a class that has none.
    fn take_label(&mut self, class: ClassId, label: Micro) -> Result<(), Refusal>
        requires few { class.0 < most_classes }
        requires low { IsLabel label }
        ensures fault { TellsFault result
            (if is_some (slice_index_or self.old.labels.items class.0 None) then Some
            MappedKind.Certificate else None) }
        ensures keeps { OnOk result (Takes self.old (Saying.Label class label) self.new) }
    {
        if label_at(&self.labels, class.0 as usize).is_some() {
            return Err(Refusal::Broken(MappedKind::Certificate));
        }
        set_label(&mut self.labels, class.0 as usize, label)?;
        Ok(())
    }

    // Takes the class of a net that has none.
    fn take_net(&mut self, name: Name, class: ClassId) -> Result<(), Refusal>
        ensures fault { TellsFault result
            (if is_some (get bytes_eq self.old.nets name) then Some MappedKind.Certificate else
            None) }
        ensures keeps { OnOk result (Takes self.old (Saying.Net name class) self.new) }
    {
        if self.nets.contains_key(&name) {
            return Err(Refusal::Broken(MappedKind::Certificate));
        }
        let Ok(_) = self.nets.insert(name, class) else {
            return Err(Refusal::Memory);
        };
        Ok(())
    }
}

// Appends names.
fn append(names: &mut Names, more: Names) -> Result<(), AllocError>
    ensures { OnOk result (names.new ≡ names.old ++ more) }
{
    let mut left = more.into_vec().into_iter();
    'names: while let Some(name) = left.next() {
        names.push(name)?;
    }
    Ok(())
}

// Adds the names that are not there.
fn add_all(names: &mut IndexSet<Name>, more: Names) -> Result<(), AllocError>
    ensures { OnOk result (names.new.keys ≡ insert_all bytes_eq names.old.keys more) }
{
    let mut left = more.into_vec().into_iter();
    'names: while let Some(name) = left.next() {
        names.insert(name)?;
    }
    Ok(())
}

fn label_at(labels: &[Option<Micro>], class: usize) -> Option<Micro>
    ensures { result ≡ slice_index_or labels.now class None }
{
    if class < labels.len() {
        return labels[class];
    }
    None
}

// Fills up with classes without labels.
fn grow(labels: &mut Vec<Option<Micro>>, count: usize) -> Result<(), AllocError>
    ensures same { OnOk result ((c : ℕ) →
        slice_index_or labels.new.items c None ≡ slice_index_or labels.old.items c None) }
    ensures count { OnOk result (length labels.new.items ≡ max (length labels.old.items) count) }
{
    while labels.len() < count {
        labels.push(None)?;
    }
    Ok(())
}

// Sets the label of a class.
fn set_label(labels: &mut Vec<Option<Micro>>, class: usize, label: Micro) -> Result<(), AllocError>
    requires { class < most_classes }
    ensures labels { OnOk result ((c : ℕ) →
        slice_index_or labels.new.items c None
        ≡ (if c == class then Some label else slice_index_or labels.old.items c None)) }
    ensures count { OnOk result
        (length labels.new.items ≤ max (length labels.old.items) most_classes) }
{
    grow(labels, class + 1)?;
    labels[class] = Some(label);
    Ok(())
}
