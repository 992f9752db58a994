ghost use Rattle.std.specs.Prelude.{◌≡◌, ◌+◌, ◌<◌, ◌≤◌, ◌^◌, ◌++◌, ℕ, All, IfOk, OnOk, length};
ghost use Rattle.lw_laws.specs.Names.{free_names, gate_names, net_names, output_name};
ghost use Rattle.lw_naming.specs.Naming.{still_free, HasFree, IsGivenOrFree};
ghost use Rattle.lw_pool.specs.Numbers.{numbers};

use crate::free_names::FreeNames;
use crate::owners::Owners;
use lw_pool::{ClassId, Name, Names};
use std::alloc::{AllocError, Global};

// The name of the gate of a class: that of the class's first output, or else the next free name.
fn gate_name(
    alloc: Global,
    owners: &Owners<'_>,
    free: &mut FreeNames,
    class: ClassId,
) -> Result<Name, AllocError>
    requires { HasFree free.old 1 }
    ensures { IfOk result (λ name. IsGivenOrFree
        (output_name owners.now.outputs.now (numbers owners.now.roots.now) class.0)
        free.old name free.new) }
{
    match owners.name(class) {
        Some(name) => Name::from_slice(alloc, name.as_bytes()),
        None => free.next_name(),
    }
}

// Appends the names of gates.
fn push_each(
    alloc: Global,
    names: &mut Vec<Name>,
    owners: &Owners<'_>,
    free: &mut FreeNames,
    gates: &[ClassId],
) -> Result<(), AllocError>
    requires { HasFree free.old (length gates.now) }
    ensures { OnOk result ((last : ℕ) → length gates.now ≤ length (still_free free.old last) →
        names.new.items ≡ names.old.items
        ++ gate_names owners.now.outputs.now (numbers owners.now.roots.now)
        (still_free free.old last) (numbers gates.now)) }
{
    for gate in gates {
        names.push(gate_name(alloc, owners, free, *gate)?)?;
    }
    Ok(())
}

// Appends the names of gates, by the names of the inputs and of the outputs.
fn push_gate_names(
    alloc: Global,
    names: &mut Vec<Name>,
    inputs: &Names,
    outputs: &Names,
    roots: &[ClassId],
    classes: usize,
    gates: &[ClassId],
) -> Result<(), AllocError>
    requires few { length inputs.now + length outputs.now + length gates.now < 2 ^ 63 }
    requires few_outputs { length outputs.now < 2 ^ 32 }
    requires one_root { length roots.now ≡ length outputs.now }
    requires roots { All (λ root. root.0 < classes) roots.now }
    ensures { OnOk result (names.new.items ≡ names.old.items
        ++ gate_names outputs.now (numbers roots.now)
        (free_names (inputs.now ++ outputs.now) (length gates.now)) (numbers gates.now)) }
{
    let owners = Owners::of(alloc, classes, outputs, roots)?;
    let mut free = FreeNames::new(alloc, inputs, outputs)?;
    push_each(alloc, names, &owners, &mut free, gates)?;
    Ok(())
}

// Appends copies of names.
fn push_copies(alloc: Global, names: &mut Vec<Name>, others: &[Name]) -> Result<(), AllocError>
    ensures { OnOk result (names.new.items ≡ names.old.items ++ others.now) }
{
    for name in others {
        names.push(Name::from_slice(alloc, name.as_bytes())?)?;
    }
    Ok(())
}

/// The names of gates, by their classes: that of the first output of the class, or else the next of
/// n1, n2 and so on that no input and no output has. Classes are numbers below `classes`, and
/// `roots` has that of each output.
pub fn gate_names(
    alloc: Global,
    inputs: &Names,
    outputs: &Names,
    roots: &[ClassId],
    classes: usize,
    gates: &[ClassId],
) -> Result<Names, AllocError>
    requires few { length inputs.now + length outputs.now + length gates.now < 2 ^ 63 }
    requires few_outputs { length outputs.now < 2 ^ 32 }
    requires one_root { length roots.now ≡ length outputs.now }
    requires roots { All (λ root. root.0 < classes) roots.now }
    requires gates { All (λ gate. gate.0 < classes) gates.now }
    ensures { IfOk result (λ names. names ≡ gate_names outputs.now (numbers roots.now)
        (free_names (inputs.now ++ outputs.now) (length gates.now)) (numbers gates.now)) }
{
    let mut names = Vec::with_capacity(alloc, gates.len())?;
    push_gate_names(alloc, &mut names, inputs, outputs, roots, classes, gates)?;
    Ok(Names::from_vec(names))
}

/// The names of all nets of a netlist: the inputs' names, and then the gates' names.
pub fn net_names(
    alloc: Global,
    inputs: &Names,
    outputs: &Names,
    roots: &[ClassId],
    classes: usize,
    gates: &[ClassId],
) -> Result<Names, AllocError>
    requires few { length inputs.now + length outputs.now + length gates.now < 2 ^ 63 }
    requires few_outputs { length outputs.now < 2 ^ 32 }
    requires one_root { length roots.now ≡ length outputs.now }
    requires roots { All (λ root. root.0 < classes) roots.now }
    requires gates { All (λ gate. gate.0 < classes) gates.now }
    ensures { IfOk result (λ names. names
        ≡ net_names inputs.now outputs.now (numbers roots.now) (numbers gates.now)) }
{
    let mut names = Vec::with_capacity(alloc, inputs.len() + gates.len())?;
    push_copies(alloc, &mut names, inputs.as_slice())?;
    push_gate_names(alloc, &mut names, inputs, outputs, roots, classes, gates)?;
    Ok(Names::from_vec(names))
}
