// The draft of what lines say.
ghost use Rattle.std.specs.Prelude.{◌≡◌, ◌+◌, ◌++◌, IfOk, OnOk, length, option_to_list, unwrap_or};
ghost use Rattle.std.specs.Prelude.{codes};
ghost use Rattle.lw_frame.specs.Frames.{input_names, root_names};
ghost use Rattle.std.specs.List.{IsDistinct};
ghost use Rattle.std.specs.Str.{bytes_eq};

use indexmap::IndexSet;
use lw_fixed::Micros;
use lw_frame::add_roots;
use lw_net::{Draft, DraftNode, DraftNodes};
use lw_pool::{Frame, Latch, Latches, Name, Names};
use std::alloc::{AllocError, Global};

/// What lines say: the combinational part, its frame, and the starts of its inputs.
#[derive(Drop)]
pub struct Said {
    pub draft: Draft,
    pub frame: Frame,
    pub starts: Micros,
}

// The names of a set, in order.
fn names_of(alloc: Global, set: &IndexSet<Name>) -> Result<Names, AllocError>
    ensures { IfOk result (λ names. names ≡ set.now.keys) }
{
    let mut names = Names::new(alloc);
    for i in 0..set.len() {
        let name = set.get_index(i).unwrap();
        names.push(Name::from_slice(alloc, name.as_bytes())?)?;
    }
    Ok(names)
}

// The name, or that of a model without one.
fn name_or_unnamed(alloc: Global, name: Option<Name>) -> Result<Name, AllocError>
    ensures { IfOk result (λ n. n ≡ unwrap_or name (codes "unnamed")) }
{
    match name {
        Some(name) => Ok(name),
        None => Name::from_slice(alloc, b"unnamed"),
    }
}

/// The nodes, and one more where there is one.
pub fn with_last(nodes: DraftNodes, node: Option<DraftNode>) -> Result<DraftNodes, AllocError>
    ensures { IfOk result (λ all. all ≡ nodes ++ option_to_list node) }
{
    let mut nodes = nodes;
    if let Some(node) = node {
        nodes.push(node)?;
    }
    Ok(nodes)
}

// The names of inputs, and those of the outputs of latches.
fn with_outputs(alloc: Global, inputs: Names, latches: &[Latch]) -> Result<Names, AllocError>
    ensures { IfOk result (λ names. names ≡ input_names inputs latches.now) }
{
    let mut names = inputs;
    for latch in latches {
        names.push(Name::from_slice(alloc, latch.output.as_bytes())?)?;
    }
    Ok(names)
}

// A count of names. More than there is room for count as out of memory.
fn count(names: usize) -> Result<u32, AllocError>
    ensures { IfOk result (λ n. n ≡ names) }
{
    match u32::try_from(names) {
        Ok(count) => Ok(count),
        Err(_) => Err(AllocError),
    }
}

/// How many inputs and outputs a circuit has.
#[derive(Clone, Copy)]
pub struct Counts {
    pub inputs: u32,
    pub outputs: u32,
}

/// Makes the names of the outputs those of the roots: behind them come what the latches read. It
/// counts the inputs, and the outputs that there were.
pub fn add_and_count(
    alloc: Global,
    inputs: &Names,
    names: &mut IndexSet<Name>,
    latches: &Latches,
) -> Result<Counts, AllocError>
    ensures inputs { IfOk result (λ r. r.inputs ≡ length inputs.now) }
    ensures outputs { IfOk result (λ r. r.outputs ≡ length names.old.keys) }
    ensures roots { OnOk result (names.new.keys ≡ root_names names.old.keys latches.now) }
    ensures differ { OnOk result (IsDistinct bytes_eq names.old.keys) }
{
    let outputs = add_roots(alloc, names, latches.as_slice())?;
    Ok(Counts {
        inputs: count(inputs.len())?,
        outputs: count(outputs)?,
    })
}

/// The names of a draft, those of its nodes aside.
#[derive(Drop)]
pub struct Around {
    pub model: Name,
    pub inputs: Names,
    pub outputs: Names,
}

/// The names of the draft of a circuit with these inputs, latches and roots.
pub fn names_around(
    alloc: Global,
    model: Option<Name>,
    inputs: Names,
    latches: &Latches,
    roots: &IndexSet<Name>,
) -> Result<Around, AllocError>
    ensures { IfOk result (λ r. r ≡ record {
      model = unwrap_or model (codes "unnamed");
      inputs = input_names inputs latches.now;
      outputs = roots.now.keys;
    }) }
{
    Ok(Around {
        model: name_or_unnamed(alloc, model)?,
        inputs: with_outputs(alloc, inputs, latches.as_slice())?,
        outputs: names_of(alloc, roots)?,
    })
}
