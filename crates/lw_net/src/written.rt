// Drafts whose names are numbers.
ghost use Rattle.std.specs.Prelude.{◌≡◌, ◌++◌, map, IfOk};
ghost use Rattle.lw_net.specs.Numbers.{draft_in, IsWritten};
ghost use Rattle.lw_net.specs.Written.{number_of_out};

use crate::naming::numbers;
use crate::{Cubes, Draft};
use indexmap::IndexSet;
use lw_pool::{Name, Numbers};
use std::alloc::{AllocError, Global};

/// A node as it is written, with the numbers of names in place of the names.
#[derive(Drop)]
pub(crate) struct NumberedNode {
    pub(crate) out: u32,
    pub(crate) fanins: Numbers,
    pub(crate) rows: Cubes,
    pub(crate) on: bool,
}

/// A network as it is written. Each of its names stands once in a list, and is known by its number
/// there.
#[derive(Drop)]
pub(crate) struct Written {
    pub(crate) model: Name,
    pub(crate) names: IndexSet<Name>,
    pub(crate) inputs: Vec<u32>,
    pub(crate) outputs: Vec<u32>,
    pub(crate) nodes: Vec<NumberedNode>,
}

// The draft with numbers in place of names.
pub(crate) fn by_numbers(alloc: Global, draft: Draft) -> Result<Written, AllocError>
    ensures draft { IfOk result (λ w. draft_in w ≡ draft) }
    ensures kept { IfOk result IsWritten }
{
    let Draft {
        model,
        inputs,
        outputs,
        nodes,
    } = draft;
    let (mut names, nodes) = nodes.into_parts();
    let inputs = numbers(alloc, &mut names, inputs)?;
    let outputs = numbers(alloc, &mut names, outputs)?;
    let _count = names.len();
    Ok(Written {
        model,
        names,
        inputs,
        outputs,
        nodes,
    })
}

// The numbers of inputs, and then those of what nodes drive.
pub(crate) fn signal_list(
    alloc: Global,
    inputs: &[u32],
    nodes: &[NumberedNode],
) -> Result<Vec<u32>, AllocError>
    ensures { IfOk result (λ list. list.items ≡ inputs.now ++ map number_of_out nodes.now) }
{
    let mut list = Vec::with_capacity(alloc, inputs.len().saturating_add(nodes.len()))?;
    list.extend_from_slice(inputs)?;
    for node in nodes {
        list.push(node.out)?;
    }
    Ok(list)
}
