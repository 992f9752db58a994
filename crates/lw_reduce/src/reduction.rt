// The graph of a draft's classes.
ghost use Rattle.std.specs.Prelude.{◌≡◌, ◌+◌, ◌*◌, ◌<◌, ◌^◌, ℕ, length, map, slice_index, IfOk};
ghost use Rattle.std.specs.List.{slice_range};
ghost use Rattle.lw_laws.specs.Drafts.{IsReduced};
ghost use Rattle.lw_reduce.specs.Buckets.{AreFactRows, HaveClasses};
ghost use Rattle.lw_reduce.specs.ClassNumbers.{as_class};
ghost use Rattle.lw_reduce.specs.DraftFacts.{AreDraftReps, AreSettledReps, IsGraphOf};

use crate::Draft;
use crate::buckets::class_pairs;
use crate::class_facts::class_facts;
use crate::classes::{Numbered, number};
use crate::facts::{ClassFacts, Fact, Facts, Link};
use crate::rounds::settle;
use crate::sorted_pairs::Rows;
use lw_graph::Graph;
use lw_pool::{ClassId, Classes};
use std::alloc::{AllocError, Global};

// The inputs, NAND facts and links of a draft.
#[derive(Drop)]
struct DraftFacts {
    inputs: u32,
    nands: Vec<Fact>,
    links: Vec<Link>,
}

// Each base form as its own representative.
fn own_reps(alloc: Global, samples: &[bool]) -> Result<Vec<u32>, AllocError>
    requires { length samples.now < 2 ^ 31 }
    ensures count { IfOk result (λ v. length v.items ≡ length samples.now) }
    ensures own { IfOk result (λ v. (b : ℕ) → b < length samples.now →
        slice_index v.items b ≡ 2 * b) }
{
    let mut reps = Vec::with_capacity(alloc, samples.len())?;
    for base in 0..samples.len() {
        reps.push(base as u32 * 2)?;
    }
    Ok(reps)
}

// Numbers as classes.
fn as_classes(alloc: Global, numbers: &[u32]) -> Result<Vec<ClassId>, AllocError>
    ensures { IfOk result (λ classes. classes.items ≡ map as_class numbers.now) }
{
    numbers.iter().map(|n| ClassId(*n)).collect(alloc)
}

// Numbers as a list of classes.
fn class_list(alloc: Global, numbers: &[u32]) -> Result<Classes, AllocError>
    ensures { IfOk result (λ classes. classes ≡ map as_class numbers.now) }
{
    Ok(Classes::from_vec(as_classes(alloc, numbers)?))
}

// The classes of the inputs, and those of all base forms.
fn lists_of(alloc: Global, inputs: u32, forms: &[u32]) -> Result<(Classes, Classes), AllocError>
    requires { inputs < length forms.now }
    ensures leaves { IfOk result (λ lists. lists.0
        ≡ map as_class (slice_range forms.now 1 (inputs + 1))) }
    ensures forms { IfOk result (λ lists. lists.1 ≡ map as_class forms.now) }
{
    let leaves = class_list(alloc, &forms[1..inputs as usize + 1])?;
    let all = class_list(alloc, forms)?;
    Ok((leaves, all))
}

// The pairs of all classes: the operands of the facts, by the classes of their forms.
fn rows_of(alloc: Global, numbered: &Numbered, nands: Vec<Fact>) -> Result<Rows, AllocError>
    requires { HaveClasses numbered.now nands.items }
    ensures { IfOk result
        (λ rows. AreFactRows numbered.now nands.items rows.pairs.items rows.ends) }
{
    let facts = ClassFacts {
        facts: class_facts(&numbered.forms, nands),
        classes: numbered.pairs as usize * 2,
    };
    let rows = class_pairs(alloc, facts)?;
    Ok(rows)
}

// The graph of settled representatives.
fn graph_of(alloc: Global, reps: &[u32], draft: DraftFacts) -> Result<Graph, AllocError>
    requires { AreSettledReps draft reps.now }
    ensures { IfOk result (IsGraphOf draft reps.now) }
{
    let numbered = number(alloc, reps)?;
    let lists = rows_of(alloc, &numbered, draft.nands)?;
    let Ok((leaves, forms)) = lists_of(alloc, draft.inputs, &numbered.forms) else {
        drop(lists);
        drop(numbered);
        return Err(AllocError);
    };
    let one = ClassId(numbered.forms[0]);
    drop(numbered);
    let graph = Graph::flat(alloc, one, leaves, forms, lists.ends, lists.pairs)?;
    Ok(graph)
}

// The graph of a draft's facts: settles the representatives, then builds the graph.
fn graph_by(alloc: Global, reps: &mut [u32], draft: DraftFacts) -> Result<Graph, AllocError>
    requires { AreDraftReps draft reps.old }
    ensures { IfOk result (IsGraphOf draft reps.old) }
{
    let facts = Facts {
        nands: &draft.nands,
        links: &draft.links,
    };
    settle(alloc, reps, &facts)?;
    let graph = graph_of(alloc, reps, draft)?;
    Ok(graph)
}

/// The graph of the classes of a draft's forms.
///
/// Two forms have one class exactly where they are equivalent: linked forms are, the complements of
/// equivalent forms are, and forms that are NANDs of equivalent forms, in this order or exchanged,
/// are, and no others but by these. Pairs of classes are numbered by their first base forms,
/// without gaps; a class holds a pair of classes, the lower one first, where some NAND fact has its
/// form in this class and its operands in those two. Pairs stand in rising order, each once.
pub fn reduce(alloc: Global, draft: Draft) -> Result<Graph, AllocError>
    ensures { IfOk result (IsReduced draft) }
{
    let Draft {
        inputs,
        samples,
        nands,
        links,
    } = draft;
    let mut reps = own_reps(alloc, &samples)?;
    let facts = DraftFacts {
        inputs,
        nands,
        links,
    };
    let graph = graph_by(alloc, &mut reps, facts)?;
    Ok(graph)
}
