// Graphs that are written down as the facts of a draft.
ghost use Rattle.std.specs.Prelude.{◌≡◌, ◌∷◌, true, false, replicate, IfOk, OnOk, IfSome};
ghost use Rattle.lw_reduce.specs.Drafting.{IsKnown, sample_of};

use lw_graph::Graph;
use lw_pool::FormId;
use lw_reduce::{Draft, reduce};
use std::alloc::{AllocError, Global};
use std::test::Fail;

/// A draft as data: how many inputs it has, the samples of the base forms after them, its NAND
/// facts, each a form and its two parts, and its links. Forms are given by their numbers.
#[derive(Clone, Copy)]
pub(crate) struct Sketch<'a> {
    pub(crate) inputs: u32,
    pub(crate) samples: &'a [bool],
    pub(crate) facts: &'a [(u32, u32, u32)],
    pub(crate) links: &'a [(u32, u32)],
}

/// The And of three inputs, those of two of them, and their complements.
pub(crate) const AND_OF_THREE: Sketch<'static> = Sketch {
    inputs: 3,
    samples: &[false, false, false, false],
    facts: &[
        (9, 2, 4),
        (11, 2, 6),
        (13, 4, 6),
        (15, 2, 12),
        (15, 4, 10),
        (15, 6, 8),
    ],
    links: &[],
};

// The samples of true and of so many inputs.
fn first_samples(alloc: Global, inputs: u32) -> Result<Vec<bool>, AllocError>
    ensures { IfOk result (λ v. v.items ≡ true ∷ replicate inputs false) }
{
    let mut samples = Vec::new(alloc);
    samples.push(true)?;
    for _input in 0..inputs {
        samples.push(false)?;
    }
    Ok(samples)
}

// Adds base forms with these samples.
fn add_forms(draft: &mut Draft, samples: &mut Vec<bool>, more: &[bool]) -> Result<(), AllocError>
    requires same { draft.old.samples ≡ samples.old.items }
    ensures same { OnOk result (draft.new.samples ≡ samples.new.items) }
{
    for sample in more {
        if samples.len() > 10_000 {
            break;
        }
        draft.add(*sample)?;
        samples.push(*sample)?;
    }
    Ok(())
}

// The sample of a form that is known.
fn sample(samples: &[bool], form: u32) -> Option<bool>
    ensures known { IfSome result (λ s. IsKnown samples.now form) }
    ensures sample { IfSome result (λ s. sample_of samples.now form ≡ s) }
{
    let base = (form / 2) as usize;
    if base >= samples.len() {
        return None;
    }
    if form % 2 == 0 {
        Some(samples[base])
    } else {
        Some(!samples[base])
    }
}

// Adds a NAND fact, where its forms are known and its samples fit.
fn add_fact(draft: &mut Draft, samples: &[bool], fact: (u32, u32, u32)) -> Result<(), Fail>
    requires same { draft.old.samples ≡ samples.now }
    ensures same { OnOk result (draft.new.samples ≡ samples.now) }
{
    let (form, left, right) = fact;
    let (Some(own), Some(one), Some(other)) = (
        sample(samples, form),
        sample(samples, left),
        sample(samples, right),
    ) else {
        return Err(Fail::from("the forms of a fact are known"));
    };
    if own != !(one && other) {
        return Err(Fail::from("the samples of a fact fit"));
    }
    if draft.is_full() {
        return Err(Fail::from("a draft has room for its facts"));
    }
    draft.nand(FormId(form), FormId(left), FormId(right))?;
    Ok(())
}

fn add_facts(draft: &mut Draft, samples: &[bool], facts: &[(u32, u32, u32)]) -> Result<(), Fail>
    requires same { draft.old.samples ≡ samples.now }
    ensures same { OnOk result (draft.new.samples ≡ samples.now) }
{
    for fact in facts {
        add_fact(draft, samples, *fact)?;
    }
    Ok(())
}

// Adds a link, where its forms are known and its samples fit.
fn add_link(draft: &mut Draft, samples: &[bool], link: (u32, u32)) -> Result<(), Fail>
    requires same { draft.old.samples ≡ samples.now }
    ensures same { OnOk result (draft.new.samples ≡ samples.now) }
{
    let (left, right) = link;
    let (Some(one), Some(other)) = (sample(samples, left), sample(samples, right)) else {
        return Err(Fail::from("the forms of a link are known"));
    };
    if one != other {
        return Err(Fail::from("the samples of a link fit"));
    }
    draft.link(FormId(left), FormId(right))?;
    Ok(())
}

fn add_links(draft: &mut Draft, samples: &[bool], links: &[(u32, u32)]) -> Result<(), Fail>
    requires same { draft.old.samples ≡ samples.now }
    ensures same { OnOk result (draft.new.samples ≡ samples.now) }
{
    for link in links {
        add_link(draft, samples, *link)?;
    }
    Ok(())
}

// Adds what a sketch says to a draft of its inputs.
fn fill(draft: &mut Draft, samples: &mut Vec<bool>, sketch: Sketch<'_>) -> Result<(), Fail>
    requires { draft.old.samples ≡ samples.old.items }
{
    add_forms(draft, samples, sketch.samples)?;
    add_facts(draft, samples, sketch.facts)?;
    add_links(draft, samples, sketch.links)
}

/// The graph of a sketch.
pub(crate) fn graph_of(alloc: Global, sketch: Sketch<'_>) -> Result<Graph, Fail> {
    if sketch.inputs > 2000 {
        return Err(Fail::from("there are few inputs"));
    }
    let mut draft = Draft::new(alloc, sketch.inputs)?;
    let mut samples = first_samples(alloc, sketch.inputs)?;
    fill(&mut draft, &mut samples, sketch)?;
    drop(samples);
    Ok(reduce(alloc, draft)?)
}
