// Graphs and marks that are drawn.
ghost use Rattle.std.specs.Prelude.{◌≡◌, ◌≤◌, length, All, IfOk};
ghost use Rattle.lw_cost.specs.Values.{AreInRange};
ghost use Rattle.lw_label.specs.Delays.{most_time};
ghost use Rattle.lw_test_matches.specs.Drawing.{IsInRange};

use crate::sketch::{Sketch, graph_of};
use lw_graph::Graph;
use lw_match::Mark;
use std::alloc::{AllocError, Global};
use std::test::Fail;

/// Numbers that look random, by a linear congruence.
#[derive(Drop)]
pub(crate) struct Dice {
    state: u64,
}

impl Dice {
    pub(crate) fn new(seed: u64) -> Self {
        Dice { state: seed }
    }

    /// A number below this one, or 0 where there is none.
    fn roll(&mut self, sides: u32) -> u32
        ensures { result ≤ sides }
    {
        self.state = self
            .state
            .wrapping_mul(6_364_136_223_846_793_005)
            .wrapping_add(1_442_695_040_888_963_407);
        if sides == 0 {
            return 0;
        }
        (self.state >> 33) as u32 % sides
    }
}

// How many inputs a drawn graph has, how many base forms after them, NAND facts and links.
#[derive(Clone, Copy)]
struct Size {
    inputs: u32,
    forms: u32,
    facts: u32,
    links: u32,
}

impl Size {
    // How many base forms there are: true, the inputs, and those after them.
    fn bases(self) -> u32 {
        self.inputs.saturating_add(self.forms).saturating_add(1)
    }
}

fn drawn_samples(alloc: Global, dice: &mut Dice, size: Size) -> Result<Vec<bool>, AllocError> {
    let mut samples = Vec::new(alloc);
    for _form in 0..size.forms {
        samples.push(dice.roll(2) == 0)?;
    }
    Ok(samples)
}

// The sample of a form.
fn sample_of(size: Size, samples: &[bool], form: u32) -> bool {
    let base = form / 2;
    let sample = match base.checked_sub(size.inputs) {
        Some(0) => base == 0,
        Some(place) => samples.get(place as usize - 1).copied().unwrap_or(false),
        None => base == 0,
    };
    sample == (form % 2 == 0)
}

// The form of a base form that has this sample.
fn form_with(size: Size, samples: &[bool], base: u32, sample: bool) -> u32 {
    let form = base.saturating_mul(2);
    if sample_of(size, samples, form) == sample {
        form
    } else {
        form | 1
    }
}

// A form below a base form, or in one of four cases any form: so parts and forms may go round in a
// circle.
fn drawn_part(dice: &mut Dice, size: Size, base: u32) -> u32 {
    let below = if dice.roll(4) == 0 {
        size.bases()
    } else {
        base
    };
    dice.roll(below.saturating_mul(2))
}

// A fact that one of the forms after the inputs, or in one of eight cases any form, is the NAND of
// two.
fn drawn_fact(dice: &mut Dice, size: Size, samples: &[bool]) -> (u32, u32, u32) {
    let base = if dice.roll(8) == 0 {
        dice.roll(size.bases())
    } else {
        size.bases()
            .saturating_sub(1)
            .saturating_sub(dice.roll(size.forms))
    };
    let left = drawn_part(dice, size, base);
    let right = drawn_part(dice, size, base);
    let nand = !(sample_of(size, samples, left) && sample_of(size, samples, right));
    (form_with(size, samples, base, nand), left, right)
}

fn drawn_facts(
    alloc: Global,
    dice: &mut Dice,
    size: Size,
    samples: &[bool],
) -> Result<Vec<(u32, u32, u32)>, AllocError> {
    let mut facts = Vec::new(alloc);
    for _fact in 0..size.facts {
        facts.push(drawn_fact(dice, size, samples))?;
    }
    Ok(facts)
}

fn drawn_links(
    alloc: Global,
    dice: &mut Dice,
    size: Size,
    samples: &[bool],
) -> Result<Vec<(u32, u32)>, AllocError> {
    let mut links = Vec::new(alloc);
    for _link in 0..size.links {
        let left = dice.roll(size.bases().saturating_mul(2));
        let base = dice.roll(size.bases());
        let sample = sample_of(size, samples, left);
        links.push((left, form_with(size, samples, base, sample)))?;
    }
    Ok(links)
}

// The graph of a draft that is drawn.
fn drawn_graph(alloc: Global, dice: &mut Dice, size: Size) -> Result<Graph, Fail> {
    let samples = drawn_samples(alloc, dice, size)?;
    let facts = drawn_facts(alloc, dice, size, &samples)?;
    let links = drawn_links(alloc, dice, size, &samples)?;
    let sketch = Sketch {
        inputs: size.inputs,
        samples: &samples,
        facts: &facts,
        links: &links,
    };
    graph_of(alloc, sketch)
}

/// Graphs that are drawn, by rows: inputs, further base forms, facts and links, and how many
/// graphs.
pub(crate) fn drawn_graphs(
    alloc: Global,
    dice: &mut Dice,
    rows: &[(u32, u32, u32, u32, u32)],
) -> Result<Vec<Graph>, Fail> {
    let mut graphs = Vec::new(alloc);
    for row in rows {
        let (inputs, forms, facts, links, count) = *row;
        let size = Size {
            inputs,
            forms,
            facts,
            links,
        };
        for _graph in 0..count {
            graphs.push(drawn_graph(alloc, dice, size)?)?;
        }
    }
    Ok(graphs)
}

// A mark that is drawn, with a low cost and height or with nearly the greatest, and none in one of
// four cases.
fn drawn_mark(dice: &mut Dice, high: bool) -> Option<Mark>
    ensures { IsInRange result }
{
    if dice.roll(4) == 0 {
        return None;
    }
    let cost = dice.roll(4) as u64 * 500_000;
    let height = dice.roll(4);
    if high {
        return Some(Mark {
            cost: 9_223_372_036_854_775_807 - cost,
            height: 4_294_967_294 - height,
        });
    }
    Some(Mark { cost, height })
}

// So many marks that are drawn.
fn marks_drawn(
    alloc: Global,
    dice: &mut Dice,
    count: u32,
    high: bool,
) -> Result<Vec<Option<Mark>>, AllocError>
    ensures count { IfOk result (λ marks. length marks.items ≡ count) }
    ensures each { IfOk result (λ marks. All IsInRange marks.items) }
{
    let mut marks = Vec::new(alloc);
    for _class in 0..count {
        marks.push(drawn_mark(dice, high))?;
    }
    Ok(marks)
}

/// A mark or none for each class, drawn: low ones, or nearly the greatest that there are.
#[tactic(auto, using(crate::proofs::Marks::in_range))]
pub(crate) fn drawn_marks(
    alloc: Global,
    dice: &mut Dice,
    graph: &Graph,
    high: bool,
) -> Result<Vec<Option<Mark>>, AllocError>
    ensures one_each { IfOk result (λ marks. length marks.items ≡ length graph.now.pairs) }
    ensures in_range { IfOk result (λ marks. AreInRange most_time marks.items) }
{
    let marks = marks_drawn(alloc, dice, graph.classes(), high)?;
    Ok(marks)
}
