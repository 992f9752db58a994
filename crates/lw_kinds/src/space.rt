// What covers are made in: the graph with its labels, and the kinds of its cells.
use crate::kinds::{Kind, Nand, What, kinds_of};
use crate::shapes::Shapes;
use crate::standing::Standing;
use crate::table::Table;
use lw_cost::Mark;
use lw_genlib::{Cell, Library};
use lw_graph::{Graph, Pair};
use lw_pattern::Patterns;
use lw_pool::{CellId, ClassId, PatId};
use std::alloc::{AllocError, Global};

/// The time of what never arrives, and of what nobody waits for.
pub const LATE: u64 = u64::MAX;

/// The cell of one pin that inverts, and is the smallest of these.
#[derive(Clone, Copy)]
pub struct Inverter {
    pub pat: PatId,
    pub area: u64,
    pub delay: u64,
}

/// What is fixed while covers change.
#[derive(Drop)]
pub struct Space<'a> {
    pub graph: &'a Graph,
    pub lib: &'a Library,
    pub pats: &'a Patterns,
    pub kinds: Vec<Kind>,
    pub standing: Standing,
    /// The label of each class, and its height.
    pub labels: Table<u64>,
    pub heights: Table<u32>,
    /// Whether a class is an input's.
    pub leaves: Table<bool>,
    pub inverter: Option<Inverter>,
    /// The least area of any cell that is no inverter.
    pub least_other: u64,
}

fn inverter_of(kinds: &[Kind]) -> Option<Inverter> {
    for kind in kinds {
        if kind.nands.is_empty() && kind.leaves == 1 && kind.root.inverted {
            if let (What::Leaf(_), Some(of)) = (kind.root.what, kind.uses.first()) {
                let way = of.ways.first()?;
                return Some(Inverter {
                    pat: way.pat,
                    area: of.area,
                    delay: way.delays[0],
                });
            }
        }
    }
    None
}

fn least_other(kinds: &[Kind]) -> u64 {
    let mut least = u64::MAX;
    for kind in kinds {
        if !kind.nands.is_empty() {
            least = least.min(kind.least_area);
        }
    }
    if least == u64::MAX { 0 } else { least }
}

impl<'a> Space<'a> {
    /// The space of a graph whose classes have these labels.
    pub fn new(
        alloc: Global,
        graph: &'a Graph,
        lib: &'a Library,
        pats: &'a Patterns,
        marks: &[Option<Mark>],
    ) -> Result<Space<'a>, AllocError> {
        let classes = graph.classes() as usize;
        let (mut labels, mut heights) = (
            Table::new(alloc, classes, LATE)?,
            Table::new(alloc, classes, 0)?,
        );
        for (number, mark) in marks.iter().enumerate() {
            if let Some(mark) = mark {
                labels.set(number.min(classes) as u32, mark.cost);
                heights.set(number.min(classes) as u32, mark.height);
            }
        }
        let mut leaves = Table::new(alloc, classes, false)?;
        for input in 0..graph.inputs() {
            leaves.set(graph.leaf(input).0, true);
        }
        let mut shapes = Shapes::new(alloc);
        let kinds = kinds_of(alloc, lib, pats, &mut shapes)?;
        let standing = Standing::new(alloc, graph, &labels, &shapes)?;
        drop(shapes);
        let (inverter, least_other) = (inverter_of(&kinds), least_other(&kinds));
        Ok(Space {
            graph,
            lib,
            pats,
            kinds,
            standing,
            labels,
            heights,
            leaves,
            inverter,
            least_other,
        })
    }

    /// Whether a class is an input's.
    #[inline]
    pub fn is_leaf(&self, class: ClassId) -> bool {
        self.leaves.get(class.0)
    }

    /// The label of a class.
    #[inline]
    pub fn label(&self, class: ClassId) -> u64 {
        self.labels.get(class.0)
    }

    /// How many times 32 kinds there are, rounded up: what a wide library costs more.
    pub fn breadth(&self) -> u32 {
        (self.kinds.len().saturating_add(31) / 32).clamp(1, 64) as u32
    }

    /// A NAND of a kind.
    #[inline]
    pub fn nand_at(&self, number: usize, place: usize) -> Option<Nand> {
        self.kinds.get(number)?.nands.get(place).copied()
    }

    /// The cell of a pattern.
    #[inline]
    pub fn cell_of(&self, pat: PatId) -> Option<(CellId, &Cell)> {
        if pat.0 >= self.pats.len() {
            return None;
        }
        let id = self.pats.get(pat).cell;
        if id.0 >= self.lib.len() {
            return None;
        }
        Some((id, self.lib.cell(id)))
    }

    /// The pairs of a class.
    #[inline]
    pub fn pairs(&self, class: ClassId) -> &[Pair] {
        if class.0 < self.graph.classes() {
            self.graph.nands(class)
        } else {
            &[]
        }
    }
}
