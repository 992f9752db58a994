// Which classes hold pairs with a class.
ghost use Rattle.std.specs.Prelude.{◌-◌, ◌/◌, ◌<◌, ◌^◌, IfOk, length};
ghost use Rattle.lw_lut.specs.Reaches.{AreGrown, AreReachesOf, AreSeen, HaveEnds, IsIn, span_at};
ghost use Rattle.lw_lut.specs.declared.span.Span.{Span};

use crate::span::Span;
use lw_graph::{Graph, Pair};
use lw_pool::ClassId;
use std::alloc::{AllocError, Global};

// Notes that a class holds a pair with another.
fn note(reach: &mut Vec<Span>, end: ClassId, class: ClassId)
    requires end { end.0 / 2 < length reach.old.items }
    requires class { class.0 < 2 ^ 32 - 1 }
    ensures grown { AreGrown reach.old.items reach.new.items }
    ensures noted { IsIn (span_at reach.new.items (end.0 / 2)) class.0 }
{
    let place = (end.0 / 2) as usize;
    reach[place] = reach[place].with(class);
}

// Notes the pairs of a class.
fn note_row(reach: &mut Vec<Span>, class: ClassId, row: &[Pair])
    requires ends { HaveEnds (length reach.old.items) row.now }
    requires class { class.0 < 2 ^ 32 - 1 }
    ensures grown { AreGrown reach.old.items reach.new.items }
    ensures noted { AreSeen reach.new.items class.0 row.now }
{
    for pair in row {
        note(reach, pair.x, class);
        note(reach, pair.y, class);
    }
}

// For the place of each class the span of those that hold a pair with one of its classes.
pub(crate) fn reaches(alloc: Global, graph: &Graph) -> Result<Vec<Span>, AllocError>
    ensures { IfOk result (λ reach. AreReachesOf graph.now reach.items) }
{
    let classes = graph.classes();
    let mut reach = vec![in alloc; Span::nothing(); (classes / 2) as usize]?;
    for class in 0..classes {
        note_row(&mut reach, ClassId(class), graph.nands(ClassId(class)));
    }
    Ok(reach)
}
