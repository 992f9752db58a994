// The patterns of a library.
ghost use Rattle.std.specs.Prelude.{◌≡◌, ◌<◌, ◌++◌, map, OnOk, IfOk};
ghost use Rattle.lw_laws.specs.Covers.{ArePatterns};
ghost use Rattle.lw_laws.specs.Netlists.{HaveCellTruths};
ghost use Rattle.lw_laws.specs.Patterns.{patterns_of_cell, pattern_of_cell, trees_of_expr};
ghost use Rattle.lw_pattern.specs.Libraries.{library_patterns, pin_counts, library_truth};
ghost use Rattle.lw_pattern.specs.Listed.{listed};

use crate::growing::trees;
use crate::placing::nodes;
use crate::{Pattern, Patterns};
use lw_genlib::{Cell, Expr, Library};
use lw_pool::CellId;
use std::alloc::{AllocError, Global};

/// The patterns of the cells of a library, in the order of cells, their forms, and the bracketings
/// of a form.
///
/// An AND is an inverted NAND, and an OR the NAND of its inverted operands; two inverters in a row
/// fall away. An operator with two to four operands is bracketed in all ways, and one with more as
/// a left chain. A form that would have more than
/// 64 patterns has one, in which each operator is a left chain.
pub fn patterns(alloc: Global, lib: &Library) -> Result<Patterns, AllocError>
    ensures list { IfOk result (λ pats. pats ≡ library_patterns lib.now) }
    ensures pins { IfOk result (λ pats. ArePatterns (pin_counts lib.now) pats) }
    ensures truth { IfOk result (λ pats. HaveCellTruths (pin_counts lib.now)
        (library_truth lib.now) pats) }
{
    let mut items = Vec::new(alloc);
    for number in 0..lib.len() {
        let id = CellId(number);
        push_cell(alloc, id, lib.cell(id), &mut items)?;
    }
    Ok(Patterns::new(items))
}

fn push_cell(
    alloc: Global,
    id: CellId,
    cell: &Cell,
    items: &mut Vec<Pattern>,
) -> Result<(), AllocError>
    ensures { OnOk result (items.new.items ≡ items.old.items
        ++ map listed (patterns_of_cell id.0 cell.now.forms)) }
{
    for form in cell.forms() {
        push_form(alloc, id, form, items)?;
    }
    Ok(())
}

fn push_form(
    alloc: Global,
    id: CellId,
    form: &Expr,
    items: &mut Vec<Pattern>,
) -> Result<(), AllocError>
    ensures { OnOk result (items.new.items ≡ items.old.items
        ++ map listed (map (pattern_of_cell id.0) (trees_of_expr form.now))) }
{
    // Brings in what the type of `form` keeps.
    let _ = form.ops();
    for tree in trees(alloc, form)?.as_slice() {
        items.push(Pattern {
            cell: id,
            nodes: nodes(alloc, tree)?,
        })?;
    }
    Ok(())
}
