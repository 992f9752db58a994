// The literals of rows and of their sums.
ghost use Rattle.std.specs.Prelude.{◌≡◌, ◌<◌, length, IfOk, IfSome, All};
ghost use Rattle.lw_aig.specs.Aigs.{IsBelow};
ghost use Rattle.lw_sweep.specs.Sweeps.{IsExtended};
ghost use Rattle.lw_joint.specs.Joint.{Computes, IsDisjunction, IsWithColumn, row_of, sum_of};

use lw_aig::Literal;
use lw_net::Cube;
use lw_pool::NetId;
use lw_sweep::Sweep;
use std::alloc::{AllocError, Global};

// The conjunction of a literal and of a column with this sign.
fn and_column(
    sweep: &mut Sweep,
    alloc: Global,
    before: Literal,
    sign: u8,
    column: Literal,
) -> Result<Option<Literal>, AllocError>
    requires before { IsBelow (length sweep.old) before }
    requires column { IsBelow (length sweep.old) column }
    ensures grows { IsExtended sweep.old sweep.new }
    ensures literal { IfOk result (λ l. IfSome l (IsWithColumn sweep.new before sign column)) }
{
    match sign {
        b'1' => sweep.and(alloc, before, column),
        b'0' => sweep.and(alloc, before, column.flip()),
        _ => Ok(Some(before)),
    }
}

/// The disjunction of two literals, or none where there is no room for a node of the graph.
pub fn or(
    sweep: &mut Sweep,
    alloc: Global,
    left: Literal,
    right: Literal,
) -> Result<Option<Literal>, AllocError>
    requires left { IsBelow (length sweep.old) left }
    requires right { IsBelow (length sweep.old) right }
    ensures grows { IsExtended sweep.old sweep.new }
    ensures literal { IfOk result (λ l. IfSome l (IsDisjunction sweep.new left right)) }
{
    match sweep.and(alloc, left.flip(), right.flip())? {
        Some(literal) => Ok(Some(literal.flip())),
        None => Ok(None),
    }
}

// The literal of a row, or none where there is no room for a node.
fn row(
    sweep: &mut Sweep,
    alloc: Global,
    row: &[u8],
    fanins: &[NetId],
    literals: &[Literal],
) -> Result<Option<Literal>, AllocError>
    requires columns { length row.now ≡ length fanins.now }
    requires known { All (λ net. net.0 < length literals.now) fanins.now }
    requires within { All (IsBelow (length sweep.old)) literals.now }
    ensures grows { IsExtended sweep.old sweep.new }
    ensures row { IfOk result (λ l. IfSome l
        (Computes sweep.new literals.now (row_of fanins.now row.now))) }
{
    let _ = sweep.aig().gates();
    let mut all = Literal(1);
    'columns: for (i, sign) in row.iter().enumerate() {
        let column = literals[fanins[i].0 as usize];
        let Some(literal) = and_column(sweep, alloc, all, *sign, column)? else {
            return Ok(None);
        };
        all = literal;
    }
    Ok(Some(all))
}

// The literal of the sum of some rows, or none where there is no room for a node.
pub(crate) fn sum(
    sweep: &mut Sweep,
    alloc: Global,
    rows: &[Cube],
    fanins: &[NetId],
    literals: &[Literal],
) -> Result<Option<Literal>, AllocError>
    requires columns { All (λ row. length row ≡ length fanins.now) rows.now }
    requires known { All (λ net. net.0 < length literals.now) fanins.now }
    requires within { All (IsBelow (length sweep.old)) literals.now }
    ensures grows { IsExtended sweep.old sweep.new }
    ensures sum { IfOk result (λ l. IfSome l
        (Computes sweep.new literals.now (sum_of fanins.now rows.now))) }
{
    let _ = sweep.aig().gates();
    let mut some = Literal(0);
    'rows: for cube in rows {
        let Some(one) = row(sweep, alloc, cube.as_slice(), fanins, literals)? else {
            return Ok(None);
        };
        let Some(literal) = or(sweep, alloc, some, one)? else {
            return Ok(None);
        };
        some = literal;
    }
    Ok(Some(some))
}
