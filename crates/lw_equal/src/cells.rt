// The literals of the nets of a netlist of cells.
ghost use Rattle.std.specs.Prelude.{◌≡◌, ◌<◌, ◌≤◌, length, take, All, IfOk, IfSome, IsTrue};
ghost use Rattle.std.specs.List.{list_all, list_any};
ghost use Rattle.lw_aig.specs.Aigs.{IsBelow};
ghost use Rattle.lw_genlib.specs.Cells.{cell_value};
ghost use Rattle.lw_genlib.specs.Postfix.{arity};
ghost use Rattle.lw_genlib.specs.Runs.{IsPinOf};
ghost use Rattle.lw_genlib.specs.Tables.{truth_of_cells};
ghost use Rattle.lw_joint.specs.Joint.{Computes};
ghost use Rattle.lw_netlist.specs.Netlists.{plain};
ghost use Rattle.lw_netlist.specs.Plain.{HasCell, IsOver};
ghost use Rattle.lw_netlist.specs.Filling.{gate_value};
ghost use Rattle.lw_sweep.specs.Sweeps.{IsExtended};
ghost use Rattle.lw_equal.specs.Cells.{HaveNetlistValues, IsMade, IsStep, Makes, itself};
ghost use Rattle.lw_equal.specs.Cells.{literals_at};

use lw_aig::Literal;
use lw_genlib::{Cell, ExprOp, Library};
use lw_joint::or;
use lw_netlist::{Gate, Netlist};
use lw_pool::NetId;
use lw_sweep::Sweep;
use std::alloc::{AllocError, Global};

// The most pins that a cell has.
const MOST_PINS: usize = 16;

// The conjunction of some literals.
fn all_of(
    sweep: &mut Sweep,
    alloc: Global,
    parts: &[Literal],
) -> Result<Option<Literal>, AllocError>
    requires { All (IsBelow (length sweep.old)) parts.now }
    ensures grows { IsExtended sweep.old sweep.new }
    ensures literal { IfOk result (λ l. IfSome l (Makes sweep.new parts.now (list_all itself))) }
{
    let _ = sweep.aig().gates();
    let mut all = Literal(1);
    'parts: for part in parts {
        let Some(literal) = sweep.and(alloc, all, *part)? else {
            return Ok(None);
        };
        all = literal;
    }
    Ok(Some(all))
}

// The disjunction of some literals.
fn some_of(
    sweep: &mut Sweep,
    alloc: Global,
    parts: &[Literal],
) -> Result<Option<Literal>, AllocError>
    requires { All (IsBelow (length sweep.old)) parts.now }
    ensures grows { IsExtended sweep.old sweep.new }
    ensures literal { IfOk result (λ l. IfSome l (Makes sweep.new parts.now (list_any itself))) }
{
    let _ = sweep.aig().gates();
    let mut some = Literal(0);
    'parts: for part in parts {
        let Some(literal) = or(sweep, alloc, some, *part)? else {
            return Ok(None);
        };
        some = literal;
    }
    Ok(Some(some))
}

// How many literals a step takes.
fn arity(op: ExprOp) -> u8
    ensures { result ≡ arity op }
{
    match op {
        ExprOp::Const(_) | ExprOp::Pin(_) => 0,
        ExprOp::Not => 1,
        ExprOp::And(parts) | ExprOp::Or(parts) => parts,
    }
}

// The literal of a step, from those of the pins and those that it takes.
fn literal_by(
    sweep: &mut Sweep,
    alloc: Global,
    op: ExprOp,
    pins: &[Literal],
    parts: &[Literal],
) -> Result<Option<Literal>, AllocError>
    requires takes { length parts.now ≡ arity op }
    requires pin { IsPinOf (length pins.now) op }
    requires pins { All (IsBelow (length sweep.old)) pins.now }
    requires parts { All (IsBelow (length sweep.old)) parts.now }
    ensures grows { IsExtended sweep.old sweep.new }
    ensures literal { IfOk result (λ l. IfSome l (IsMade sweep.new pins.now op parts.now)) }
{
    let _ = sweep.aig().gates();
    match op {
        ExprOp::Const(value) => Ok(Some(Literal(u32::from(value)))),
        ExprOp::Pin(pin) => Ok(Some(pins[usize::from(pin)])),
        ExprOp::Not => Ok(Some(parts[0].flip())),
        ExprOp::And(_) => all_of(sweep, alloc, parts),
        ExprOp::Or(_) => some_of(sweep, alloc, parts),
    }
}

// Puts the literal of a step in the place of those that it takes: whether there was room for it.
fn step(
    sweep: &mut Sweep,
    alloc: Global,
    op: ExprOp,
    pins: &[Literal],
    stack: &mut Vec<Literal>,
) -> Result<bool, AllocError>
    requires takes { arity op ≤ length stack.old.items }
    requires pin { IsPinOf (length pins.now) op }
    requires pins { All (IsBelow (length sweep.old)) pins.now }
    requires stack { All (IsBelow (length sweep.old)) stack.old.items }
    ensures grows { IsExtended sweep.old sweep.new }
    ensures stack { IfOk result (λ yes. IsTrue yes →
        IsStep sweep.new pins.now op stack.old.items stack.new.items) }
{
    let base = stack.len() - usize::from(arity(op));
    let Some(literal) = literal_by(sweep, alloc, op, pins, &stack[base..])? else {
        return Ok(false);
    };
    stack.truncate(base);
    stack.push(literal)?;
    Ok(true)
}

// The literal of a cell whose pins have these literals.
fn cell_literal(
    sweep: &mut Sweep,
    alloc: Global,
    cell: &Cell,
    pins: &[Literal],
    stack: &mut Vec<Literal>,
) -> Result<Option<Literal>, AllocError>
    requires one_each { length pins.now ≡ length cell.now.pins }
    requires within { All (IsBelow (length sweep.old)) pins.now }
    ensures grows { IsExtended sweep.old sweep.new }
    ensures literal { IfOk result (λ l. IfSome l (Makes sweep.new pins.now (cell_value cell.now))) }
{
    let _ = sweep.aig().gates();
    stack.clear();
    let ops = cell.forms()[0].ops();
    'steps: for op in ops {
        if !step(sweep, alloc, *op, pins, stack)? {
            return Ok(None);
        }
    }
    Ok(Some(stack[0]))
}

// Puts the literals of these nets at the front.
fn read_nets(pins: &[NetId], literals: &[Literal], found: &mut [Literal])
    requires room { length pins.now ≤ length found.old }
    requires known { All (λ net. net.0 < length literals.now) pins.now }
    ensures literals { take (length pins.now) found.new ≡ literals_at literals.now pins.now }
    ensures length { length found.new ≡ length found.old }
{
    for (k, pin) in pins.iter().enumerate() {
        found[k] = literals[pin.0 as usize];
    }
}

// The literal of a gate.
fn gate_literal(
    sweep: &mut Sweep,
    alloc: Global,
    lib: &Library,
    gate: &Gate,
    literals: &[Literal],
    stack: &mut Vec<Literal>,
) -> Result<Option<Literal>, AllocError>
    requires cell { HasCell lib.now gate.now }
    requires known { All (λ net. net.0 < length literals.now) gate.now.pins }
    requires within { All (IsBelow (length sweep.old)) literals.now }
    ensures grows { IsExtended sweep.old sweep.new }
    ensures literal { IfOk result (λ l. IfSome l (Computes sweep.new literals.now
        (λ values. gate_value lib.now values gate.now))) }
{
    let count = lib.len();
    let cell = lib.cell(gate.cell);
    let pins = gate.pins.as_slice();
    let mut found = [Literal(0); MOST_PINS];
    read_nets(pins, literals, &mut found);
    cell_literal(sweep, alloc, cell, &found[..pins.len()], stack)
}

// The literals of the nets of a netlist, whose inputs have these literals, or none where there is
// no room for a node of the graph.
pub(crate) fn netlist_literals(
    sweep: &mut Sweep,
    alloc: Global,
    netlist: &Netlist,
    lib: &Library,
    inputs: &[Literal],
) -> Result<Option<Vec<Literal>>, AllocError>
    requires over { IsOver lib.now netlist.now }
    requires one_each { length inputs.now ≡ netlist.now.inputs }
    requires within { All (IsBelow (length sweep.old)) inputs.now }
    ensures grows { IsExtended sweep.old sweep.new }
    ensures values { IfOk result (λ lits. IfSome lits (λ found.
        HaveNetlistValues sweep.new (truth_of_cells lib.now) (plain netlist.now) inputs.now
        found.items)) }
{
    let mut literals = Vec::new(alloc);
    literals.extend_from_slice(inputs)?;
    let mut stack = Vec::new(alloc);
    'gates: for gate in netlist.gates() {
        let Some(literal) = gate_literal(sweep, alloc, lib, gate, &literals, &mut stack)? else {
            return Ok(None);
        };
        literals.push(literal)?;
    }
    Ok(Some(literals))
}
