// Ports that only one of two networks has.
ghost use Rattle.std.specs.Prelude.{◌≡◌, None, IfErr, OnOk, option_copied};
ghost use Rattle.lw_equal.specs.Answers.{Refuses};
ghost use Rattle.lw_equal.specs.Known.{IsKnown};
ghost use Rattle.lw_equal.specs.Ports.{both_faults, fault_between, fault_from, fault_of};
ghost use Rattle.lw_equal.specs.Ports.{first_lacking, first_port_fault, names_of};
ghost use Rattle.lw_equal.specs.Sides.{inputs_of};
ghost use Rattle.lw_equal.specs.declared.answer.PortKind.TheVariants as kinds;

use crate::known::Known;
use crate::{Fault, PortFault, PortKind, Side};
use lw_pool::Name;
use std::alloc::Global;

// The first port of a kind of the one side that the other lacks.
fn lacking<'a>(one: &'a Known, other: &Known, kind: PortKind) -> Option<&'a Name>
    requires one { IsKnown one.now }
    requires other { IsKnown other.now }
    ensures { option_copied result
        ≡ first_lacking (names_of kind other.now.side.now) (names_of kind one.now.side.now) }
{
    let names = one.names(kind);
    for name in names {
        if !other.has(kind, name) {
            return Some(name);
        }
    }
    None
}

// The first input of a network that may help, which is none of a side.
fn strange<'a>(one: &Known, side: &'a Side) -> Option<&'a Name>
    requires { IsKnown one.now }
    ensures { option_copied result
        ≡ first_lacking (inputs_of one.now.side.now.logic) (inputs_of side.now.logic) }
{
    let names = side.logic.inputs();
    for name in names {
        if !one.inputs.contains(name) {
            return Some(name);
        }
    }
    None
}

// Refuses the port of this name, if there is one.
fn refuse(
    alloc: Global,
    kind: PortKind,
    has: usize,
    lacks: usize,
    name: Option<&Name>,
) -> Result<(), Fault>
    ensures ok { OnOk result (fault_of kind has lacks (option_copied name.entry) ≡ None) }
    ensures fault { IfErr result (Refuses (fault_of kind has lacks (option_copied name.entry))) }
{
    let Some(name) = name else {
        return Ok(());
    };
    let name = Name::from_slice(alloc, name.as_bytes())?;
    Err(Fault::Ports(PortFault {
        kind,
        has,
        lacks,
        name,
    }))
}

// Refuses the first port of a kind that only one side has.
fn compare_kind(alloc: Global, one: &Known, other: &Known, kind: PortKind) -> Result<(), Fault>
    requires one { IsKnown one.now }
    requires other { IsKnown other.now }
    ensures ok { OnOk result (fault_between kind one.now.side.now other.now.side.now ≡ None) }
    ensures fault { IfErr result (Refuses (fault_between kind one.now.side.now
        other.now.side.now)) }
{
    refuse(alloc, kind, 1, 2, lacking(one, other, kind))?;
    refuse(alloc, kind, 2, 1, lacking(other, one, kind))
}

// Refuses the first port that only one side has.
fn compare_both(alloc: Global, one: &Known, other: &Known) -> Result<(), Fault>
    requires one { IsKnown one.now }
    requires other { IsKnown other.now }
    ensures ok { OnOk result (both_faults one.now.side.now other.now.side.now ≡ None) }
    ensures fault { IfErr result (Refuses (both_faults one.now.side.now other.now.side.now)) }
{
    compare_kind(alloc, one, other, PortKind::Input)?;
    compare_kind(alloc, one, other, PortKind::Output)?;
    compare_kind(alloc, one, other, PortKind::Latch)
}

// Refuses the first input of the networks that may help, which is none of a side.
fn compare_more(alloc: Global, one: &Known, more: &[Side]) -> Result<(), Fault>
    requires { IsKnown one.now }
    ensures ok { OnOk result (fault_from one.now.side.now 3 more.now ≡ None) }
    ensures fault { IfErr result (Refuses (fault_from one.now.side.now 3 more.now)) }
{
    let mut number = 3;
    for side in more {
        refuse(alloc, PortKind::Input, number, 1, strange(one, side))?;
        number += 1;
    }
    Ok(())
}

// Refuses the first port that only one of two networks has.
pub(crate) fn compare_ports(
    alloc: Global,
    one: &Known,
    other: &Known,
    more: &[Side],
) -> Result<(), Fault>
    requires one { IsKnown one.now }
    requires other { IsKnown other.now }
    ensures ok { OnOk result (first_port_fault one.now.side.now other.now.side.now more.now
        ≡ None) }
    ensures fault { IfErr result (Refuses (first_port_fault one.now.side.now other.now.side.now
        more.now)) }
{
    compare_both(alloc, one, other)?;
    compare_more(alloc, one, more)
}
