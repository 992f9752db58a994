// Whether each gate is a match at the class of its net.
ghost use Rattle.std.specs.Prelude.{◌≡◌, ◌↔◌, ◌<◌, ◌≤◌, IfOk, IfSome, IsTrue, Some, length};
ghost use Rattle.std.specs.Prelude.{option_map, slice_get};
ghost use Rattle.lw_netlist.specs.declared.gate.Gate.{Gate as NetGate};
ghost use Rattle.lw_netlist.specs.Plain.{HasCell};
ghost use Rattle.lw_mapped.specs.Texts.{net_name};
ghost use Rattle.lw_check.specs.Cases.{claim_of, PassesClasses, Tells};
ghost use Rattle.lw_check.specs.Claims.{AreMatches, class_number, class_of_net, HasKnownClasses};
ghost use Rattle.lw_check.specs.Claims.{IsMatchGate};
ghost use Rattle.lw_check.specs.Gates.{AreClassesOf, FindsMatch, FindsNoMatch, IsMatchBy};
ghost use Rattle.lw_check.specs.Spans.{AreSpans};
ghost use Rattle.lw_check.specs.Standing.{AreWithin};
ghost use Rattle.lw_pool.specs.Numbers.{numbers};

use crate::Reason;
use crate::case::Case;
use crate::spans::{Span, spans_of};
use crate::standing::class_of_pattern;
use lw_cost::Pins;
use lw_netlist::Gate;
use lw_pool::{CellId, ClassId, Name, NetId, PatId};
use std::alloc::{AllocError, Global};

// The class of a net: that of its input, or what the certificate gives its gate, if it gives one.
pub(crate) fn class_of_net(case: &Case, net: NetId) -> Option<ClassId>
    ensures class { option_map class_number result ≡ class_of_net (claim_of case.now) net }
    ensures within { HasKnownClasses (claim_of case.now) →
        IfSome result (λ class. class.0 < length case.now.graph.now.pairs) }
{
    let inputs = case.graph.inputs();
    if net.0 < inputs {
        return Some(case.graph.leaf(net.0));
    }
    let place = (net.0 - inputs) as usize;
    let nets = case.mapped.cert.nets.as_slice();
    if place < nets.len() {
        return nets[place];
    }
    None
}

// The classes of the nets of pins, and none if a net has no class.
fn classes_of_pins(case: &Case, pins: &[NetId]) -> Option<Pins>
    requires few { length pins.now ≤ 16 }
    requires classes { HasKnownClasses (claim_of case.now) }
    ensures classes { AreClassesOf (claim_of case.now) pins.now result }
    ensures within { IfSome result (AreWithin case.now.graph.now) }
{
    let mut classes = Pins::new();
    for pin in pins {
        let Some(class) = class_of_net(case, *pin) else {
            return None;
        };
        classes.push(class);
    }
    Some(classes)
}

// Whether there is a class, and it is this one.
pub(crate) fn is_class(found: Option<ClassId>, class: ClassId) -> bool
    ensures { IsTrue result ↔ (option_map class_number found ≡ Some class.0) }
{
    match found {
        Some(found) => found == class,
        None => false,
    }
}

// Whether the pattern with the index `place` is of the cell and stands at the class with its pins
// at these classes.
fn is_match_by(case: &Case, place: u32, cell: CellId, pins: &[ClassId], class: ClassId) -> bool
    requires place { place < length case.now.pats.now }
    requires pins { AreWithin case.now.graph.now pins.now }
    ensures { IsTrue result ↔ IsMatchBy (claim_of case.now) place cell (numbers pins.now) class }
{
    let pattern = case.pats.get(PatId(place));
    pattern.cell == cell && is_class(class_of_pattern(case.graph, &pattern.nodes, pins), class)
}

// Whether a pattern in the span is of the cell and stands at the class with its pins at these
// classes.
fn is_match_in(case: &Case, span: Span, cell: CellId, pins: &[ClassId], class: ClassId) -> bool
    requires end { span.end ≤ length case.now.pats.now }
    requires pins { AreWithin case.now.graph.now pins.now }
    ensures { FindsMatch (claim_of case.now) span cell (numbers pins.now) class result }
{
    for place in span.first..span.end {
        if is_match_by(case, place, cell, pins, class) {
            return true;
        }
    }
    false
}

// Whether a gate is a match at the class of its net, by a pattern in the span of its cell.
fn is_match(case: &Case, spans: &[Span], gate: &Gate) -> bool
    requires classes { HasKnownClasses (claim_of case.now) }
    requires cell { HasCell case.now.lib.now gate.now }
    requires spans { AreSpans (length case.now.lib.now) case.now.pats.now spans.now }
    ensures { IsTrue result ↔ IsMatchGate (claim_of case.now) gate.now }
{
    let _ = case.lib.len();
    let Some(class) = class_of_net(case, gate.out) else {
        return false;
    };
    let Some(pins) = classes_of_pins(case, gate.pins.as_slice()) else {
        return false;
    };
    let span = spans[gate.cell.0 as usize];
    is_match_in(case, span, gate.cell, pins.as_slice(), class)
}

// The place, from 0, of the first gate that is no match, and none if each is one.
fn first_no_match(case: &Case, spans: &[Span]) -> Option<usize>
    requires passed { PassesClasses (claim_of case.now) }
    requires spans { AreSpans (length case.now.lib.now) case.now.pats.now spans.now }
    ensures { FindsNoMatch (claim_of case.now) result }
{
    for (place, gate) in case.mapped.netlist.gates().iter().enumerate() {
        if !is_match(case, spans, gate) {
            return Some(place);
        }
    }
    None
}

// The name of the net that the gate at a place drives.
fn name_of_gate(alloc: Global, case: &Case, place: usize) -> Result<Name, AllocError>
    requires { place < length case.now.mapped.now.netlist.gates }
    ensures { IfOk result (λ name. (gate : NetGate) →
        slice_get case.now.mapped.now.netlist.gates place ≡ Some gate →
        net_name case.now.mapped.now.netlist.names gate.out ≡ name) }
{
    let netlist = &case.mapped.netlist;
    let out = netlist.gates()[place].out;
    Name::from_slice(alloc, netlist.names()[out.0 as usize].as_bytes())
}

// The third test: the reason against the first gate that is no match, or none.
pub(crate) fn gate_reason(alloc: Global, case: &Case) -> Result<Option<Reason>, AllocError>
    requires { PassesClasses (claim_of case.now) }
    ensures { IfOk result (Tells (claim_of case.now) (AreMatches (claim_of case.now))) }
{
    let spans = spans_of(alloc, case.lib.len() as usize, case.pats)?;
    match first_no_match(case, &spans) {
        Some(place) => Ok(Some(Reason::NotMatch(name_of_gate(alloc, case, place)?))),
        None => Ok(None),
    }
}
