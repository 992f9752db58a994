// Whether each output's net is at its class, and arrives at the label of the class.
ghost use Rattle.std.specs.Prelude.{◌≡◌, ◌↔◌, ◌<◌, IfOk, IsTrue, Some, length, slice_get};
ghost use Rattle.lw_check.specs.Cases.{claim_of, IsAskable, PassesLabels, PassesRoots, Tells};
ghost use Rattle.lw_check.specs.Claims.{AreAtRoots, AreOnTime, HasSamePorts};
ghost use Rattle.lw_check.specs.Outputs.{ArriveAt, FindsOffRoot, FindsOffTime, label_of_net};

use crate::Reason;
use crate::case::Case;
use crate::gates::{class_of_net, is_class};
use crate::labels::label_of;
use lw_fixed::Micro;
use lw_netlist::Port;
use lw_pool::{Name, NetId};
use std::alloc::{AllocError, Global};

// The place, from 0, of the first output whose net is at another class than the output's root.
fn first_off_root(case: &Case) -> Option<usize>
    requires { length case.now.roots.now ≡ length case.now.mapped.now.netlist.outputs }
    ensures { FindsOffRoot (claim_of case.now) result }
{
    for (place, port) in case.mapped.netlist.outputs().iter().enumerate() {
        if !is_class(class_of_net(case, port.net), case.roots.get(place)) {
            return Some(place);
        }
    }
    None
}

// The output at a place.
fn output_at<'a>(case: &'a Case, place: usize) -> &'a Port
    requires { place < length case.now.mapped.now.netlist.outputs }
    ensures { slice_get case.now.mapped.now.netlist.outputs place ≡ Some result.now }
{
    &case.mapped.netlist.outputs()[place]
}

// The fifth test: the reason against the first output whose net is at another class than the
// output's root, or none.
pub(crate) fn root_reason(alloc: Global, case: &Case) -> Result<Option<Reason>, AllocError>
    requires { PassesLabels (claim_of case.now) }
    ensures { IfOk result (Tells (claim_of case.now) (AreAtRoots (claim_of case.now))) }
{
    let _ = case.net.inputs();
    let _ = case.mapped.netlist.outputs();
    let Some(place) = first_off_root(case) else {
        return Ok(None);
    };
    let port = output_at(case, place);
    let name = Name::from_slice(alloc, port.name.as_bytes())?;
    match class_of_net(case, port.net) {
        Some(found) => Ok(Some(Reason::Root(name, found, case.roots.get(place)))),
        None => Ok(None),
    }
}

// The label of the class of a net, and none if the net has no class or that no label.
fn label_of_net(case: &Case, net: NetId) -> Option<Micro>
    ensures { result ≡ label_of_net (claim_of case.now) net }
{
    match class_of_net(case, net) {
        Some(class) => label_of(case.mapped.cert.labels.as_slice(), class),
        None => None,
    }
}

// Whether there is a label, and it is this arrival.
fn is_label(label: Option<Micro>, arrival: Micro) -> bool
    ensures { IsTrue result ↔ (label ≡ Some arrival) }
{
    match label {
        Some(label) => label == arrival,
        None => false,
    }
}

// The place, from 0, of the first output that arrives at another time than the label of its class.
// `arrivals` has the arrival of each net.
fn first_off_time(case: &Case, arrivals: &[Micro]) -> Option<usize>
    requires { ArriveAt (claim_of case.now) arrivals.now }
    ensures { FindsOffTime (claim_of case.now) result }
{
    for (place, port) in case.mapped.netlist.outputs().iter().enumerate() {
        let label = label_of_net(case, port.net);
        if !is_label(label, arrivals[port.net.0 as usize]) {
            return Some(place);
        }
    }
    None
}

// When each net of the netlist arrives, in millionths, by its number.
fn arrivals_of(alloc: Global, case: &Case) -> Result<Vec<Micro>, AllocError>
    requires askable { IsAskable (claim_of case.now) }
    requires ports { HasSamePorts (claim_of case.now) }
    ensures { IfOk result (λ arrivals. ArriveAt (claim_of case.now) arrivals.items) }
{
    let netlist = &case.mapped.netlist;
    let _ = case.net.inputs();
    let mut arrivals = vec![in alloc; Micro(0); netlist.names().len()]?;
    netlist.arrivals(case.lib, case.starts, &mut arrivals);
    Ok(arrivals)
}

// The sixth test: the reason against the first output that arrives at another time than the label
// of its class, or none.
pub(crate) fn arrival_reason(alloc: Global, case: &Case) -> Result<Option<Reason>, AllocError>
    requires { PassesRoots (claim_of case.now) }
    ensures { IfOk result (Tells (claim_of case.now) (AreOnTime (claim_of case.now))) }
{
    let _ = case.net.inputs();
    let _ = case.mapped.netlist.outputs();
    let arrivals = arrivals_of(alloc, case)?;
    let Some(place) = first_off_time(case, &arrivals) else {
        return Ok(None);
    };
    let port = output_at(case, place);
    let name = Name::from_slice(alloc, port.name.as_bytes())?;
    match label_of_net(case, port.net) {
        Some(label) => Ok(Some(Reason::Value(name, arrivals[port.net.0 as usize], label))),
        None => Ok(None),
    }
}
