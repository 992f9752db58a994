// The six tests, in order.
ghost use Rattle.std.specs.Prelude.{◌≡◌, ◌≤◌, All, IfOk, length};
ghost use Rattle.lw_genlib.specs.Cells.{IsSmall};
ghost use Rattle.lw_label.specs.Delays.{time_cost};
ghost use Rattle.lw_cost.specs.Least.{AreOfCells};
ghost use Rattle.lw_netlist.specs.Netlists.{most_gates};
ghost use Rattle.lw_netlist.specs.Plain.{IsOver};
ghost use Rattle.lw_mapped.specs.Standing.{AreLabels};
ghost use Rattle.lw_check.specs.Cases.{claim_of, IsAskable, Tells};
ghost use Rattle.lw_check.specs.Verdicts.{IsVerdict, IsVerdictOn};
ghost use Rattle.lw_check.specs.declared.verdict.Verdict.TheVariants.{Yes};

use crate::case::Case;
use crate::classes::first_unknown;
use crate::gates::gate_reason;
use crate::labels::label_reason;
use crate::outputs::{arrival_reason, root_reason};
use crate::ports::has_same_ports;
use crate::{Reason, Verdict};
use lw_fixed::Micros;
use lw_genlib::Library;
use lw_graph::Graph;
use lw_mapped::Mapped;
use lw_net::Network;
use lw_pattern::Patterns;
use lw_pool::{Classes, Frame};
use std::alloc::{AllocError, Global};

// The reason of the first test that fails, and none where no test does.
fn first_reason(alloc: Global, case: &Case) -> Result<Option<Reason>, AllocError>
    requires { IsAskable (claim_of case.now) }
    ensures { IfOk result (Tells (claim_of case.now) (IsVerdictOn (claim_of case.now) Yes)) }
{
    if !has_same_ports(case) {
        return Ok(Some(Reason::Ports));
    }
    if let Some(class) = first_unknown(case) {
        return Ok(Some(Reason::Class(class)));
    }
    if let Some(reason) = gate_reason(alloc, case)? {
        return Ok(Some(reason));
    }
    if let Some(reason) = label_reason(alloc, case)? {
        return Ok(Some(reason));
    }
    if let Some(reason) = root_reason(alloc, case)? {
        return Ok(Some(reason));
    }
    arrival_reason(alloc, case)
}

/// Whether a netlist, which was read with its frame and certificate and whoever wrote it, is a
/// fastest mapping of a network. The graph is that of the network's forms, the roots are the
/// classes of its outputs' sums of products, and the starts are those of its inputs.
///
/// Six tests come in order, and the first that fails gives the reason. The netlist has the
/// network's ports and frame. The class numbers of the certificate are those of classes. Each gate
/// is a match at the class of its net. The labels are a potential: no class lacks a label, or has
/// one above what a match at it or an input of it costs. Each output's net is at its root. Each
/// output arrives at the label of its root. The graph's index makes it fast.
pub fn check(
    alloc: Global,
    net: &Network,
    frame: &Frame,
    starts: &Micros,
    lib: &Library,
    graph: &Graph,
    pats: &Patterns,
    roots: &Classes,
    mapped: &Mapped,
) -> Result<Verdict, AllocError>
    requires over { IsOver lib.now mapped.now.netlist }
    requires of_cells { AreOfCells (time_cost lib.now starts.now).pin_counts pats.now }
    requires one_leaf { length graph.now.leaves ≡ net.now.inputs }
    requires one_start { length starts.now ≡ net.now.inputs }
    requires early { All IsSmall starts.now }
    requires one_root { length roots.now ≡ length net.now.outputs }
    requires few_gates { length mapped.now.netlist.gates ≤ most_gates }
    requires one_class { length mapped.now.cert.nets ≡ length mapped.now.netlist.gates }
    requires labels { AreLabels mapped.now.cert }
    ensures { IfOk result (IsVerdict net.now frame.now starts.now lib.now graph.now pats.now
        roots.now mapped.now) }
{
    let case = Case {
        net,
        frame,
        starts,
        lib,
        graph,
        pats,
        roots,
        mapped,
    };
    match first_reason(alloc, &case)? {
        Some(reason) => Ok(Verdict::No(reason)),
        None => Ok(Verdict::Yes),
    }
}
