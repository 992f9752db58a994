// The texts of reasons.
ghost use Rattle.std.specs.Prelude.{◌≡◌};
ghost use Rattle.lw_io.specs.Writers.{Writes};
ghost use Rattle.lw_top.specs.Reasons.{label_text, label_reason, root_reason, value_reason};
ghost use Rattle.lw_top.specs.Reasons.{reason_text, no_verilog_text, verilog_kind_text};

use lw_files::{put_count, put_number, put_three, put_time};
use lw_fixed::Micro;
use lw_io::{Sink, Writer};
use lw_map::Reason;
use lw_pool::{ClassId, Name};
use lw_verilog::{NoVerilog, VerilogKind};

// Writes a label as a decimal, `none` if there is none.
fn put_label<S: Sink>(out: &mut Writer<'_, S>, label: Option<Micro>)
    ensures { Writes S.taken S.faults out.old out.new (label_text label) }
{
    match label {
        None => out.put(b"none"),
        Some(label) => put_time(out, label),
    }
}

// Writes that the label of a class is no bound: a match at it, or an input of it, gives less.
fn put_label_reason<S: Sink>(
    out: &mut Writer<'_, S>,
    class: ClassId,
    label: Option<Micro>,
    value: Micro,
)
    ensures { Writes S.taken S.faults out.old out.new (label_reason class.0 label value.0) }
{
    out.put(b"label of class ");
    put_number(out, u128::from(class.0));
    out.put(b" is ");
    put_label(out, label);
    out.put(b", a match gives ");
    put_time(out, value);
}

// Writes that the net of an output is of the class `found`, and not of `root`, its class in the
// network.
fn put_root_reason<S: Sink>(out: &mut Writer<'_, S>, name: &Name, found: ClassId, root: ClassId)
    ensures { Writes S.taken S.faults out.old out.new (root_reason name.now found.0 root.0) }
{
    out.put(b"output ");
    out.put(name.as_bytes());
    out.put(b" is of class ");
    put_number(out, u128::from(found.0));
    out.put(b", not ");
    put_number(out, u128::from(root.0));
}

// Writes that an output arrives at another time than its label.
fn put_value_reason<S: Sink>(out: &mut Writer<'_, S>, name: &Name, arrival: Micro, label: Micro)
    ensures { Writes S.taken S.faults out.old out.new (value_reason name.now arrival.0 label.0) }
{
    out.put(b"output ");
    out.put(name.as_bytes());
    out.put(b" arrives at ");
    put_time(out, arrival);
    out.put(b", its label is ");
    put_time(out, label);
}

/// Writes why a check says no.
pub fn put_reason<S: Sink>(out: &mut Writer<'_, S>, reason: &Reason)
    ensures { Writes S.taken S.faults out.old out.new (reason_text reason.now) }
{
    match reason {
        Reason::Ports => out.put(b"ports differ"),
        Reason::Class(class) => put_count(
            out,
            b"class ",
            u128::from(*class),
            b" is not in the graph",
        ),
        Reason::NotMatch(net) => put_three(out, b"gate ", net.as_bytes(), b" is no match"),
        Reason::Label(class, label, value) => put_label_reason(out, *class, *label, *value),
        Reason::Root(name, found, root) => put_root_reason(out, name, *found, *root),
        Reason::Value(name, arrival, label) => put_value_reason(out, name, *arrival, *label),
    }
}

/// Writes why a mapped netlist has no text in Verilog.
pub(crate) fn put_no_verilog<S: Sink>(out: &mut Writer<'_, S>, why: &NoVerilog)
    ensures { Writes S.taken S.faults out.old out.new (no_verilog_text why.now) }
{
    match why {
        NoVerilog::Latches => out.put(b"latches"),
        NoVerilog::Bytes(name) => {
            put_three(
                out,
                b"name ",
                name.as_bytes(),
                b" has a byte outside 33 to 126",
            )
        }
        NoVerilog::Same(name) => put_three(out, b"output ", name.as_bytes(), b" is an input"),
        NoVerilog::Clash(name) => put_three(out, b"model ", name.as_bytes(), b" is a cell"),
        NoVerilog::Pins(name) => {
            put_three(
                out,
                b"cell ",
                name.as_bytes(),
                b" has one name for two pins",
            )
        }
    }
}

/// The text of the rule that a line of a netlist in Verilog breaks.
pub(crate) fn verilog_kind_text(kind: &VerilogKind) -> &[u8]
    ensures { result.now ≡ verilog_kind_text kind.now }
{
    match kind {
        VerilogKind::BadByte => b"byte not allowed",
        VerilogKind::BadName => b"bad name",
        VerilogKind::Expected => b"something else expected",
        VerilogKind::NoCell => b"no such cell",
        VerilogKind::PinUnknown => b"no such pin",
        VerilogKind::PinTwice => b"pin given twice",
        VerilogKind::PinMissing => b"pin not given",
        VerilogKind::Port => b"port not declared once",
    }
}
