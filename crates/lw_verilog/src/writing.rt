// The Verilog text of a netlist.
ghost use Rattle.std.specs.Prelude.{◌≡◌, ◌<◌, ◌+◌, drop, length, Some, All};
ghost use Rattle.lw_io.specs.Waitings.{IsTaken};
ghost use Rattle.lw_io.specs.Writers.{Writes};
ghost use Rattle.lw_netlist.specs.Plain.{HasCell, IsOver};
ghost use Rattle.lw_mapped.specs.Texts.{HasNames, names_of_inputs};
ghost use Rattle.lw_verilog.specs.Named.{names_in, net_limit};
ghost use Rattle.lw_verilog.specs.Texts.{tie_text, pins_text, instance_name, gate_line, gate_text};
ghost use Rattle.lw_verilog.specs.Texts.{gates_text, header_text, verilog_text};

use crate::putting::{
    put_assignments, put_declarations, put_escaped, put_joined, put_port_declarations, put_wires,
};
use crate::taken::{AllNames, Taken, skipped};
use itoa::Buffer;
use lw_genlib::{Cell, Library};
use lw_io::{Failed, Sink, Writer};
use lw_mapped::name_of;
use lw_netlist::{Gate, Netlist, Port};
use lw_pool::{Name, NetId};

fn put_tie<S: Sink>(out: &mut Writer<'_, S>, formal: &[u8], net: &[u8])
    ensures { Writes S.taken S.faults out.old out.new (tie_text formal.now net.now) }
{
    out.put(b".");
    put_escaped(out, formal);
    out.put(b"(");
    put_escaped(out, net);
    out.put(b")");
}

// The pins with their nets.
fn put_pins<S: Sink>(out: &mut Writer<'_, S>, names: &[Name], pins: &[Name], nets: &[NetId])
    requires one_each { length nets.now ≡ length pins.now }
    requires named { All (λ net. net.0 < length names.now) nets.now }
    ensures { Writes S.taken S.faults out.old out.new (pins_text names.now pins.now nets.now) }
{
    for (k, pin) in pins.iter().enumerate() {
        put_tie(out, pin.as_bytes(), name_of(names, nets[k]));
        out.put(b", ");
    }
}

fn put_instance_name<S: Sink>(out: &mut Writer<'_, S>, number: u64)
    ensures { Writes S.taken S.faults out.old out.new (instance_name number) }
{
    let mut digits = Buffer::new();
    out.put(b"u");
    out.put(digits.format(number).as_bytes());
}

fn put_gate<S: Sink>(out: &mut Writer<'_, S>, names: &[Name], number: u64, gate: &Gate, cell: &Cell)
    requires one_each { length gate.now.pins ≡ length cell.now.pins }
    requires named { HasNames names.now gate.now }
    ensures { Writes S.taken S.faults out.old out.new
        (gate_line names.now number gate.now (Some cell.now)) }
{
    put_escaped(out, cell.name().as_bytes());
    put_instance_name(out, number);
    out.put(b" (");
    put_pins(out, names, cell.pins(), gate.pins.as_slice());
    put_tie(out, cell.output().as_bytes(), name_of(names, gate.out));
    out.put(b");\n");
}

fn put_gate_of<S: Sink>(
    out: &mut Writer<'_, S>,
    names: &[Name],
    lib: &Library,
    number: u64,
    gate: &Gate,
)
    requires over { HasCell lib.now gate.now }
    requires named { HasNames names.now gate.now }
    ensures { Writes S.taken S.faults out.old out.new
        (gate_text lib.now names.now number gate.now) }
{
    put_gate(out, names, number, gate, lib.cell(gate.cell));
}

// How many names and gates there are together, and one more.
fn room(all: &AllNames, gates: &[Gate]) -> u64
    requires { length all.now.names.now < net_limit }
    ensures { result
        ≡ length all.now.names.now + length all.now.outputs.now + length gates.now + 1 }
{
    all.names.len() as u64 + all.outputs.len() as u64 + gates.len() as u64 + 1
}

fn put_gates<S: Sink>(out: &mut Writer<'_, S>, all: &AllNames, lib: &Library, gates: &[Gate])
    requires over { All (HasCell lib.now) gates.now }
    requires named { All (HasNames all.now.names.now) gates.now }
    requires few { length all.now.names.now < net_limit }
    ensures { Writes S.taken S.faults out.old out.new (gates_text lib.now all.now.names.now
        (names_in all.now) (length (names_in all.now)) 1 gates.now) }
{
    // This sum fits 64 bits, so no number of an instance overflows below.
    let _room = room(all, gates);
    let mut taken = Taken::new(all);
    let mut most = all.names.len() as u64 + all.outputs.len() as u64;
    let mut number: u64 = 1;
    for gate in gates {
        let count = skipped(&mut taken, all, most, number);
        put_gate_of(out, all.names, lib, number + count, gate);
        most -= count;
        number += count + 1;
    }
}

// The names of the inputs.
fn input_names(netlist: &Netlist) -> &[Name]
    ensures { result.now ≡ names_of_inputs netlist.now }
{
    &netlist.names()[..netlist.inputs() as usize]
}

// The names of what the gates drive.
fn gate_nets(netlist: &Netlist) -> &[Name]
    ensures { result.now ≡ drop netlist.now.inputs netlist.now.names }
{
    &netlist.names()[netlist.inputs() as usize..]
}

fn put_header<S: Sink>(out: &mut Writer<'_, S>, netlist: &Netlist)
    ensures { Writes S.taken S.faults out.old out.new (header_text netlist.now) }
{
    out.put(b"module ");
    put_escaped(out, netlist.model().as_bytes());
    out.put(b"(");
    put_joined(out, input_names(netlist), netlist.outputs());
    out.put(b");\n");
}

// The whole text.
fn put_text<S: Sink>(out: &mut Writer<'_, S>, netlist: &Netlist, lib: &Library)
    requires { IsOver lib.now netlist.now }
    ensures { Writes S.taken S.faults out.old out.new (verilog_text lib.now netlist.now) }
{
    let names = netlist.names();
    let outputs = netlist.outputs();
    put_header(out, netlist);
    put_declarations(out, b"input ", input_names(netlist));
    put_port_declarations(out, b"output ", outputs);
    put_wires(out, outputs, gate_nets(netlist));
    put_gates(out, &AllNames { names, outputs }, lib, netlist.gates());
    put_assignments(out, names, outputs);
    out.put(b"endmodule\n");
}

/// Writes a netlist of the library's cells as structural Verilog. All names but those of instances
/// are escaped; an instance is named `u` and a number, so that no net and no port has its name. It
/// takes no memory. The text is that of a netlist which `sayable` does not refuse; of another
/// netlist it may be read as something else.
pub fn write_verilog<S: Sink>(netlist: &Netlist, lib: &Library, sink: &mut S) -> Result<(), Failed>
    requires { IsOver lib.now netlist.now }
    ensures { IsTaken (S.taken sink.old) (S.faults sink.old) (S.taken sink.new) (S.faults sink.new)
        (verilog_text lib.now netlist.now) result }
{
    let mut out = Writer::new(sink);
    put_text(&mut out, netlist, lib);
    out.end()
}
