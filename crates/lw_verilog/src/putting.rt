// Names and declarations.
ghost use Rattle.std.specs.Prelude.{◌≡◌, ◌<◌, ◌∷◌, ◌++◌, [], codes, cond, length, map, All};
ghost use Rattle.std.specs.Prelude.{MatchOption};
ghost use Rattle.std.specs.List.{flat_map, list_any};
ghost use Rattle.std.specs.Str.{bytes_eq};
ghost use Rattle.lw_named_netlist.specs.Closing.{is_among};
ghost use Rattle.lw_io.specs.Writers.{Writes};
ghost use Rattle.lw_verilog.specs.Texts.{escaped, further, joined, next_name, declaration};
ghost use Rattle.lw_verilog.specs.Texts.{wire_text, assignment, assignment_text};
ghost use Rattle.lw_netlist.specs.Plain.{port_name};

use crate::known::Known;
use lw_io::{Sink, Writer};
use lw_mapped::name_of;
use lw_netlist::Port;
use lw_pool::Name;

pub(crate) fn put_escaped<S: Sink>(out: &mut Writer<'_, S>, name: &[u8])
    ensures { Writes S.taken S.faults out.old out.new (escaped name.now) }
{
    out.put(b"\\");
    out.put(name);
    out.put(b" ");
}

// A further name of a list.
fn put_next<S: Sink>(out: &mut Writer<'_, S>, name: &[u8])
    ensures { Writes S.taken S.faults out.old out.new (next_name name.now) }
{
    out.put(b", ");
    put_escaped(out, name);
}

fn put_further<S: Sink>(out: &mut Writer<'_, S>, names: &[Name])
    ensures { Writes S.taken S.faults out.old out.new (further names.now) }
{
    for name in names {
        put_next(out, name.as_bytes());
    }
}

fn put_further_ports<S: Sink>(out: &mut Writer<'_, S>, ports: &[Port])
    ensures { Writes S.taken S.faults out.old out.new (further (map port_name ports.now)) }
{
    for port in ports {
        put_next(out, port.name.as_bytes());
    }
}

// The first name, and the others.
fn split_names(names: &[Name]) -> Option<(&[u8], &[Name])>
    ensures { MatchOption result (names.now ≡ [])
        (λ parts. names.now ≡ parts.0.now ∷ parts.1.now) }
{
    match names {
        [first, rest @ ..] => Some((first.as_bytes(), rest)),
        [] => None,
    }
}

// The first port's name, and the other ports.
fn split_ports(ports: &[Port]) -> Option<(&[u8], &[Port])>
    ensures { MatchOption result (map port_name ports.now ≡ [])
        (λ parts. map port_name ports.now ≡ parts.0.now ∷ map port_name parts.1.now) }
{
    match ports {
        [first, rest @ ..] => Some((first.name.as_bytes(), rest)),
        [] => None,
    }
}

// The outputs alone, with commas between.
fn put_outputs_joined<S: Sink>(out: &mut Writer<'_, S>, outputs: &[Port])
    ensures { Writes S.taken S.faults out.old out.new (joined (map port_name outputs.now)) }
{
    if let Some((first, others)) = split_ports(outputs) {
        put_escaped(out, first);
        put_further_ports(out, others);
    }
}

/// The inputs and then the outputs, with commas between.
pub(crate) fn put_joined<S: Sink>(out: &mut Writer<'_, S>, inputs: &[Name], outputs: &[Port])
    ensures { Writes S.taken S.faults out.old out.new
        (joined (inputs.now ++ map port_name outputs.now)) }
{
    match split_names(inputs) {
        Some((first, others)) => {
            put_escaped(out, first);
            put_further(out, others);
            put_further_ports(out, outputs);
        }
        None => put_outputs_joined(out, outputs),
    }
}

fn put_declaration<S: Sink>(out: &mut Writer<'_, S>, keyword: &[u8], name: &[u8])
    ensures { Writes S.taken S.faults out.old out.new (declaration keyword.now name.now) }
{
    out.put(keyword);
    put_escaped(out, name);
    out.put(b";\n");
}

/// A declaration for each name.
pub(crate) fn put_declarations<S: Sink>(out: &mut Writer<'_, S>, keyword: &[u8], names: &[Name])
    ensures { Writes S.taken S.faults out.old out.new
        (flat_map (declaration keyword.now) names.now) }
{
    for name in names {
        put_declaration(out, keyword, name.as_bytes());
    }
}

/// A declaration for each port.
pub(crate) fn put_port_declarations<S: Sink>(
    out: &mut Writer<'_, S>,
    keyword: &[u8],
    ports: &[Port],
)
    ensures { Writes S.taken S.faults out.old out.new
        (flat_map (declaration keyword.now) (map port_name ports.now)) }
{
    for port in ports {
        put_declaration(out, keyword, port.name.as_bytes());
    }
}

fn has_name(ports: &[Port], name: &[u8]) -> bool
    ensures { result ≡ list_any (λ port. bytes_eq name.now port.name) ports.now }
{
    ports.iter().any(|port| name == port.name.as_bytes())
}

/// Whether an output has the name.
pub(crate) fn is_output(outputs: &[Port], name: &[u8]) -> bool
    ensures { result ≡ is_among (map port_name outputs.now) name.now }
{
    has_name(outputs, name)
}

// The declaration of a net, if it has none as an output.
fn put_wire<S: Sink>(out: &mut Writer<'_, S>, known: bool, name: &[u8])
    ensures { Writes S.taken S.faults out.old out.new
        (cond known [] (declaration (codes "wire ") name.now)) }
{
    if !known {
        put_declaration(out, b"wire ", name);
    }
}

/// A declaration for each net that no output has the name of.
pub(crate) fn put_wires<S: Sink>(out: &mut Writer<'_, S>, outputs: &[Port], names: &[Name])
    ensures { Writes S.taken S.faults out.old out.new
        (flat_map (wire_text (map port_name outputs.now)) names.now) }
{
    let mut known = Known::new(names, outputs);
    for (place, name) in names.iter().enumerate() {
        let is_output = known.is_output(names, outputs, place);
        put_wire(out, is_output, name.as_bytes());
    }
}

fn put_assignment<S: Sink>(out: &mut Writer<'_, S>, output: &[u8], net: &[u8])
    ensures { Writes S.taken S.faults out.old out.new (assignment output.now net.now) }
{
    out.put(b"assign ");
    put_escaped(out, output);
    out.put(b"= ");
    put_escaped(out, net);
    out.put(b";\n");
}

fn put_assignment_of<S: Sink>(out: &mut Writer<'_, S>, names: &[Name], port: &Port)
    requires { port.now.net.0 < length names.now }
    ensures { Writes S.taken S.faults out.old out.new (assignment_text names.now port.now) }
{
    let net = name_of(names, port.net);
    let output = port.name.as_bytes();
    if net != output {
        put_assignment(out, output, net);
    }
}

/// An assignment for each output whose net has another name.
pub(crate) fn put_assignments<S: Sink>(out: &mut Writer<'_, S>, names: &[Name], ports: &[Port])
    requires { All (λ port. port.net.0 < length names.now) ports.now }
    ensures { Writes S.taken S.faults out.old out.new
        (flat_map (assignment_text names.now) ports.now) }
{
    for port in ports {
        put_assignment_of(out, names, port);
    }
}
