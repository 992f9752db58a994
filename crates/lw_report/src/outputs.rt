// The values of outputs, a line for each vector.
ghost use Rattle.std.specs.Prelude.{◌≡◌, ◌<◌, [], ◌∷◌, length, map, All};
ghost use Rattle.std.specs.List.{flat_map, range_with_len};
ghost use Rattle.lw_io.specs.Writers.{Writes};
ghost use Rattle.lw_genlib.specs.Words.{bit};
ghost use Rattle.lw_report.specs.Blocks.{bits_at};
ghost use Rattle.lw_report.specs.Simulated.{digit, value_line, port_net};

use lw_io::{Sink, Writer};
use lw_netlist::Port;
use lw_pool::NetId;

// Whether bit k of a word is set.
fn is_set(word: u64, k: u32) -> bool
    ensures { result ≡ bit k word }
{
    if k >= 64 {
        return false;
    }
    word >> k & 1 == 1
}

// The value in vector k, as a digit.
fn put_value<S: Sink>(out: &mut Writer<'_, S>, word: u64, k: u32)
    ensures { Writes S.taken S.faults out.old out.new (digit (bit k word) ∷ []) }
{
    if is_set(word, k) {
        out.put(b"1");
    } else {
        out.put(b"0");
    }
}

// The line of the nets' values in vector k.
fn put_nets<S: Sink>(out: &mut Writer<'_, S>, outputs: &[NetId], nets: &[u64], k: u32)
    requires { All (λ net. net.0 < length nets.now) outputs.now }
    ensures { Writes S.taken S.faults out.old out.new
        (value_line (bits_at k nets.now) outputs.now) }
{
    for net in outputs {
        put_value(out, nets[net.0 as usize], k);
    }
    out.put(b"\n");
}

// The line of the ports' values in vector k.
fn put_ports<S: Sink>(out: &mut Writer<'_, S>, outputs: &[Port], nets: &[u64], k: u32)
    requires { All (λ port. port.net.0 < length nets.now) outputs.now }
    ensures { Writes S.taken S.faults out.old out.new
        (value_line (bits_at k nets.now) (map port_net outputs.now)) }
{
    for port in outputs {
        put_value(out, nets[port.net.0 as usize], k);
    }
    out.put(b"\n");
}

// The lines of so many vectors.
pub(crate) fn put_net_lines<S: Sink>(
    out: &mut Writer<'_, S>,
    outputs: &[NetId],
    nets: &[u64],
    count: u32,
)
    requires { All (λ net. net.0 < length nets.now) outputs.now }
    ensures { Writes S.taken S.faults out.old out.new
        (flat_map (λ k. value_line (bits_at k nets.now) outputs.now) (range_with_len 0 count)) }
{
    for k in 0..count {
        put_nets(out, outputs, nets, k);
    }
}

// The lines of so many vectors.
pub(crate) fn put_port_lines<S: Sink>(
    out: &mut Writer<'_, S>,
    outputs: &[Port],
    nets: &[u64],
    count: u32,
)
    requires { All (λ port. port.net.0 < length nets.now) outputs.now }
    ensures { Writes S.taken S.faults out.old out.new
        (flat_map (λ k. value_line (bits_at k nets.now) (map port_net outputs.now))
        (range_with_len 0 count)) }
{
    for k in 0..count {
        put_ports(out, outputs, nets, k);
    }
}
