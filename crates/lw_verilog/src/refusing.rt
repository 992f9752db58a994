// Which netlists have a Verilog text.
ghost use Rattle.std.specs.Prelude.{◌≡◌, ◌<◌, ◌∷◌, [], None, Some, true, false, map, find, All};
ghost use Rattle.std.specs.Prelude.{IfOk, option_map};
ghost use Rattle.std.specs.List.{flat_map, list_all, list_any};
ghost use Rattle.std.specs.Option.{option_or};
ghost use Rattle.lw_named_netlist.specs.Closing.{is_among};
ghost use Rattle.lw_netlist.specs.Plain.{HasCell, IsOver, port_name};
ghost use Rattle.lw_mapped.specs.Texts.{HasNames, names_of_inputs};
ghost use Rattle.lw_verilog.specs.Pieces.{is_visible};
ghost use Rattle.lw_verilog.specs.Sayable.{is_hidden, cell_names, gate_names, first_hidden};
ghost use Rattle.lw_verilog.specs.Sayable.{first_same, has_name, cell_of, clash, cell_tied};
ghost use Rattle.lw_verilog.specs.Sayable.{first_or_none, first_tied, cells_refused};
ghost use Rattle.lw_verilog.specs.Sayable.{netlist_refused, refused};

use crate::NoVerilog;
use crate::pieces::is_visible;
use crate::rules::is_pin;
use indexmap::IndexSet;
use lw_genlib::{Cell, Library};
use lw_netlist::{Gate, Netlist, Port};
use lw_pool::{Frame, Name};
use std::alloc::{AllocError, Global};

fn is_shown(name: &[u8]) -> bool
    ensures { result ≡ list_all is_visible name.now }
{
    name.iter().all(|b| is_visible(*b))
}

fn is_hidden(name: &[u8]) -> bool
    ensures { result ≡ is_hidden name.now }
{
    !is_shown(name)
}

// The name, if it has a byte that no text shows.
fn hidden(name: &Name) -> Option<&Name>
    ensures { option_map (λ n. n.now) result ≡ find is_hidden (name.now ∷ []) }
{
    if is_hidden(name.as_bytes()) {
        return Some(name);
    }
    None
}

fn first_of<'a>(first: Option<&'a Name>, second: Option<&'a Name>) -> Option<&'a Name>
    ensures { option_map (λ n. n.now) result
        ≡ option_or (option_map (λ n. n.now) first.entry) (option_map (λ n. n.now) second.entry) }
{
    match first {
        Some(name) => Some(name),
        None => second,
    }
}

fn hidden_name(names: &[Name]) -> Option<&Name>
    ensures { option_map (λ n. n.now) result ≡ find is_hidden names.now }
{
    for name in names {
        if is_hidden(name.as_bytes()) {
            return Some(name);
        }
    }
    None
}

fn hidden_port(ports: &[Port]) -> Option<&Name>
    ensures { option_map (λ n. n.now) result ≡ find is_hidden (map port_name ports.now) }
{
    for port in ports {
        if is_hidden(port.name.as_bytes()) {
            return Some(&port.name);
        }
    }
    None
}

// The first of the cell, its pins, its output and the net.
fn hidden_of_cell<'a>(cell: &'a Cell, net: &'a Name) -> Option<&'a Name>
    ensures { option_map (λ n. n.now) result ≡ find is_hidden (cell_names net.now (Some cell.now)) }
{
    let behind = first_of(hidden(cell.output()), hidden(net));
    first_of(
        hidden(cell.name()),
        first_of(hidden_name(cell.pins()), behind),
    )
}

fn hidden_of_gate<'a>(names: &'a [Name], lib: &'a Library, gate: &Gate) -> Option<&'a Name>
    requires over { HasCell lib.now gate.now }
    requires named { HasNames names.now gate.now }
    ensures { option_map (λ n. n.now) result
        ≡ find is_hidden (gate_names lib.now names.now gate.now) }
{
    hidden_of_cell(lib.cell(gate.cell), &names[gate.out.0 as usize])
}

fn hidden_gate<'a>(names: &'a [Name], lib: &'a Library, gates: &[Gate]) -> Option<&'a Name>
    requires over { All (HasCell lib.now) gates.now }
    requires named { All (HasNames names.now) gates.now }
    ensures { option_map (λ n. n.now) result
        ≡ find is_hidden (flat_map (gate_names lib.now names.now) gates.now) }
{
    for gate in gates {
        let name = hidden_of_gate(names, lib, gate);
        if name.is_some() {
            return name;
        }
    }
    None
}

// The names of the inputs.
fn input_names(netlist: &Netlist) -> &[Name]
    ensures { result.now ≡ names_of_inputs netlist.now }
{
    &netlist.names()[..netlist.inputs() as usize]
}

fn first_hidden<'a>(netlist: &'a Netlist, lib: &'a Library) -> Option<&'a Name>
    requires { IsOver lib.now netlist.now }
    ensures { option_map (λ n. n.now) result ≡ first_hidden lib.now netlist.now }
{
    let gate = hidden_gate(netlist.names(), lib, netlist.gates());
    let port = first_of(hidden_port(netlist.outputs()), gate);
    let input = first_of(hidden_name(input_names(netlist)), port);
    first_of(hidden(netlist.model()), input)
}

// The names as a set.
fn set_of(alloc: Global, names: &[Name]) -> Result<IndexSet<Name>, AllocError>
    ensures { IfOk result (λ set. (name : _) → is_among set.keys name ≡ is_among names.now name) }
{
    let mut set = IndexSet::new(alloc);
    for name in names {
        let Ok(_) = set.insert(Name::from_slice(alloc, name.as_bytes())?) else {
            return Err(AllocError);
        };
    }
    Ok(set)
}

fn has(set: &IndexSet<Name>, name: &Name) -> bool
    ensures { result ≡ is_among set.now.keys name.now }
{
    set.contains(name)
}

// The first port with a name of the set.
fn port_in<'a>(set: &IndexSet<Name>, ports: &'a [Port]) -> Option<&'a Name>
    ensures { option_map (λ n. n.now) result
        ≡ find (is_among set.now.keys) (map port_name ports.now) }
{
    for port in ports {
        if has(set, &port.name) {
            return Some(&port.name);
        }
    }
    None
}

fn first_same(alloc: Global, netlist: &Netlist) -> Result<Option<&Name>, AllocError>
    ensures { IfOk result (λ name. option_map (λ n. n.now) name ≡ first_same netlist.now) }
{
    let inputs = set_of(alloc, input_names(netlist))?;
    Ok(port_in(&inputs, netlist.outputs()))
}

fn is_cell(lib: &Library, gate: &Gate, name: &[u8]) -> bool
    requires { HasCell lib.now gate.now }
    ensures { result ≡ has_name name.now (cell_of lib.now gate.now) }
{
    name == lib.cell(gate.cell).name().as_bytes()
}

// Whether a gate's cell has the name.
fn has_cell(lib: &Library, gates: &[Gate], name: &[u8]) -> bool
    requires { All (HasCell lib.now) gates.now }
    ensures { result ≡ list_any (λ gate. has_name name.now (cell_of lib.now gate)) gates.now }
{
    for gate in gates {
        if is_cell(lib, gate, name) {
            return true;
        }
    }
    false
}

// The gate's cell, if its output has the name of a pin.
fn tied<'a>(lib: &'a Library, gate: &Gate) -> Option<&'a Name>
    requires { HasCell lib.now gate.now }
    ensures { option_map (λ n. n.now) result
        ≡ first_or_none (cell_tied (cell_of lib.now gate.now)) }
{
    let cell = lib.cell(gate.cell);
    if is_pin(cell.pins(), cell.output().as_bytes()) {
        return Some(cell.name());
    }
    None
}

fn first_tied<'a>(lib: &'a Library, gates: &[Gate]) -> Option<&'a Name>
    requires { All (HasCell lib.now) gates.now }
    ensures { option_map (λ n. n.now) result
        ≡ first_or_none (flat_map (λ gate. cell_tied (cell_of lib.now gate)) gates.now) }
{
    for gate in gates {
        let name = tied(lib, gate);
        if name.is_some() {
            return name;
        }
    }
    None
}

// The model, if a gate's cell has its name.
fn model_of_cell<'a>(netlist: &'a Netlist, lib: &Library) -> Option<&'a Name>
    requires { IsOver lib.now netlist.now }
    ensures { option_map (λ n. n.now) result ≡ clash lib.now netlist.now }
{
    let model = netlist.model();
    if has_cell(lib, netlist.gates(), model.as_bytes()) {
        return Some(model);
    }
    None
}

fn copy(alloc: Global, name: &Name) -> Result<Name, AllocError>
    ensures { IfOk result (λ copy. copy ≡ name.now) }
{
    Name::from_slice(alloc, name.as_bytes())
}

// The first test of the cells by which a netlist has no text.
fn cells_refused(
    alloc: Global,
    netlist: &Netlist,
    lib: &Library,
) -> Result<Option<NoVerilog>, AllocError>
    requires { IsOver lib.now netlist.now }
    ensures { IfOk result (λ reason. reason ≡ cells_refused lib.now netlist.now) }
{
    if let Some(name) = model_of_cell(netlist, lib) {
        return Ok(Some(NoVerilog::Clash(copy(alloc, name)?)));
    }
    if let Some(name) = first_tied(lib, netlist.gates()) {
        return Ok(Some(NoVerilog::Pins(copy(alloc, name)?)));
    }
    Ok(None)
}

// The first test by which a netlist without latches has no text.
fn netlist_refused(
    alloc: Global,
    netlist: &Netlist,
    lib: &Library,
) -> Result<Option<NoVerilog>, AllocError>
    requires { IsOver lib.now netlist.now }
    ensures { IfOk result (λ reason. reason ≡ netlist_refused lib.now netlist.now) }
{
    if let Some(name) = first_hidden(netlist, lib) {
        return Ok(Some(NoVerilog::Bytes(copy(alloc, name)?)));
    }
    if let Some(name) = first_same(alloc, netlist)? {
        return Ok(Some(NoVerilog::Same(copy(alloc, name)?)));
    }
    cells_refused(alloc, netlist, lib)
}

/// The first reason why a netlist with this frame has no Verilog text, or none: latches; a name
/// with a byte outside 33 to 126, by the model, the inputs, the outputs, and each gate's cell,
/// pins, output and net; an output with an input's name; a model with the name of a gate's cell; a
/// gate's cell whose output has the name of a pin. The library and the frame are the netlist's.
pub fn sayable(
    alloc: Global,
    netlist: &Netlist,
    lib: &Library,
    frame: &Frame,
) -> Result<Option<NoVerilog>, AllocError>
    requires { IsOver lib.now netlist.now }
    ensures { IfOk result (λ reason. reason ≡ refused lib.now netlist.now frame.now) }
{
    if frame.latches.len() > 0 {
        return Ok(Some(NoVerilog::Latches));
    }
    netlist_refused(alloc, netlist, lib)
}
