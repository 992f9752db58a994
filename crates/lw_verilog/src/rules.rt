// The rules that names break.
ghost use Rattle.std.specs.Prelude.{◌≡◌, ◌<◌, true, false, None, Some, [], length, replicate, drop};
ghost use Rattle.std.specs.Prelude.{option_map, ◌&&◌, Contains, IfOk, MatchOption, slice_get};
ghost use Rattle.std.specs.Prelude.{slice_index_or};
ghost use Rattle.std.specs.List.{list_all, list_any};
ghost use Rattle.std.specs.Option.{option_or};
ghost use Rattle.std.specs.Str.{bytes_eq};
ghost use Rattle.lw_genlib.specs.Cells.{names_of};
ghost use Rattle.lw_named_netlist.specs.Closing.{is_among};
ghost use Rattle.lw_verilog.specs.Raising.{RaisesPorts};
ghost use Rattle.lw_verilog.specs.Readings.{has_hash, name_fault, declared_fault, cell_fault};
ghost use Rattle.lw_verilog.specs.Readings.{formal_fault, cell_in, gives_all, missing_fault};
ghost use Rattle.lw_verilog.specs.Readings.{ports_fault};
ghost use Rattle.lw_verilog.specs.Statements.{IsNetPlace, first_name, is_for, number_of, ties_in};

use crate::VerilogKind;
use lw_genlib::{Cell, Library};
use lw_named_netlist::{Signals, SpelledNames};
use lw_pool::{CellId, Name};
use lw_words::is_name;
use std::alloc::{AllocError, Global};

fn has_hash(name: &[u8]) -> bool
    ensures { result ≡ has_hash name.now }
{
    name.iter().any(|b| *b == b'#')
}

/// The rule that a name breaks which is no cell's and no pin's.
pub(crate) fn name_fault(name: &[u8]) -> Option<VerilogKind>
    ensures { result ≡ name_fault name.now }
{
    if is_name(name) && !has_hash(name) {
        return None;
    }
    Some(VerilogKind::BadName)
}

/// The rule that the name of an input or an output breaks where it is declared.
pub(crate) fn declared_fault(declared: &Signals, name: &[u8]) -> Option<VerilogKind>
    ensures { result ≡ option_or (name_fault name.now) (declared_fault declared.now name.now) }
{
    let fault = name_fault(name);
    if fault.is_some() {
        return fault;
    }
    if declared.find(name).is_some() {
        return Some(VerilogKind::Port);
    }
    None
}

// Whether the cell with this number, if there is one, has the name.
fn has_cell(lib: &Library, id: CellId, name: &[u8]) -> bool
    ensures { result ≡ true → slice_get (names_of lib.now) id.0 ≡ Some name.now }
{
    if id.0 >= lib.len() {
        return false;
    }
    lib.cell(id).name().as_bytes() == name
}

/// The number of the cell with a name. It is tried first whether it is this one.
pub(crate) fn find_cell(lib: &Library, hint: CellId, name: &[u8]) -> Option<CellId>
    ensures { MatchOption result (¬ Contains (names_of lib.now) name.now)
        (λ id. slice_get (names_of lib.now) id.0 ≡ Some name.now) }
{
    if has_cell(lib, hint, name) {
        return Some(hint);
    }
    match lib.find(name) {
        Some(id) => Some(id),
        None => None,
    }
}

/// The rule that the name of a cell breaks.
pub(crate) fn cell_fault(lib: &Library, hint: CellId, name: &[u8]) -> Option<VerilogKind>
    ensures { result ≡ cell_fault lib.now name.now }
{
    match find_cell(lib, hint, name) {
        Some(_) => None,
        None => Some(VerilogKind::NoCell),
    }
}

// The first of some names.
fn first_name(names: &SpelledNames) -> &[u8]
    ensures { result.now ≡ first_name names.now }
{
    if names.len() == 0 {
        return b"";
    }
    names.get(0)
}

/// The cell of an instance of these names.
pub(crate) fn cell_id(lib: &Library, hint: CellId, names: &SpelledNames) -> Option<CellId>
    ensures { number_of lib.now names.now ≡ option_map (λ id. id.0) result }
{
    let _count = lib.len();
    match find_cell(lib, hint, first_name(names)) {
        Some(id) => Some(id),
        None => None,
    }
}

fn is_at(names: &SpelledNames, place: usize, name: &[u8]) -> bool
    requires { place < length names.now }
    ensures { result ≡ bytes_eq (slice_index_or names.now place []) name.now }
{
    names.get(place) == name
}

/// The place of the net of a pin or of the output, among the names of an instance.
pub(crate) fn net_place(names: &SpelledNames, formal: &[u8]) -> Option<usize>
    ensures { MatchOption result (list_any (is_for formal.now) (ties_in names.now) ≡ false)
        (IsNetPlace names.now formal.now) }
{
    let count = names.len();
    let mut place = 2;
    while place < count && place + 1 < count {
        if is_at(names, place, formal) {
            return Some(place + 1);
        }
        place += 2;
    }
    None
}

// Whether an instance of these names gives the pin or the output.
fn gives(names: &SpelledNames, formal: &[u8]) -> bool
    ensures { result ≡ list_any (is_for formal.now) (ties_in names.now) }
{
    net_place(names, formal).is_some()
}

pub(crate) fn is_pin(pins: &[Name], name: &[u8]) -> bool
    ensures { result ≡ is_among pins.now name.now }
{
    pins.iter().any(|pin| name == pin.as_bytes())
}

// The rule that the name of a pin breaks behind these names of an instance of the cell.
fn formal_fault(cell: &Cell, names: &SpelledNames, name: &[u8]) -> Option<VerilogKind>
    ensures { result ≡ formal_fault (Some cell.now) (ties_in names.now) name.now }
{
    if !is_pin(cell.pins(), name) && name != cell.output().as_bytes() {
        return Some(VerilogKind::PinUnknown);
    }
    if gives(names, name) {
        return Some(VerilogKind::PinTwice);
    }
    None
}

/// The rule that the name of a pin breaks behind these names of an instance.
#[tactic(auto, using(crate::proofs::Finding::cell_within))]
pub(crate) fn pin_fault(
    lib: &Library,
    hint: CellId,
    names: &SpelledNames,
    name: &[u8],
) -> Option<VerilogKind>
    ensures { result ≡ formal_fault (cell_in lib.now names.now) (ties_in names.now) name.now }
{
    match cell_id(lib, hint, names) {
        Some(id) => formal_fault(lib.cell(id), names, name),
        None => Some(VerilogKind::PinUnknown),
    }
}

fn gives_pins(names: &SpelledNames, pins: &[Name]) -> bool
    ensures { result ≡ list_all (λ pin. list_any (is_for pin) (ties_in names.now)) pins.now }
{
    pins.iter().all(|pin| gives(names, pin.as_bytes()))
}

fn gives_all(names: &SpelledNames, cell: &Cell) -> bool
    ensures { result ≡ gives_all (ties_in names.now) cell.now }
{
    gives_pins(names, cell.pins()) && gives(names, cell.output().as_bytes())
}

/// The rule that the end of an instance of these names breaks.
#[tactic(auto, using(crate::proofs::Finding::cell_within))]
pub(crate) fn missing_fault(
    lib: &Library,
    hint: CellId,
    names: &SpelledNames,
) -> Option<VerilogKind>
    ensures { result ≡ missing_fault (cell_in lib.now names.now) (ties_in names.now) }
{
    match cell_id(lib, hint, names) {
        Some(id) if gives_all(names, lib.cell(id)) => None,
        _ => Some(VerilogKind::PinMissing),
    }
}

// Flags of which none is raised.
fn lowered(alloc: Global, count: usize) -> Result<Vec<bool>, AllocError>
    ensures { IfOk result (λ flags. flags.items ≡ replicate count false) }
{
    vec![in alloc; false; count]
}

fn is_raised(flags: &[bool], place: usize) -> bool
    requires { place < length flags.now }
    ensures { result ≡ slice_index_or flags.now place false }
{
    flags[place]
}

// Whether all flags are raised.
fn are_raised(flags: &[bool]) -> bool
    ensures { result ≡ list_all (λ flag. flag) flags.now }
{
    flags.iter().all(|flag| *flag)
}

// Whether the names behind the first of the header differ and are all declared. If so, the flags
// are raised of those that are declared and stand there. They are looked for where they were
// declared, behind one another.
fn raise_ports(header: &SpelledNames, declared: &Signals, seen: &mut [bool]) -> bool
    requires { seen.old ≡ replicate (length declared.now) false }
    ensures { RaisesPorts header.now declared.now seen.new result }
{
    let _count = declared.len();
    let mut next = 0;
    for place in 1..header.len() {
        let Some(number) = declared.find_from(next, header.get(place)) else {
            return false;
        };
        if is_raised(seen, number) {
            return false;
        }
        seen[number] = true;
        next = number + 1;
    }
    true
}

/// The rule that the end of a module breaks, with this header, and with these inputs and outputs.
pub(crate) fn ports_fault(
    alloc: Global,
    header: &SpelledNames,
    declared: &Signals,
) -> Result<Option<VerilogKind>, AllocError>
    ensures { IfOk result (λ fault. fault ≡ ports_fault (drop 1 header.now) declared.now) }
{
    let mut seen = lowered(alloc, declared.len())?;
    if raise_ports(header, declared, &mut seen) && are_raised(&seen) {
        return Ok(None);
    }
    Ok(Some(VerilogKind::Port))
}
