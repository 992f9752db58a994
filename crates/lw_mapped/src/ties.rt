// The words of a gate: `PIN=NET` for each pin, and `OUTPUT=NET`.
ghost use Rattle.std.specs.Prelude.{◌≡◌, ◌<◌, [], All, ◌≤◌, None, length, drop, map, ◌++◌, IfOk};
ghost use Rattle.std.specs.Prelude.{OnOk, slice_index_or};
ghost use Rattle.std.specs.List.{before_first, after_first, slice_range, position, position_or_len};
ghost use Rattle.lw_mapped.specs.GateLines.{is_equals, is_for, gives, is_formal, tie_fault};
ghost use Rattle.lw_mapped.specs.GateLines.{first_tie_fault, gives_all, ties_fault, net_for};
ghost use Rattle.lw_mapped.specs.GateLines.{gate_of};
ghost use Rattle.lw_words.specs.Words.{is_among};

use crate::MappedKind;
use lw_genlib::Cell;
use lw_named_netlist::SpelledGate;
use lw_pool::{CellId, Name};
use lw_words::{Words, is_name};
use std::alloc::{AllocError, Global};

// The place of the first of these words.
const FIRST: usize = 2;

fn first_equals(word: &[u8]) -> Option<usize>
    ensures { result ≡ position is_equals word.now }
{
    word.iter().position(|b| *b == b'=')
}

fn place_of_equals(word: &[u8]) -> usize
    ensures { result ≡ position_or_len is_equals word.now }
{
    first_equals(word).unwrap_or(word.len())
}

// What stands before the first `=`, and behind it.
fn cut(word: &[u8]) -> (&[u8], &[u8])
    ensures before { result.0.now ≡ before_first is_equals word.now }
    ensures after { result.1.now ≡ after_first is_equals word.now }
{
    let place = place_of_equals(word);
    (&word[..place], &word[word.len().min(place + 1)..])
}

// Whether a word is for this pin or output.
fn is_for(formal: &[u8], word: &[u8]) -> bool
    ensures { result ≡ is_for formal.now word.now }
{
    let (own, _) = cut(word);
    own == formal
}

// Whether one of the words before a place gives this pin or output a net.
fn gives(words: &Words, end: usize, formal: &[u8]) -> bool
    requires { end ≤ length words.now }
    ensures { result ≡ gives (slice_range words.now 2 end) formal.now }
{
    for place in FIRST..end {
        if is_for(formal, words.get(place)) {
            return true;
        }
    }
    false
}

fn is_among(names: &[Name], word: &[u8]) -> bool
    ensures { result ≡ is_among names.now word.now }
{
    for name in names {
        if word == name.as_bytes() {
            return true;
        }
    }
    false
}

// Whether the cell has such a pin or output.
fn is_formal(cell: &Cell, formal: &[u8]) -> bool
    ensures { result ≡ is_formal cell.now formal.now }
{
    is_among(cell.pins(), formal) || formal == cell.output().as_bytes()
}

// The first rule that the word at a place breaks.
#[tactic(auto, unfolding(crate::specs::GateLines::tie_fault))]
fn tie_fault(cell: &Cell, words: &Words, place: usize) -> Option<MappedKind>
    requires { place < length words.now }
    ensures { result ≡ tie_fault cell.now (slice_range words.now 2 place)
        (slice_index_or words.now place []) }
{
    let (formal, actual) = cut(words.get(place));
    if formal.is_empty() || actual.is_empty() {
        return Some(MappedKind::Shape);
    }
    if !is_formal(cell, formal) {
        return Some(MappedKind::PinUnknown);
    }
    if gives(words, place, formal) {
        return Some(MappedKind::PinTwice);
    }
    if !is_name(actual) {
        return Some(MappedKind::BadName);
    }
    None
}

// The first rule that one of the words breaks.
fn first_tie_fault(cell: &Cell, words: &Words) -> Option<MappedKind>
    ensures { result ≡ first_tie_fault cell.now [] (drop 2 words.now) }
{
    for place in FIRST..words.len() {
        let fault = tie_fault(cell, words, place);
        if fault.is_some() {
            return fault;
        }
    }
    None
}

// Whether each pin and the output has a net.
fn gives_all(cell: &Cell, words: &Words) -> bool
    ensures { result ≡ gives_all cell.now (drop 2 words.now) }
{
    for pin in cell.pins() {
        if !gives(words, words.len(), pin.as_bytes()) {
            return false;
        }
    }
    gives(words, words.len(), cell.output().as_bytes())
}

/// The first rule that the words of a gate of this cell break.
pub(crate) fn ties_fault(cell: &Cell, words: &Words) -> Option<MappedKind>
    ensures { result ≡ ties_fault cell.now (drop 2 words.now) }
{
    let fault = first_tie_fault(cell, words);
    if fault.is_some() || gives_all(cell, words) {
        return fault;
    }
    Some(MappedKind::PinMissing)
}

// The net of a pin or of the output.
fn net_for<'a>(words: &'a Words, formal: &[u8]) -> &'a [u8]
    ensures { result.now ≡ net_for (drop 2 words.now) formal.now }
{
    for place in FIRST..words.len() {
        let (own, actual) = cut(words.get(place));
        if own == formal {
            return actual;
        }
    }
    b""
}

// Appends the nets of these pins.
fn push_pins(gate: &mut SpelledGate, words: &Words, pins: &[Name]) -> Result<(), AllocError>
    requires { All (λ pin. 0 < length (net_for (drop 2 words.now) pin)) pins.now }
    ensures { OnOk result (gate.new ≡ record {
      cell = gate.old.cell;
      pins = gate.old.pins ++ map (net_for (drop 2 words.now)) pins.now;
      out = gate.old.out;
    }) }
{
    for pin in pins {
        gate.push(net_for(words, pin.as_bytes()))?;
    }
    Ok(())
}

/// The gate of words that break no rule.
pub(crate) fn gate_of(
    alloc: Global,
    id: CellId,
    cell: &Cell,
    words: &Words,
) -> Result<SpelledGate, AllocError>
    requires { ties_fault cell.now (drop 2 words.now) ≡ None }
    ensures { IfOk result (λ gate. gate ≡ gate_of id.0 cell.now (drop 2 words.now)) }
{
    let out = net_for(words, cell.output().as_bytes());
    let mut gate = SpelledGate::new(alloc, id, out)?;
    push_pins(&mut gate, words, cell.pins())?;
    Ok(gate)
}
