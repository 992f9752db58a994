// Gates by names, spelled in one list of bytes.
ghost use Rattle.std.specs.Prelude.{◌≡◌, ◌+◌, ◌<◌, ◌≤◌, length, slice_get, take, Some, IfOk};
ghost use Rattle.std.specs.List.{slice_range};
ghost use Rattle.lw_words.specs.Arenas.{begin_of, words_at};
ghost use Rattle.lw_named_netlist.specs.Spelled.{AreSpelled};

use crate::DraftGate;
use lw_pool::CellId;
use smallvec::SmallVec;
use std::alloc::{AllocError, Global};
use std::marker::Model;

/// A gate by names, as `DraftGate`, but its names stand in one list of bytes: where they are few
/// and short, they need no memory of their own.
#[derive(Drop)]
pub struct SpelledGate {
    cell: CellId,
    // Where the name ends that the gate drives. The pins stand behind it.
    out: usize,
    bytes: SmallVec<u8, 40>,
    // Where each pin ends.
    ends: SmallVec<usize, 4>,
}

impl Model for SpelledGate {
    ghost use Rattle.std.specs.Prelude.{◌<◌, length, take};
    ghost use Rattle.lw_words.specs.Arenas.{words_at};
    ghost use Rattle.lw_named_netlist.specs.Spelled.{AreSpelled};
    ghost use Rattle.lw_named_netlist.specs.declared.draft.DraftGate.{DraftGate};

    ghost Value = { DraftGate };

    ghost view = { λ g. record {
      cell = g.cell;
      pins = words_at g.out g.bytes.items g.ends.items;
      out = take g.out g.bytes.items;
    } };

    ghost invariant = { λ g. (0 < g.out) × AreSpelled g.out (length g.bytes.items) g.ends.items };
}

impl SpelledGate {
    ghost use Rattle.std.specs.Prelude.{◌≡◌, ◌<◌, ◌++◌, [], ◌∷◌, length, slice_get, Some, IfOk};
    ghost use Rattle.std.specs.Prelude.{OnOk};

    /// A gate without pins that drives this name.
    pub fn new(alloc: Global, cell: CellId, out: &[u8]) -> Result<Self, AllocError>
        requires { 0 < length out.now }
        ensures { IfOk result (λ gate. gate ≡ record { cell = cell; pins = []; out = out.now }) }
    {
        let bytes = SmallVec::from_slice(alloc, out)?;
        Ok(SpelledGate {
            cell,
            out: out.len(),
            bytes,
            ends: SmallVec::new(alloc),
        })
    }

    /// Appends a pin.
    pub fn push(&mut self, pin: &[u8]) -> Result<(), AllocError>
        requires { 0 < length pin.now }
        ensures { OnOk result (self.new ≡ record {
          cell = self.old.cell;
          pins = self.old.pins ++ pin.now ∷ [];
          out = self.old.out;
        }) }
    {
        self.ends.reserve(1)?;
        self.bytes.extend_from_slice(pin)?;
        let end = self.bytes.len();
        self.ends.push_reserved(end);
        Ok(())
    }

    /// The cell, by its number in the library.
    pub fn cell(&self) -> CellId
        ensures { result ≡ self.now.cell }
    {
        self.cell
    }

    /// The name that the gate drives.
    pub fn out(&self) -> &[u8]
        ensures name { result.now ≡ self.now.out }
        ensures some { 0 < length result.now }
    {
        front(&self.bytes, &self.ends, self.out)
    }

    /// The number of pins.
    pub fn len(&self) -> usize
        ensures { result ≡ length self.now.pins }
    {
        self.ends.len()
    }

    /// The pin at a place.
    pub fn pin(&self, place: usize) -> &[u8]
        requires { place < length self.now.pins }
        ensures name { slice_get self.now.pins place ≡ Some result.now }
        ensures some { 0 < length result.now }
    {
        name_at(&self.bytes, &self.ends, self.out, place)
    }
}

// The bytes before the pins.
fn front<'a>(bytes: &'a [u8], ends: &[usize], out: usize) -> &'a [u8]
    requires some { 0 < out }
    requires spelled { AreSpelled out (length bytes.now) ends.now }
    ensures front { result.now ≡ take out bytes.now }
    ensures some { 0 < length result.now }
{
    &bytes[..out]
}

// Where the name at a place begins, where the first begins at `from`.
fn begin_at(ends: &[usize], from: usize, place: usize) -> usize
    requires { place < length ends.now }
    ensures { result ≡ begin_of from ends.now place }
{
    if place == 0 {
        return from;
    }
    ends[place - 1]
}

// A part of the bytes.
fn part(bytes: &[u8], from: usize, end: usize) -> &[u8]
    requires order { from ≤ end }
    requires end { end ≤ length bytes.now }
    ensures part { result.now ≡ slice_range bytes.now from end }
    ensures len { length result.now + from ≡ end }
{
    &bytes[from..end]
}

/// The name at a place, where these are the bytes of all names, the first begins at `from`, and
/// where each of them ends.
pub(crate) fn name_at<'a>(bytes: &'a [u8], ends: &[usize], from: usize, place: usize) -> &'a [u8]
    requires ends { AreSpelled from (length bytes.now) ends.now }
    requires place { place < length ends.now }
    ensures name { slice_get (words_at from bytes.now ends.now) place ≡ Some result.now }
    ensures some { 0 < length result.now }
{
    let begin = begin_at(ends, from, place);
    let end = ends[place];
    part(bytes, begin, end)
}

/// A gate of a draft, spelled: with the bytes of its names in one row.
pub(crate) fn spelled(alloc: Global, gate: &DraftGate) -> Result<SpelledGate, AllocError>
    ensures { IfOk result (λ spelled. spelled ≡ gate.now) }
{
    let mut done = SpelledGate::new(alloc, gate.cell, gate.out.as_bytes())?;
    for pin in gate.pins.as_slice() {
        done.push(pin.as_bytes())?;
    }
    Ok(done)
}
