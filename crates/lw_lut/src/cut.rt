// Cuts with their bits.
ghost use Rattle.std.specs.Prelude.{◌≡◌, ◌+◌, ◌*◌, ◌^◌, ◌<◌, ◌≤◌, ◌++◌, ◌&&◌, [], ◌∷◌, not, length};
ghost use Rattle.std.specs.Prelude.{if◌then◌else◌};
ghost use Rattle.lw_lut.specs.Cuts.{ArePinsOfCut, IsConstantCut, IsPinCut, PlainCut, is_set};
ghost use Rattle.lw_lut.specs.Cuts.{turned, is_odd};
ghost use Rattle.lw_lut.specs.Packed.{joined_bits, joined_value};

use lw_graph::Pair;
use lw_pool::ClassId;
use std::marker::Model;

// At most six pins at classes, and the value for each of their values: bit j where the pins, the
// first as the highest bit, spell j.
#[derive(Drop)]
pub(crate) struct Cut {
    pins: [ClassId; 6],
    len: usize,
    bits: u64,
}

impl Model for Cut {
    ghost use Rattle.std.specs.Prelude.{◌≤◌, take};
    ghost use Rattle.lw_lut.specs.Cuts.{PlainCut};

    ghost Value = { PlainCut };

    ghost view = { λ c. record { pins = take c.len c.pins; bits = c.bits } };

    ghost invariant = { λ c. c.len ≤ 6 };
}

// How many pins there are, each of which is a bit of the numbers that they spell.
#[derive(Clone, Copy)]
pub(crate) struct PinCount {
    pub(crate) count: usize,
    ghost few: { count ≤ 6 },
}

// How many numbers so many pins spell.
pub(crate) fn numbers_of(pins: PinCount) -> u32
    ensures { result ≡ 2 ^ pins.count }
{
    1 << pins.count
}

// Whether a bit is set.
pub(crate) fn is_set(bits: u64, place: u32) -> bool
    ensures { result ≡ is_set bits place }
{
    if place >= 64 {
        return false;
    }
    (bits >> place) & 1 == 1
}

// The other value, or the same.
pub(crate) fn turned(turn: bool, value: bool) -> bool
    ensures { result ≡ turned turn value }
{
    turn != value
}

// Whether a class is the second of its pair.
pub(crate) fn is_odd(class: ClassId) -> bool
    ensures { result ≡ is_odd class.0 }
{
    class.0 % 2 == 1
}

impl Cut {
    // A constant.
    pub(crate) fn constant(value: bool) -> Self
        ensures { IsConstantCut value result }
    {
        Cut {
            pins: [ClassId(0); 6],
            len: 0,
            bits: value as u64,
        }
    }

    // One pin at a class, as the value of the first class of its pair.
    pub(crate) fn pin(class: ClassId) -> Self
        ensures { IsPinCut class result }
    {
        Cut {
            pins: [class; 6],
            len: 1,
            bits: if class.0 % 2 == 1 { 1 } else { 2 },
        }
    }

    pub(crate) fn pins(&self) -> &[ClassId]
        ensures { ArePinsOfCut self.now result.now }
    {
        &self.pins[..self.len]
    }

    pub(crate) fn bits(&self) -> u64
        ensures { result ≡ self.now.bits }
    {
        self.bits
    }

    // Appends a pin.
    fn push(&mut self, class: ClassId)
        requires { length self.old.pins < 6 }
        ensures pins { self.new.pins ≡ self.old.pins ++ class ∷ [] }
        ensures bits { self.new.bits ≡ self.old.bits }
    {
        self.pins[self.len] = class;
        self.len += 1;
    }

    // A copy.
    pub(crate) fn copy(&self) -> Self
        ensures { result ≡ self.now }
    {
        Cut {
            pins: self.pins,
            len: self.len,
            bits: self.bits,
        }
    }
}

// Not both.
fn nand(first: bool, second: bool) -> bool
    ensures { result ≡ not (first && second) }
{
    !(first && second)
}

// A number with one more bit, as its lowest.
pub(crate) fn appended(bits: u64, value: bool) -> u64
    requires { bits < 2 ^ 63 }
    ensures { result ≡ (if value then 1 else 0) + 2 * bits }
{
    bits * 2 + value as u64
}

// The value of the NAND of two cuts at classes, as that of the first class of the pair of the
// class that holds them, where the pins of the first cut and then those of the second spell a
// number.
fn joined_value(x: &Cut, left: ClassId, y: &Cut, right: ClassId, class: ClassId, place: u32) -> bool
    ensures { result ≡ joined_value x.now left.0 y.now right.0 class.0 place }
{
    let low = y.pins().len();
    let first = is_set(x.bits, place >> low);
    let second = is_set(y.bits, place % numbers_of(PinCount { count: low }));
    turned(
        is_odd(class),
        nand(turned(is_odd(left), first), turned(is_odd(right), second)),
    )
}

// Two cuts with no more than six pins at the classes of a pair, and a class that holds it.
#[derive(Clone, Copy)]
pub(crate) struct Joint<'a> {
    pub(crate) x: &'a Cut,
    pub(crate) y: &'a Cut,
    pub(crate) pair: Pair,
    pub(crate) class: ClassId,
    ghost few: { length x.now.pins + length y.now.pins ≤ 6 },
}

// The values of the NAND of two cuts at classes, as bits.
fn joined_bits(of: &Joint) -> u64
    ensures { result ≡ joined_bits of.now.x.now of.now.pair.x.0 of.now.y.now of.now.pair.y.0
        of.now.class.0 }
{
    let mut bits = 0;
    let count = of.x.pins().len() + of.y.pins().len();
    for place in (0..numbers_of(PinCount { count })).rev() {
        let value = joined_value(of.x, of.pair.x, of.y, of.pair.y, of.class, place);
        bits = appended(bits, value);
    }
    bits
}

// The NAND of two cuts at classes, at the place of the class that holds them.
pub(crate) fn joined(of: &Joint) -> Cut
    ensures { result ≡ record {
      pins = of.now.x.now.pins ++ of.now.y.now.pins;
      bits = joined_bits of.now.x.now of.now.pair.x.0 of.now.y.now of.now.pair.y.0 of.now.class.0;
    } }
{
    let mut cut = of.x.copy();
    cut.bits = joined_bits(of);
    for pin in of.y.pins() {
        cut.push(*pin);
    }
    cut
}
