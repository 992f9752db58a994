// Lookup tables, made from cuts.
ghost use Rattle.std.specs.Prelude.{◌≡◌, ◌≤◌, ◌^◌, ◌↔◌, length, Contains, IfOk, IsTrue, OnOk};
ghost use Rattle.lw_facts.specs.Sorting.{AreSortedFrom};
ghost use Rattle.lw_lut.specs.Packed.{packed};
ghost use Rattle.lw_lut.specs.Tables.{AreRisingOf, IsAdded, IsSpelledNumber, IsTableOf, given};
ghost use Rattle.lw_lut.specs.Tables.{table_value};
ghost use Rattle.lw_pool.specs.Numbers.{numbers};

use crate::cut::{Cut, PinCount, appended, is_odd, is_set, numbers_of, turned};
use lw_pool::{ClassId, Classes};
use std::alloc::{AllocError, Global};

/// A lookup table for a class: its fan-ins, which are different and in rising order, and its
/// bits. Bit j is the value where the fan-ins, the first as the highest bit, spell j.
#[derive(Drop)]
pub struct Table {
    pub out: ClassId,
    pub fanins: Classes,
    pub bits: u64,
}

// Whether a class is among some.
fn is_among(classes: &[ClassId], class: ClassId) -> bool
    ensures { IsTrue result ↔ Contains classes.now class }
{
    for at in classes {
        if at.0 == class.0 {
            return true;
        }
    }
    false
}

// Sorts classes by their numbers.
fn sort(classes: &mut Vec<ClassId>)
    ensures { AreSortedFrom (λ class. class.0) classes.old.items classes.new.items }
{
    classes.sort_unstable_by_key(|class| class.0);
}

// Appends a class, unless it is there.
fn add(classes: &mut Vec<ClassId>, class: ClassId) -> Result<(), AllocError>
    ensures { OnOk result (IsAdded classes.old.items class classes.new.items) }
{
    if is_among(classes, class) {
        return Ok(());
    }
    classes.push(class)?;
    Ok(())
}

// The classes in rising order, each once.
fn rising(alloc: Global, classes: &[ClassId]) -> Result<Vec<ClassId>, AllocError>
    ensures { IfOk result (λ r. AreRisingOf classes.now r.items) }
{
    let mut sorted = Vec::from_slice(alloc, classes)?;
    sort(&mut sorted);
    let mut rising = Vec::new(alloc);
    for class in &sorted {
        add(&mut rising, *class)?;
    }
    Ok(rising)
}

// No more than six classes.
#[derive(Clone, Copy)]
struct FewClasses<'a> {
    classes: &'a [ClassId],
    ghost few: { length classes.now ≤ 6 },
}

// The value that a number gives to a class, where classes spell it.
fn given(fanins: &FewClasses, place: u32, class: ClassId) -> bool
    ensures { result ≡ given (numbers fanins.now.classes.now) place class.0 }
{
    let classes = fanins.classes;
    for k in 0..classes.len() {
        if classes[k].0 == class.0 {
            return is_set(place as u64, (classes.len() - 1 - k) as u32);
        }
    }
    false
}

// The number that pins spell where fan-ins spell another.
fn spelled(pins: &FewClasses, fanins: &FewClasses, place: u32) -> u64
    ensures { IsSpelledNumber pins.now.classes.now fanins.now.classes.now place result }
{
    let mut number = 0;
    let classes = pins.classes;
    for pin in classes {
        number = appended(number, given(fanins, place, *pin));
    }
    number
}

// The bits of a cut at a class over its fan-ins.
fn bits_over(cut: &Cut, class: ClassId, fanins: &FewClasses) -> u64
    ensures { let classes = fanins.now.classes.now in
        result ≡ packed (table_value cut.now class.0 (numbers classes)) 0 (2 ^ length classes) }
{
    let mut bits = 0;
    let count = fanins.classes.len();
    for place in (0..numbers_of(PinCount { count })).rev() {
        let pins = FewClasses {
            classes: cut.pins(),
        };
        let number = spelled(&pins, fanins, place);
        let value = is_set(cut.bits(), number as u32);
        bits = appended(bits, turned(is_odd(class), value));
    }
    bits
}

impl Table {
    // The table of a cut at a class.
    pub(crate) fn of(alloc: Global, class: ClassId, cut: &Cut) -> Result<Self, AllocError>
        ensures { IfOk result (IsTableOf cut.now class) }
    {
        let fanins = rising(alloc, cut.pins())?;
        let few = FewClasses { classes: &fanins };
        let bits = bits_over(cut, class, &few);
        Ok(Table {
            out: class,
            fanins: Classes::from_vec(fanins),
            bits,
        })
    }
}
