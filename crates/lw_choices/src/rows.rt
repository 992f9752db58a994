// What may stand at which class.
ghost use Rattle.std.specs.Prelude.{◌≡◌, ◌≤◌, ◌+◌, length};
ghost use Rattle.std.specs.List.{slice_range};
ghost use Rattle.lw_pool.specs.Numbers.{numbers};
ghost use Rattle.lw_choices.specs.Kept.{kept_part, pin_end};
ghost use Rattle.lw_choices.specs.Stands.{plain_part};

use lw_pool::{CellId, ClassId};
use std::alloc::{AllocError, Global};
use std::marker::Model;

/// A cell with the classes of its pins.
#[derive(Drop)]
pub struct Gate<'a> {
    pub cell: CellId,
    pub pins: &'a [ClassId],
}

/// What may stand at a class: an input, or a cell by a match.
#[derive(Drop)]
pub enum Stand<'a> {
    Input(u32),
    Gate(Gate<'a>),
}

/// What may stand at which class.
#[derive(Drop)]
pub struct ListedChoice<'a> {
    pub class: ClassId,
    pub stand: Stand<'a>,
}

/// A cell, with where its pins begin among those of all, and how many there are.
#[derive(Clone, Copy)]
pub(crate) struct KeptGate {
    pub cell: CellId,
    pub first: u32,
    pub count: u32,
}

/// What may stand at a class, as a listing keeps it.
#[derive(Clone, Copy)]
pub(crate) enum KeptStand {
    Input(u32),
    Gate(KeptGate),
}

/// A choice as a listing keeps it.
#[derive(Clone, Copy)]
pub(crate) struct Row {
    pub class: ClassId,
    pub stand: KeptStand,
}

// There is one for each choice, so it is kept small.
const _: () = prove!(size_of::<Row>() == 20);

/// Choices by their numbers, from 0. Their pins stand in one list.
#[derive(Drop)]
pub struct Listing {
    rows: Vec<Row>,
    pins: Vec<ClassId>,
}

impl Model for Listing {
    ghost use Rattle.std.specs.Prelude.{List, length};
    ghost use Rattle.lw_choices.specs.Choices.{Choice};
    ghost use Rattle.lw_choices.specs.Kept.{AreKeptIn, kept_rows};

    ghost Value = { List Choice };

    ghost view = { λ l. kept_rows l.pins.items l.rows.items };

    ghost invariant = { λ l. AreKeptIn (length l.pins.items) l.rows.items };
}

impl Listing {
    ghost use Rattle.std.specs.Prelude.{◌<◌, ◌++◌, ◌∷◌, [], OnOk, Some, reverse, slice_get};
    ghost use Rattle.lw_choices.specs.Choices.{pin_count};
    ghost use Rattle.lw_choices.specs.Kept.{input_at};
    ghost use Rattle.lw_choices.specs.Stands.{choice_of, plain_row};

    /// No choices.
    pub(crate) fn new(alloc: Global) -> Self
        ensures { result ≡ [] }
    {
        Listing {
            rows: Vec::new(alloc),
            pins: Vec::new(alloc),
        }
    }

    /// How many choices there are.
    pub fn len(&self) -> usize
        ensures { result ≡ length self.now }
    {
        self.rows.len()
    }

    /// How many pins they have together. No clause says so: it is asked for room alone.
    pub(crate) fn pins(&self) -> usize {
        self.pins.len()
    }

    /// The choice with this number.
    pub fn at(&self, number: usize) -> ListedChoice
        requires { number < length self.now }
        ensures choice { slice_get self.now number ≡ Some (plain_row result) }
        ensures few { pin_count (plain_part result.stand) ≤ 16 }
    {
        let row = self.rows[number];
        ListedChoice {
            class: row.class,
            stand: stand_of(&self.pins, row.stand),
        }
    }

    /// Appends an input at a class.
    pub(crate) fn push_input(&mut self, class: ClassId, input: u32) -> Result<(), AllocError>
        ensures { OnOk result (self.new ≡ self.old ++ input_at class input ∷ []) }
    {
        let stand = KeptStand::Input(input);
        self.rows.push(Row { class, stand })?;
        Ok(())
    }

    /// Appends a cell with its pins at a class. Past 2^32 - 17 pins it says that memory is out.
    pub(crate) fn push_gate(&mut self, class: ClassId, gate: Gate) -> Result<(), AllocError>
        requires { length gate.pins.now ≤ 16 }
        ensures { OnOk result (self.new ≡ self.old ++ choice_of class gate.entry ∷ []) }
    {
        let first = self.pins.len();
        if first > MOST_PINS {
            return Err(AllocError);
        }
        let count = gate.pins.len();
        self.pins.extend_from_slice(gate.pins)?;
        let kept = KeptGate {
            cell: gate.cell,
            first: first as u32,
            count: count as u32,
        };
        let stand = KeptStand::Gate(kept);
        self.rows.push(Row { class, stand })?;
        Ok(())
    }

    /// Turns the order of the choices round, and gives back the room behind the last.
    pub(crate) fn turn_round(&mut self)
        ensures { self.new ≡ reverse self.old }
    {
        self.rows.reverse();
        self.rows.shrink_to_fit();
        self.pins.shrink_to_fit();
    }
}

// How many pins there are at most where those of one more choice are appended, 16 at most: where
// each begins is a number below 2^32 then.
const MOST_PINS: usize = 4_294_967_279;

// The pins of a cell, among those of all.
fn pins_of(pins: &[ClassId], gate: KeptGate) -> &[ClassId]
    requires { gate.first + gate.count ≤ length pins.now }
    ensures { result.now ≡ slice_range pins.now gate.first (gate.first + gate.count) }
{
    let first = gate.first as usize;
    &pins[first..first + gate.count as usize]
}

// What is kept, with its pins among those of all.
fn stand_of(pins: &[ClassId], kept: KeptStand) -> Stand
    requires { pin_end kept ≤ length pins.now }
    ensures { plain_part result ≡ kept_part (numbers pins.now) kept }
{
    match kept {
        KeptStand::Input(input) => Stand::Input(input),
        KeptStand::Gate(gate) => Stand::Gate(Gate {
            cell: gate.cell,
            pins: pins_of(pins, gate),
        }),
    }
}
