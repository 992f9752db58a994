// The stored matches of each class, and how they are read.
ghost use Rattle.std.specs.Prelude.{◌≡◌, ◌+◌, ◌^◌, ◌<◌, ◌≤◌, List, Some, length, take, slice_get};
ghost use Rattle.std.specs.List.{slice_range};
ghost use Rattle.lw_laws.specs.Covers.{HasPins};
ghost use Rattle.lw_laws.specs.Marks.{Mark as PlainMark, HaveMarks, costs_in, greatest_height};
ghost use Rattle.lw_laws.specs.Marks.{price};
ghost use Rattle.lw_cost.specs.Values.{AreInRange, marks_in, plain_mark};
ghost use Rattle.lw_settle.specs.Kept.{start_at};
ghost use Rattle.lw_settle.specs.Stores.{AreKeptLists, AreMarkedPins, IsFound, IsHeadOf};
ghost use Rattle.lw_settle.specs.Stores.{IsPriceable, IsPriceOf, IsReadOnce, pin_total, placed};
ghost use Rattle.lw_settle.specs.Stores.{uses_of};
ghost use Rattle.lw_pool.specs.Numbers.{numbers};

use lw_cost::{Cost, Mark, Pins};
use lw_pool::{CellId, ClassId, PatId};
use std::marker::Model;

/// A stored match as the store keeps it.
#[derive(Clone, Copy)]
pub(crate) struct Row {
    pub class: ClassId,
    pub pat: PatId,
    /// The place of its first pin among all pins.
    pub start: u32,
    /// How many pins it has.
    pub pins: u8,
}

/// The class at which a stored match stands, and its number of pins.
#[derive(Clone, Copy, PartialEq, Eq)]
pub struct Head {
    pub class: ClassId,
    pub pins: u8,
}

/// A stored match: the class at which it stands, its cell, and the classes of its pins.
#[derive(Drop)]
pub struct Found {
    pub class: ClassId,
    pub cell: CellId,
    pub pins: Pins,
}

/// The matches of each class, and how often one was read.
///
/// Stored matches are numbered from 0, by class and then by place in the class's list. A use of a
/// class is a stored match together with a pin of it that has this class; the uses of a class are
/// numbered from 0, by match and then by pin. A pin or a cell is read by `use_at`, `price` and
/// `read` alone, which count their readings. No call takes memory.
#[derive(Drop)]
pub struct Store {
    // the matches, by class
    rows: Vec<Row>,
    // their pins, one match behind another
    pins: Vec<ClassId>,
    // the cell of each pattern
    cells: Vec<CellId>,
    // where the uses of each class end
    ends: Vec<u32>,
    // the match of each use
    uses: Vec<u32>,
    // how many pins and cells were read
    done: u64,
}

impl Model for Store {
    ghost use Rattle.std.specs.Prelude.{length};
    ghost use Rattle.lw_settle.specs.Stores.{StoreState};

    ghost Value = { StoreState };

    ghost use Rattle.lw_settle.specs.Kept.{cell_numbers, grouped, placed_rows, IsKeptStore};

    ghost view = { λ s. record {
      lists = grouped (length s.ends.items)
          (placed_rows s.pins.items (cell_numbers s.cells.items) s.rows.items);
      done = s.done;
    } };

    ghost invariant = { λ s. IsKeptStore (length s.ends.items) s.rows.items s.pins.items
        (cell_numbers s.cells.items) s.ends.items s.uses.items };
}

// Where the uses of a class start: where those of the class before it end.
fn start_of(ends: &[u32], class: usize) -> u32
    requires { class < length ends.now }
    ensures { result ≡ start_at ends.now class }
{
    if class == 0 {
        return 0;
    }
    ends[class - 1]
}

// The pins of a match, among those of all.
fn pins_of(pins: &[ClassId], row: Row) -> &[ClassId]
    requires { row.start + row.pins ≤ length pins.now }
    ensures { result.now ≡ slice_range pins.now row.start (row.start + row.pins) }
{
    let start = row.start as usize;
    &pins[start..start + row.pins as usize]
}

// Puts the costs of the marks of some pins at the front of `costs`. It gives the greatest height of
// these marks, 0 if there is no pin.
fn read_marks(pins: &[ClassId], marks: &[Option<Mark>], costs: &mut [u64]) -> u32
    requires { AreMarkedPins (length costs.old) marks.now pins.now }
    ensures { (ks : List PlainMark) × HaveMarks (marks_in marks.now) (numbers pins.now) ks ×
        (take (length pins.now) costs.new ≡ costs_in ks) × (result ≡ greatest_height ks) }
{
    let mut height = 0;
    for (k, pin) in pins.iter().enumerate() {
        if let Some(mark) = marks[pin.0 as usize] {
            costs[k] = mark.cost;
            height = mark.height.max(height);
        }
    }
    height
}

// The mark that a match of a cell gives its class, by the marks of its pins: one gate higher than
// the highest of them.
fn mark_of<C: Cost>(pins: &[ClassId], cell: CellId, cost: &C, marks: &[Option<Mark>]) -> Mark
    requires pins { AreMarkedPins 16 marks.now pins.now }
    requires of_cell { HasPins (C.costs cost.now).pin_counts cell.0 (length pins.now) }
    requires in_range { AreInRange C.CAP marks.now }
    ensures { (ks : List PlainMark) × HaveMarks (marks_in marks.now) (numbers pins.now) ks ×
        (plain_mark result ≡ price (C.costs cost.now) cell.0 ks) }
{
    let mut costs = [0; 16];
    let height = read_marks(pins, marks, &mut costs);
    Mark {
        cost: cost.value(cell, &costs[..pins.len()]),
        height: height + 1,
    }
}

// The pins of a match with these classes.
fn pins_at(classes: &[ClassId]) -> Pins
    requires { length classes.now ≤ 16 }
    ensures { result ≡ classes.now }
{
    let mut pins = Pins::new();
    for class in classes {
        pins.push(*class);
    }
    pins
}

impl Store {
    ghost use Rattle.lw_settle.specs.Kept.{cell_numbers, grouped, placed_rows, IsKeptStore};

    // A store of these arrays, of which nothing was read yet.
    pub(crate) fn new(
        rows: Vec<Row>,
        pins: Vec<ClassId>,
        cells: Vec<CellId>,
        ends: Vec<u32>,
        uses: Vec<u32>,
    ) -> Self
        requires { IsKeptStore (length ends.items) rows.items pins.items
            (cell_numbers cells.items) ends.items uses.items }
        ensures lists { result.lists ≡ grouped (length ends.items)
            (placed_rows pins.items (cell_numbers cells.items) rows.items) }
        ensures done { result.done ≡ 0 }
    {
        Store {
            rows,
            pins,
            cells,
            ends,
            uses,
            done: 0,
        }
    }

    /// How many matches there are.
    pub fn matches(&self) -> u32
        ensures matches { result ≡ length (placed self.now.lists) }
        ensures kept { AreKeptLists self.now.lists }
    {
        self.rows.len() as u32
    }

    /// How many pins they have together.
    pub fn pins(&self) -> u64
        ensures { result ≡ pin_total (placed self.now.lists) }
    {
        self.pins.len() as u64
    }

    /// How often a match was read: by `use_at`, `price` or `read`.
    pub fn done(&self) -> u64
        ensures { result ≡ self.now.done }
    {
        self.done
    }

    /// The class of the match with the number `place`, and how many pins it has. It is no reading.
    pub fn head(&self, place: u32) -> Head
        requires { place < length (placed self.now.lists) }
        ensures { IsHeadOf self.now.lists place result.class.0 result.pins }
    {
        let row = self.rows[place as usize];
        Head {
            class: row.class,
            pins: row.pins,
        }
    }

    /// The number of uses of a class.
    pub fn uses(&self, class: ClassId) -> u32
        requires { class.0 < length self.now.lists }
        ensures { result ≡ length (uses_of self.now.lists class.0) }
    {
        let class = class.0 as usize;
        self.ends[class] - start_of(&self.ends, class)
    }

    /// The number of the match of a use of a class, `n` being the number of the use. It counts as a
    /// reading.
    pub fn use_at(&mut self, class: ClassId, n: u32) -> u32
        requires class { class.0 < length self.old.lists }
        requires within { n < length (uses_of self.old.lists class.0) }
        requires fresh { self.old.done < 2 ^ 63 }
        ensures number { slice_get (uses_of self.old.lists class.0) n ≡ Some result }
        ensures read { IsReadOnce self.old self.new }
    {
        self.done += 1;
        let start = start_of(&self.ends, class.0 as usize);
        self.uses[(start + n) as usize]
    }

    /// What the match with the number `place` costs over the marks of its pins, and 1 more than the
    /// greatest of their heights. It counts as a reading.
    pub fn price<C: Cost>(&mut self, place: u32, cost: &C, marks: &[Option<Mark>]) -> Mark
        requires { IsPriceable self.old (C.costs cost.now) C.CAP marks.now place }
        ensures price { IsPriceOf self.old.lists (C.costs cost.now)
            (marks_in marks.now) place (plain_mark result) }
        ensures read { IsReadOnce self.old self.new }
    {
        self.done += 1;
        let row = self.rows[place as usize];
        let cell = self.cells[row.pat.0 as usize];
        mark_of(pins_of(&self.pins, row), cell, cost, marks)
    }

    /// The match with the number `place`: its class, its cell and its pins. It counts as a reading.
    pub fn read(&mut self, place: u32) -> Found
        requires place { place < length (placed self.old.lists) }
        requires fresh { self.old.done < 2 ^ 63 }
        ensures found { IsFound self.old.lists place result }
        ensures lists { self.new.lists ≡ self.old.lists }
        ensures done { self.new.done ≡ self.old.done + 1 }
    {
        self.done += 1;
        let row = self.rows[place as usize];
        Found {
            class: row.class,
            cell: self.cells[row.pat.0 as usize],
            pins: pins_at(pins_of(&self.pins, row)),
        }
    }
}
