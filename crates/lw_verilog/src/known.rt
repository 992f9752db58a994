// Which nets have the name of an output.
ghost use Rattle.std.specs.Prelude.{◌≡◌, ◌<◌, ◌≤◌, ◌+◌, ℕ, false, length, map, slice_index_or};
ghost use Rattle.std.specs.Str.{bytes_eq};
ghost use Rattle.lw_named_netlist.specs.Closing.{is_among};
ghost use Rattle.lw_verilog.specs.Chains.{AreChained, HasRoom, bucket_of, known_width, name_at};
ghost use Rattle.lw_verilog.specs.Named.{Knows};
ghost use Rattle.lw_verilog.specs.Windows.{HasFlag, Raises};
ghost use Rattle.lw_netlist.specs.Plain.{port_name};

use lw_netlist::Port;
use lw_pool::Name;

// How many nets have flags at a time, and how many buckets there are.
const WIDTH: usize = 32768;

/// Which nets from a base on have the name of an output. They are found by chains of the places
/// of names in one bucket.
#[derive(Drop)]
pub(crate) struct Known {
    base: usize,
    heads: [u16; WIDTH],
    next: [u16; WIDTH],
    flags: [bool; WIDTH],
}

fn bucket_of(name: &[u8]) -> usize
    ensures { result ≡ bucket_of name.now }
{
    let mut hash = 0;
    for byte in name {
        hash = (hash * 31 + usize::from(*byte)) % WIDTH;
    }
    hash
}

// Chains for these names.
#[tactic(auto, using(crate::proofs::Chains::bucket_low))]
fn link(names: &[Name], heads: &mut [u16], next: &mut [u16])
    requires { HasRoom names.now heads.old next.old }
    ensures { AreChained names.now heads.new next.new }
{
    heads.fill(0);
    for (place, name) in names.iter().enumerate() {
        let bucket = bucket_of(name.as_bytes());
        next[place] = heads[bucket];
        heads[bucket] = place as u16 + 1;
    }
}

// Raises the flag of each name that is this one.
#[tactic(auto, using(crate::proofs::Chains::bucket_low))]
fn mark_equal(names: &[Name], heads: &[u16], next: &[u16], flags: &mut [bool], name: &[u8])
    requires chained { AreChained names.now heads.now next.now }
    requires one_each { length flags.old ≡ length names.now }
    ensures { Raises (λ i. bytes_eq (name_at names.now i) name.now) flags.old flags.new }
{
    let mut left = heads[bucket_of(name)];
    'places: while left > 0 {
        let place = usize::from(left - 1);
        let same = names[place].as_bytes() == name;
        flags[place] = flags[place] | same;
        left = next[place];
    }
}

// Raises the flag of each name that an output has.
fn mark_known(names: &[Name], heads: &[u16], next: &[u16], flags: &mut [bool], outputs: &[Port])
    requires chained { AreChained names.now heads.now next.now }
    requires one_each { length flags.old ≡ length names.now }
    ensures { Raises (λ i. is_among (map port_name outputs.now) (name_at names.now i)) flags.old
        flags.new }
{
    for port in outputs {
        mark_equal(names, heads, next, flags, port.name.as_bytes());
    }
}

// The names from a place on, as many as have flags.
fn window(names: &[Name], base: usize) -> &[Name]
    requires { base ≤ length names.now }
    ensures few { length result.now ≤ known_width }
    ensures enough { (i : ℕ) → i < known_width → base + i < length names.now →
        i < length result.now }
    ensures each { (i : ℕ) → i < length result.now → name_at result.now i
        ≡ name_at names.now (base + i) }
{
    let rest = &names[base..];
    &rest[..rest.len().min(WIDTH)]
}

// Flags for these names.
fn fill(names: &[Name], outputs: &[Port], heads: &mut [u16], next: &mut [u16], flags: &mut [bool])
    requires room { HasRoom names.now heads.old next.old }
    requires many { length flags.old ≡ known_width }
    ensures many { length flags.new ≡ known_width }
    ensures each { (i : ℕ) → i < length names.now → slice_index_or flags.new i false
        ≡ is_among (map port_name outputs.now) (name_at names.now i) }
{
    link(names, heads, next);
    flags.fill(false);
    mark_known(names, heads, next, &mut flags[..names.len()], outputs);
}

impl Known {
    /// Flags for the first nets.
    pub(crate) fn new(names: &[Name], outputs: &[Port]) -> Known
        ensures { Knows result names.now outputs.now }
    {
        let mut known = Known {
            base: 0,
            heads: [0; WIDTH],
            next: [0; WIDTH],
            flags: [false; WIDTH],
        };
        known.move_to(names, outputs, 0);
        known
    }

    // Flags for the nets from a place on.
    fn move_to(&mut self, names: &[Name], outputs: &[Port], base: usize)
        requires { base ≤ length names.now }
        ensures stands { Knows self.new names.now outputs.now }
        ensures base { self.new.base ≡ base }
    {
        self.base = base;
        let names = window(names, base);
        fill(
            names,
            outputs,
            &mut self.heads,
            &mut self.next,
            &mut self.flags,
        );
    }

    // Moves the flags to where they have the net.
    fn reach(&mut self, names: &[Name], outputs: &[Port], place: usize)
        requires place { place < length names.now }
        requires stands { Knows self.old names.now outputs.now }
        ensures stands { Knows self.new names.now outputs.now }
        ensures reached { HasFlag known_width self.new.base place }
    {
        if self.base <= place && place - self.base < WIDTH {
            return;
        }
        self.move_to(names, outputs, place);
    }

    /// Whether an output has the name of a net.
    pub(crate) fn is_output(&mut self, names: &[Name], outputs: &[Port], place: usize) -> bool
        requires place { place < length names.now }
        requires stands { Knows self.old names.now outputs.now }
        ensures stands { Knows self.new names.now outputs.now }
        ensures known { result ≡ is_among (map port_name outputs.now) (name_at names.now place) }
    {
        self.reach(names, outputs, place);
        self.flags[place - self.base]
    }
}
