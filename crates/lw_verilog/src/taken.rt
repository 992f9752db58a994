// Which numbers make names of instances that are taken.
ghost use Rattle.std.specs.Prelude.{◌≡◌, ◌<◌, ◌≤◌, ◌+◌, min, length, map, decimal, IsTrue};
ghost use Rattle.std.specs.Char.{is_ascii_digit};
ghost use Rattle.std.specs.List.{list_all, list_any};
ghost use Rattle.std.specs.Str.{bytes_eq};
ghost use Rattle.std.specs.Str.Parse.{digits_value};
ghost use Rattle.lw_named_netlist.specs.Closing.{is_among};
ghost use Rattle.lw_verilog.specs.Texts.{begins_u, instance_name, passed};
ghost use Rattle.lw_verilog.specs.Named.{names_in, Fits};
ghost use Rattle.lw_verilog.specs.Windows.{AreTaken, HasFlag, IsNumberBy, Raises, most_flagged};
ghost use Rattle.lw_verilog.specs.Windows.{number_limit, width};
ghost use Rattle.lw_netlist.specs.Plain.{port_name};

use crate::putting::is_output;
use itoa::Buffer;
use lw_fixed::are_digits;
use lw_netlist::Port;
use lw_pool::Name;

// Numbers from here on are looked up one by one.
const MOST: u64 = 1 << 60;

// How many numbers have flags at a time.
const WIDTH: usize = 65536;

/// The names of the nets and of the outputs.
#[derive(Clone, Copy)]
pub(crate) struct AllNames<'a> {
    pub(crate) names: &'a [Name],
    pub(crate) outputs: &'a [Port],
}

/// Which numbers from a base on make the name of a net or an output.
#[derive(Drop)]
pub(crate) struct Taken {
    base: u64,
    flags: [bool; WIDTH],
    // Whether one of the names begins as those of instances do.
    begun: bool,
}

// The value of digits, or the greatest where it is greater.
fn capped_value(digits: &[u8]) -> u64
    requires { IsTrue (list_all is_ascii_digit digits.now) }
    ensures { result ≡ min (digits_value 10 digits.now) most_flagged }
{
    let mut value = 0;
    for digit in digits {
        value = (value * 10 + u64::from(*digit - b'0')).min(MOST);
    }
    value
}

// The number of which these are the digits.
fn number_in(digits: &[u8]) -> Option<u64>
    ensures { IsNumberBy decimal digits.now result }
{
    if !are_digits(digits) {
        return None;
    }
    let number = capped_value(digits);
    let mut text = Buffer::new();
    if text.format(number).as_bytes() != digits {
        return None;
    }
    Some(number)
}

// The number of the instance that has the name.
fn number_of(name: &[u8]) -> Option<u64>
    ensures { IsNumberBy instance_name name.now result }
{
    if name.is_empty() || name[0] != b'u' {
        return None;
    }
    number_in(&name[1..])
}

// Raises the flag of the number whose instance has the name.
fn mark(flags: &mut [bool], base: u64, name: &[u8])
    requires { base + length flags.old ≤ most_flagged }
    ensures { Raises (λ i. bytes_eq (instance_name (base + i)) name.now) flags.old flags.new }
{
    let Some(number) = number_of(name) else {
        return;
    };
    if number < base {
        return;
    }
    let place = number - base;
    if place >= flags.len() as u64 {
        return;
    }
    flags[place as usize] = true;
}

fn mark_names(flags: &mut [bool], base: u64, names: &[Name])
    requires { base + length flags.old ≤ most_flagged }
    ensures { Raises (λ i. is_among names.now (instance_name (base + i))) flags.old flags.new }
{
    for name in names {
        mark(flags, base, name.as_bytes());
    }
}

fn mark_outputs(flags: &mut [bool], base: u64, outputs: &[Port])
    requires { base + length flags.old ≤ most_flagged }
    ensures { Raises (λ i. is_among (map port_name outputs.now) (instance_name (base + i)))
        flags.old flags.new }
{
    for port in outputs {
        mark(flags, base, port.name.as_bytes());
    }
}

// Flags for the numbers from the base on.
fn mark_taken(flags: &mut [bool], base: u64, all: &AllNames)
    requires many { length flags.old ≡ width }
    requires few { base + width ≤ most_flagged }
    ensures { AreTaken (names_in all.now) base flags.new }
{
    flags.fill(false);
    mark_names(flags, base, all.names);
    mark_outputs(flags, base, all.outputs);
}

fn is_name(names: &[Name], name: &[u8]) -> bool
    ensures { result ≡ is_among names.now name.now }
{
    names.iter().any(|other| name == other.as_bytes())
}

// Whether a net or an output has the name of the instance with this number.
fn has_instance(all: &AllNames, number: u64) -> bool
    ensures { result ≡ is_among (names_in all.now) (instance_name number) }
{
    let mut digits = Buffer::new();
    let digits = digits.format(number).as_bytes();
    let mut text = [0; 21];
    text[0] = b'u';
    let size = 1 + digits.len();
    text[1..size].copy_from_slice(digits);
    is_name(all.names, &text[..size]) || is_output(all.outputs, &text[..size])
}

impl Taken {
    /// Flags for the first numbers.
    pub(crate) fn new(all: &AllNames) -> Taken
        ensures { Fits all.now result }
    {
        let mut flags = [false; WIDTH];
        mark_taken(&mut flags, 1, all);
        let begun = has_begun(all);
        Taken {
            base: 1,
            flags,
            begun,
        }
    }

    // Moves the flags to where they have the number.
    fn reach(&mut self, all: &AllNames, number: u64)
        requires few { number + width ≤ most_flagged }
        requires stands { Fits all.now self.old }
        ensures stands { Fits all.now self.new }
        ensures reached { HasFlag width self.new.base number }
    {
        if self.base <= number && number - self.base < WIDTH as u64 {
            return;
        }
        self.base = number;
        mark_taken(&mut self.flags, number, all);
    }

    // Whether a net or an output has the name of the instance with this number.
    fn is_taken(&mut self, all: &AllNames, number: u64) -> bool
        requires stands { Fits all.now self.old }
        ensures stands { Fits all.now self.new }
        ensures taken { result ≡ is_among (names_in all.now) (instance_name number) }
    {
        if number >= MOST - WIDTH as u64 {
            return has_instance(all, number);
        }
        self.reach(all, number);
        self.flags[(number - self.base) as usize]
    }
}

// How many numbers from this one on are passed over, at most so many.
fn passed(taken: &mut Taken, all: &AllNames, most: u64, number: u64) -> u64
    requires few { number + most < number_limit }
    requires stands { Fits all.now taken.old }
    ensures stands { Fits all.now taken.new }
    ensures passed { result ≡ passed (names_in all.now) most number }
{
    for count in 0..most {
        if !taken.is_taken(all, number + count) {
            return count;
        }
    }
    most
}

fn is_begun(names: &[Name]) -> bool
    ensures { result ≡ list_any begins_u names.now }
{
    names.iter().any(|name| name.as_bytes()[0] == b'u')
}

fn is_output_begun(ports: &[Port]) -> bool
    ensures { result ≡ list_any (λ port. begins_u port.name) ports.now }
{
    ports.iter().any(|port| port.name.as_bytes()[0] == b'u')
}

// Whether a net or an output has a name that begins as those of instances do.
fn has_begun(all: &AllNames) -> bool
    ensures { result ≡ list_any begins_u (names_in all.now) }
{
    is_begun(all.names) || is_output_begun(all.outputs)
}

/// How many numbers from one on are taken, up to so many, as `passed` counts them. Where no name
/// begins as those of instances do, it is 0 at once.
pub(crate) fn skipped(taken: &mut Taken, all: &AllNames, most: u64, number: u64) -> u64
    requires few { number + most < number_limit }
    requires stands { Fits all.now taken.old }
    ensures stands { Fits all.now taken.new }
    ensures skipped { result ≡ passed (names_in all.now) most number }
{
    if !taken.begun {
        return 0;
    }
    passed(taken, all, most, number)
}
