// Fields of an entry, each one word.
ghost use Rattle.std.specs.Prelude.{◌≡◌, Ok, Err, IfSome, IfNone};
ghost use Rattle.std.specs.List.{position};
ghost use Rattle.std.specs.Str.{bytes_eq};
ghost use Rattle.lw_genlib.specs.Cells.{IsWord};
ghost use Rattle.lw_genlib.specs.Entries as words;
ghost use Rattle.lw_genlib.specs.Libraries as library;
ghost use Rattle.lw_genlib.specs.Streams.{on_line};
ghost use Rattle.lw_genlib.specs.declared.fault.LibKind.TheVariants.{Expected};
ghost use Rattle.lw_words.specs.Limits.{longest_word};

use crate::given::Given;
use crate::{Field, LibFault, LibKind, Target};
use lw_fixed::Micro;
use lw_pool::Name;

const UNITS: u64 = 1_000_000;

/// A cell's name without its quotes.
pub(crate) fn cell_name(word: &[u8]) -> Option<&[u8]>
    requires { IsWord longest_word word.now }
    ensures some { IfSome result (λ name. words.cell_name word.now ≡ Ok name.now) }
    ensures none { IfNone result (words.cell_name word.now ≡ Err Expected) }
    ensures word { IfSome result (λ name. IsWord longest_word name.now) }
{
    match word {
        [b'"'] | [b'"', b'"'] => None,
        [b'"', inner @ .., b'"'] => Some(inner),
        _ => Some(word),
    }
}

/// A number below a million.
pub(crate) fn number(given: &Given) -> Result<Micro, LibFault>
    ensures { result ≡ on_line given.now.line (words.number_of given.now.word.now) }
{
    match lw_fixed::read(given.word, UNITS) {
        Ok(number) => Ok(number),
        Err(fault) => Err(LibFault::Line(given.line, LibKind::Decimal(fault))),
    }
}

fn is_phase(word: &[u8]) -> bool
    ensures { result ≡ words.is_phase word.now }
{
    word == b"INV".as_slice() || word == b"NONINV".as_slice() || word == b"UNKNOWN".as_slice()
}

fn is_like_number(word: &[u8]) -> bool
    ensures { result ≡ words.is_like_number word.now }
{
    match word {
        [first, ..] => first.is_ascii_digit() || matches!(*first, b'+' | b'-' | b'.'),
        [] => false,
    }
}

/// The word begins an entry.
pub(crate) fn begins_entry(word: &[u8]) -> bool
    ensures { result ≡ library.begins_entry word.now }
{
    word == b"GATE".as_slice() || word == b"LATCH".as_slice()
}

/// The pins that a word names.
pub(crate) fn target(given: &Given, pins: &[Name]) -> Result<Target, LibFault>
    ensures { result ≡ on_line given.now.line (words.target_of pins.now given.now.word.now) }
{
    if given.word == b"*".as_slice() {
        return Ok(Target::Every);
    }
    match place_among(pins, given.word) {
        Some(place) => Ok(Target::One(place)),
        None => Err(LibFault::Line(given.line, LibKind::PinUnknown)),
    }
}

fn place_among(names: &[Name], word: &[u8]) -> Option<usize>
    ensures { result ≡ position (bytes_eq word.now) names.now }
{
    names.iter().position(|name| word == name.as_bytes())
}

// Reads a rise or fall block delay: the larger of it and the delay so far.
fn larger(given: &Given, delay: Micro) -> Result<Micro, LibFault>
    ensures { result
        ≡ on_line given.now.line (words.larger delay (words.number_of given.now.word.now)) }
{
    match number(given) {
        Ok(block) => Ok(Micro(delay.0.max(block.0))),
        Err(fault) => Err(fault),
    }
}

/// The larger of a delay and what a word behind a pin's name says.
pub(crate) fn delay_behind(given: &Given, field: Field, delay: Micro) -> Result<Micro, LibFault>
    ensures { result ≡ on_line given.now.line (words.delay_behind field delay given.now.word.now) }
{
    match field {
        Field::Phase => if is_phase(given.word) {
            Ok(delay)
        } else {
            Err(LibFault::Line(given.line, LibKind::PhaseWord))
        },
        Field::Rise => larger(given, delay),
        Field::Fall => larger(given, delay),
        _ => if is_like_number(given.word) {
            Ok(delay)
        } else {
            Err(LibFault::Line(given.line, LibKind::Expected))
        },
    }
}
