// The words of a command.
ghost use Rattle.std.specs.Prelude.{◌≡◌, ◌≤◌, None, Some, map, string_bytes, option_map};
ghost use Rattle.std.specs.Prelude.{MatchOption};
ghost use Rattle.lw_top.specs.Words.{width_of, is_file_word, two, three, one_file, two_files};
ghost use Rattle.lw_top.specs.Words.{three_files, with_mode, begun_by, is_numeral, number_of};
ghost use Rattle.lw_top.specs.Words.{seed_of, count_of, certified_of, mapping_begun};
ghost use Rattle.lw_top.specs.Words.{checking_begun, counting_begun, leaves_of, tabling_begun};
ghost use Rattle.lw_top.specs.Words.{deadline_of, traded_of, trading_begun, timing_of};
ghost use Rattle.lw_top.specs.Words.{simulation_of, drawing_of, to_verilog_of, from_verilog_of};
ghost use Rattle.lw_top.specs.Words.{named, command_of, file_in, file_word};
ghost use Rattle.lw_top.specs.declared.refusal.Which.TheVariants as which;
ghost use Rattle.lw_top.specs.Commands.{plain_begun, plain_command, asked};
ghost use Rattle.lw_map.specs.Options.{plain_options};

use crate::refusal::Which;
use lw_fixed::{Micro, are_digits, read};
use lw_map::{Mode, Options};

/// A command, with its options and the words for its files.
#[derive(Clone, Copy)]
pub enum Command<'a> {
    /// The network mapped to cells of the library, with its certificate or without.
    Mapping(Options, bool, &'a str, &'a str),
    /// A mapped netlist with its certificate, checked against the library and the network.
    Checking(Options, &'a str, &'a str, &'a str),
    /// When the outputs of a mapped netlist arrive.
    Timing(&'a str, &'a str),
    /// The values of a network's outputs.
    Simulation(&'a str, &'a str),
    /// The values of a mapped netlist's outputs.
    GateSimulation(&'a str, &'a str, &'a str),
    /// How large the graph of a network's forms is.
    Counting(Options, &'a str),
    /// A network covered by lookup tables of at most so many fan-ins.
    Tabling(u8, Options, &'a str),
    /// A network drawn from a number, of so many nodes, mapped to cells of the library.
    Drawing(u64, u32, &'a str),
    /// A mapped netlist, written in Verilog.
    ToVerilog(&'a str, &'a str),
    /// A netlist in Verilog, written as a mapped netlist.
    FromVerilog(&'a str, &'a str),
    /// The network mapped to cells of the library with the least area by a deadline, if any.
    Trading(Option<Micro>, Options, &'a str, &'a str),
}

// Whether a word may name a file: it does not begin with `-`.
fn is_file_word(word: &str) -> bool
    ensures { result ≡ is_file_word word.now }
{
    !word.starts_with("-")
}

// The only word, if there is one and it may name a file.
fn one_file(words: &[String]) -> Option<&str>
    ensures { MatchOption result (one_file (map string_bytes words.now) ≡ None)
        (λ a. one_file (map string_bytes words.now) ≡ Some a.now) }
{
    match words {
        [a] if is_file_word(a.as_str()) => Some(a.as_str()),
        _ => None,
    }
}

// The two words, if there are so many and each may name a file.
fn two_files(words: &[String]) -> Option<(&str, &str)>
    ensures { MatchOption result (two_files (map string_bytes words.now) ≡ None)
        (λ files. two_files (map string_bytes words.now) ≡ Some (two files.0.now files.1.now)) }
{
    match words {
        [a, b] if is_file_word(a.as_str()) && is_file_word(b.as_str()) => {
            Some((a.as_str(), b.as_str()))
        }
        _ => None,
    }
}

// The three words, if there are so many and each may name a file.
fn three_files(words: &[String]) -> Option<(&str, &str, &str)>
    ensures { MatchOption result (three_files (map string_bytes words.now) ≡ None)
        (λ files. three_files (map string_bytes words.now)
        ≡ Some (three files.0.now files.1.now files.2.now)) }
{
    match words {
        [a, b, c]
            if is_file_word(a.as_str()) && is_file_word(b.as_str()) && is_file_word(c.as_str()) => {
            Some((a.as_str(), b.as_str(), c.as_str()))
        }
        _ => None,
    }
}

// The width that one of the words `2` to `8` is; none for other words.
fn width_of(word: &str) -> Option<u8>
    ensures { result ≡ width_of word.now }
{
    match word.as_bytes() {
        [digit] if b'2' <= *digit && *digit <= b'8' => Some(*digit - b'0'),
        _ => None,
    }
}

// The number of leaves that one of the words `2` to `6` is; none for other words.
fn leaves_of(word: &str) -> Option<u8>
    ensures { result ≡ leaves_of word.now }
{
    match word.as_bytes() {
        [digit] if b'2' <= *digit && *digit <= b'6' => Some(*digit - b'0'),
        _ => None,
    }
}

/// Options, and the words after them.
#[derive(Clone, Copy)]
pub struct Begun<'a> {
    options: Options,
    rest: &'a [String],
}

// Reads `[-i]` after the width: the options, and the words after them.
fn with_mode(width: u8, words: &[String]) -> Begun<'_>
    requires { (2 ≤ width) × (width ≤ 8) }
    ensures { plain_begun result ≡ with_mode width (map string_bytes words.now) }
{
    match words {
        [option, rest @ ..] if option.as_str() == "-i" => {
            let mode = Mode::Idempotent;
            Begun {
                options: Options { width, mode },
                rest,
            }
        }
        _ => {
            let mode = Mode::Plain;
            Begun {
                options: Options { width, mode },
                rest: words,
            }
        }
    }
}

// Reads `[-w K] [-i]`: the options, with width 6 if none is given, and the words after them. None
// if K is no width.
fn begun_by(words: &[String]) -> Option<Begun<'_>>
    ensures { option_map plain_begun result ≡ begun_by (map string_bytes words.now) }
{
    match words {
        [option, word, rest @ ..] if option.as_str() == "-w" => {
            Some(with_mode(width_of(word.as_str())?, rest))
        }
        _ => Some(with_mode(6, words)),
    }
}

// Whether a word is one digit or more, and nothing else.
fn is_numeral(word: &str) -> bool
    ensures { result ≡ is_numeral word.now }
{
    1 <= word.len() && are_digits(word.as_bytes())
}

// The number that a word is, a decimal numeral below 2^64; none for other words.
fn number_of(word: &str) -> Option<u64>
    ensures { result ≡ number_of word.now }
{
    if !is_numeral(word) {
        return None;
    }
    match word.parse::<u64>() {
        Ok(number) => Some(number),
        Err(_) => None,
    }
}

// The most digits of a seed.
const SEED_DIGITS: usize = 20;

// The seed that a word is, a number of at most 20 digits; none for other words.
fn seed_of(word: &str) -> Option<u64>
    ensures { result ≡ seed_of word.now }
{
    if word.len() <= SEED_DIGITS {
        number_of(word)
    } else {
        None
    }
}

// The most nodes of a drawn network.
const MOST_NODES: u64 = 20_000;

// The count that a word is, a number from 1 to 20000 without leading zero; none for other words.
fn count_of(word: &str) -> Option<u32>
    ensures { result ≡ count_of word.now }
{
    if word.starts_with("0") {
        return None;
    }
    match number_of(word) {
        Some(n) if 1 <= n && n <= MOST_NODES => Some(n as u32),
        _ => None,
    }
}

// Reads `[-c] LIB IN`, after the options of `map`.
fn certified_of(options: Options, words: &[String]) -> Option<Command<'_>>
    ensures { asked result ≡ certified_of (plain_options options) (map string_bytes words.now) }
{
    match words {
        [option, rest @ ..] if option.as_str() == "-c" => {
            let (library, network) = two_files(rest)?;
            Some(Command::Mapping(options, true, library, network))
        }
        _ => {
            let (library, network) = two_files(words)?;
            Some(Command::Mapping(options, false, library, network))
        }
    }
}

// Reads `[-w K] [-i] [-c] LIB IN`, after `map`.
fn mapping_of(words: &[String]) -> Option<Command<'_>>
    ensures { asked result ≡ mapping_begun (begun_by (map string_bytes words.now)) }
{
    let begun = begun_by(words)?;
    certified_of(begun.options, begun.rest)
}

// Reads `[-w K] [-i] LIB IN MAPPED`, after `check`.
fn checking_of(words: &[String]) -> Option<Command<'_>>
    ensures { asked result ≡ checking_begun (begun_by (map string_bytes words.now)) }
{
    let begun = begun_by(words)?;
    let (library, network, mapped) = three_files(begun.rest)?;
    Some(Command::Checking(begun.options, library, network, mapped))
}

// Reads `[-w K] [-i] IN`, after `graph`.
fn counting_of(words: &[String]) -> Option<Command<'_>>
    ensures { asked result ≡ counting_begun (begun_by (map string_bytes words.now)) }
{
    let begun = begun_by(words)?;
    let network = one_file(begun.rest)?;
    Some(Command::Counting(begun.options, network))
}

// Reads `L [-w K] [-i] IN`, after `lut`.
fn tabling_of(words: &[String]) -> Option<Command<'_>>
    ensures { asked result ≡ tabling_begun (map string_bytes words.now) }
{
    match words {
        [leaves, rest @ ..] => {
            let leaves = leaves_of(leaves.as_str())?;
            let begun = begun_by(rest)?;
            let network = one_file(begun.rest)?;
            Some(Command::Tabling(leaves, begun.options, network))
        }
        _ => None,
    }
}

// Reads `LIB MAPPED`, after `time`.
fn timing_of(words: &[String]) -> Option<Command<'_>>
    ensures { asked result ≡ timing_of (two_files (map string_bytes words.now)) }
{
    let (library, mapped) = two_files(words)?;
    Some(Command::Timing(library, mapped))
}

// Reads `IN VECTORS`, or `-g LIB MAPPED VECTORS`, after `sim`.
fn simulation_of(words: &[String]) -> Option<Command<'_>>
    ensures { asked result ≡ simulation_of (map string_bytes words.now) }
{
    match words {
        [option, rest @ ..] if option.as_str() == "-g" => {
            let (library, mapped, vectors) = three_files(rest)?;
            Some(Command::GateSimulation(library, mapped, vectors))
        }
        _ => {
            let (network, vectors) = two_files(words)?;
            Some(Command::Simulation(network, vectors))
        }
    }
}

// Reads `SEED N LIB`, after `big`.
fn drawing_of(words: &[String]) -> Option<Command<'_>>
    ensures { asked result ≡ drawing_of (map string_bytes words.now) }
{
    match words {
        [seed, count, rest @ ..] => {
            let seed = seed_of(seed.as_str())?;
            let count = count_of(count.as_str())?;
            let library = one_file(rest)?;
            Some(Command::Drawing(seed, count, library))
        }
        _ => None,
    }
}

// Reads `LIB MAPPED`, after `verilog`.
fn to_verilog_of(words: &[String]) -> Option<Command<'_>>
    ensures { asked result ≡ to_verilog_of (two_files (map string_bytes words.now)) }
{
    let (library, mapped) = two_files(words)?;
    Some(Command::ToVerilog(library, mapped))
}

// Reads `LIB VER`, after `unverilog`.
fn from_verilog_of(words: &[String]) -> Option<Command<'_>>
    ensures { asked result ≡ from_verilog_of (two_files (map string_bytes words.now)) }
{
    let (library, verilog) = two_files(words)?;
    Some(Command::FromVerilog(library, verilog))
}

// What each time is below.
const TIME_UNITS: u64 = 1_000_000;

// The deadline that a word is: none for `none`, or a decimal below 1000000, in millionths. Other
// words have no answer.
fn deadline_of(word: &str) -> Option<Option<Micro>>
    ensures { result ≡ deadline_of word.now }
{
    if word == "none" {
        return Some(None);
    }
    match read(word.as_bytes(), TIME_UNITS) {
        Ok(time) => Some(Some(time)),
        Err(_) => None,
    }
}

// Reads `T LIB IN`, after the options of `trade`.
fn traded_of(options: Options, words: &[String]) -> Option<Command<'_>>
    ensures { asked result ≡ traded_of (plain_options options) (map string_bytes words.now) }
{
    match words {
        [time, rest @ ..] => {
            let deadline = deadline_of(time.as_str())?;
            let (library, network) = two_files(rest)?;
            Some(Command::Trading(deadline, options, library, network))
        }
        _ => None,
    }
}

// Reads `[-w K] [-i] T LIB IN`, after `trade`.
fn trading_of(words: &[String]) -> Option<Command<'_>>
    ensures { asked result ≡ trading_begun (begun_by (map string_bytes words.now)) }
{
    let begun = begun_by(words)?;
    traded_of(begun.options, begun.rest)
}

// The command that a name and the words after it are a written form of, if they are one.
fn named<'a>(name: &str, words: &'a [String]) -> Option<Command<'a>>
    ensures { asked result ≡ named name.now (map string_bytes words.now) }
{
    match name {
        "map" => mapping_of(words),
        "check" => checking_of(words),
        "time" => timing_of(words),
        "sim" => simulation_of(words),
        "graph" => counting_of(words),
        "big" => drawing_of(words),
        "verilog" => to_verilog_of(words),
        "unverilog" => from_verilog_of(words),
        "lut" => tabling_of(words),
        "trade" => trading_of(words),
        _ => None,
    }
}

/// The command that the words are a written form of, if they are one.
pub fn command_of(words: &[String]) -> Option<Command<'_>>
    ensures { asked result ≡ command_of (map string_bytes words.now) }
{
    match words {
        [name, rest @ ..] => named(name.as_str(), rest),
        _ => None,
    }
}

// The word for the file of the library, empty if the command reads none.
fn library_word<'a>(command: Command<'a>) -> &'a str
    ensures { result.now ≡ file_in (plain_command command.entry) which.Library }
{
    match command {
        Command::Mapping(_, _, library, _)
        | Command::Checking(_, library, _, _)
        | Command::Timing(library, _)
        | Command::GateSimulation(library, _, _)
        | Command::Drawing(_, _, library)
        | Command::ToVerilog(library, _)
        | Command::FromVerilog(library, _)
        | Command::Trading(_, _, library, _) => library,
        _ => "",
    }
}

// The word for the file of the network, which a refusal names; empty if the command reads none.
fn network_word<'a>(command: Command<'a>) -> &'a str
    ensures { result.now ≡ file_in (plain_command command.entry) which.Network }
{
    match command {
        Command::Mapping(_, _, _, network)
        | Command::Checking(_, _, network, _)
        | Command::Simulation(network, _)
        | Command::Counting(_, network)
        | Command::Tabling(_, _, network)
        | Command::Trading(_, _, _, network) => network,
        _ => "",
    }
}

// The word for the file of the netlist, mapped or in Verilog, which a refusal names; empty if the
// command reads none.
fn mapped_word<'a>(command: Command<'a>) -> &'a str
    ensures { result.now ≡ file_in (plain_command command.entry) which.Mapped }
{
    match command {
        Command::Checking(_, _, _, mapped)
        | Command::Timing(_, mapped)
        | Command::GateSimulation(_, mapped, _)
        | Command::ToVerilog(_, mapped)
        | Command::FromVerilog(_, mapped) => mapped,
        _ => "",
    }
}

// The word for the file of the vectors, which a refusal names; empty if the command reads none.
fn vectors_word<'a>(command: Command<'a>) -> &'a str
    ensures { result.now ≡ file_in (plain_command command.entry) which.Vectors }
{
    match command {
        Command::Simulation(_, vectors) | Command::GateSimulation(_, _, vectors) => vectors,
        _ => "",
    }
}

/// The word for one of the command's files, empty if it reads none or there is no command. By it
/// `telling` names the file in the line of a refusal; no file is opened by it.
pub fn file_word<'a>(command: Option<Command<'a>>, which: Which) -> &'a [u8]
    ensures { result.now ≡ file_word (asked command.entry) which }
{
    let Some(command) = command else {
        return b"";
    };
    let word = match which {
        Which::Library => library_word(command),
        Which::Network => network_word(command),
        Which::Mapped => mapped_word(command),
        Which::Vectors => vectors_word(command),
    };
    word.as_bytes()
}
