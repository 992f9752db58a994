// What the first word of a line asks for.
ghost use Rattle.std.specs.Prelude.{◌≡◌};
ghost use Rattle.lw_blif.specs.Commands.{command_of, point_command, other_command};
ghost use Rattle.lw_blif.specs.Commands.{is_unsupported_word};

use lw_words::{is, is_ignored};

/// What the first word of a line asks for.
#[derive(Clone, Copy, PartialEq, Eq)]
pub enum Command {
    Model,
    Inputs,
    Outputs,
    Names,
    Latch,
    /// The start of one input.
    Arrival,
    /// The start of each input that has no line of its own.
    DefaultArrival,
    /// The reading ends.
    End,
    /// A line that says nothing of the logic.
    Ignored,
    Unsupported,
    Unknown,
    /// The word is no command: the line is a row of a node.
    Row,
}

/// What a first word asks for.
#[tactic(auto, unfolding(crate::specs::Commands::command_of))]
pub fn command_of(word: &[u8]) -> Command
    ensures { result ≡ command_of word.now }
{
    match word {
        [b'.', ..] => point_command(word),
        _ => Command::Row,
    }
}

// What a word that begins with `.` asks for.
#[tactic(auto, unfolding(crate::specs::Commands::point_command))]
fn point_command(word: &[u8]) -> Command
    ensures { result ≡ point_command word.now }
{
    if is(word, b".names") {
        return Command::Names;
    }
    if is(word, b".inputs") {
        return Command::Inputs;
    }
    if is(word, b".outputs") {
        return Command::Outputs;
    }
    if is(word, b".model") {
        return Command::Model;
    }
    if is(word, b".latch") {
        return Command::Latch;
    }
    if is(word, b".end") || is(word, b".exdc") {
        return Command::End;
    }
    other_command(word)
}

// What another word that begins with `.` asks for.
#[tactic(auto, unfolding(crate::specs::Commands::other_command))]
fn other_command(word: &[u8]) -> Command
    ensures { result ≡ other_command word.now }
{
    if is(word, b".input_arrival") {
        return Command::Arrival;
    }
    if is(word, b".default_input_arrival") {
        return Command::DefaultArrival;
    }
    if is_ignored(word) {
        return Command::Ignored;
    }
    if is_unsupported(word) {
        return Command::Unsupported;
    }
    Command::Unknown
}

#[tactic(auto, unfolding(crate::specs::Commands::is_unsupported_word))]
fn is_unsupported(word: &[u8]) -> bool
    ensures { result ≡ is_unsupported_word word.now }
{
    is(word, b".gate")
        || is(word, b".mlatch")
        || is(word, b".subckt")
        || is(word, b".search")
        || is(word, b".clock")
        || is(word, b".start_kiss")
}
