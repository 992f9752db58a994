// What the first word of a line asks for.
ghost use Rattle.std.specs.Prelude.{◌≡◌};
ghost use Rattle.lw_mapped.specs.Commands.{command_of, point_command, port_command, other_command};

use lw_words::{is, is_ignored};

/// What the first word of a line asks for.
#[derive(Clone, Copy)]
pub enum Command {
    Model,
    Inputs,
    Outputs,
    Gate,
    Names,
    Latch,
    InputArrival,
    DefaultArrival,
    /// A line of a certificate.
    Certificate,
    /// The reading ends.
    End,
    Ignored,
    Unknown,
    /// The word is no command.
    Plain,
}

/// What a first word asks for.
#[tactic(auto, unfolding(crate::specs::Commands::command_of))]
pub fn command_of(word: &[u8]) -> Command
    ensures { result ≡ command_of word.now }
{
    match word {
        [b'.', ..] => point_command(word),
        [b'#', b'@'] => Command::Certificate,
        _ => Command::Plain,
    }
}

// What a word that begins with `.` asks for.
#[tactic(auto, unfolding(crate::specs::Commands::point_command))]
fn point_command(word: &[u8]) -> Command
    ensures { result ≡ point_command word.now }
{
    if is(word, b".gate") {
        return Command::Gate;
    }
    if is(word, b".names") {
        return Command::Names;
    }
    if is(word, b".latch") {
        return Command::Latch;
    }
    if is(word, b".end") || is(word, b".exdc") {
        return Command::End;
    }
    port_command(word)
}

// What another word that begins with `.` asks for.
#[tactic(auto, unfolding(crate::specs::Commands::port_command))]
fn port_command(word: &[u8]) -> Command
    ensures { result ≡ port_command word.now }
{
    if is(word, b".model") {
        return Command::Model;
    }
    if is(word, b".inputs") {
        return Command::Inputs;
    }
    if is(word, b".outputs") {
        return Command::Outputs;
    }
    if is(word, b".input_arrival") {
        return Command::InputArrival;
    }
    if is(word, b".default_input_arrival") {
        return Command::DefaultArrival;
    }
    other_command(word)
}

// What a word that begins with `.` asks for, if it is none of a netlist's own lines.
#[tactic(auto, unfolding(crate::specs::Commands::other_command))]
fn other_command(word: &[u8]) -> Command
    ensures { result ≡ other_command word.now }
{
    if is_ignored(word) {
        return Command::Ignored;
    }
    Command::Unknown
}
