// Where in the grammar a token stands.
ghost use Rattle.std.specs.Prelude.{◌≡◌, false, IfSome};
ghost use Rattle.lw_verilog.specs.declared.kind.Kind.TheVariants as kind;
ghost use Rattle.lw_verilog.specs.Grammar.{move_at, moved};
ghost use Rattle.lw_verilog.specs.Tokens.{is_end};

use crate::Kind;

/// A place between two tokens.
#[derive(Clone, Copy)]
pub enum Place {
    /// Before `module`.
    Begin,
    /// Before the name of the module.
    ModelName,
    /// Behind the name of the module.
    BehindModel,
    /// Behind `(` of a list of ports.
    FirstPort,
    /// Behind a comma between ports.
    NextPort,
    /// Behind a port.
    BehindPort,
    /// Behind `)` of a list of ports.
    BehindPorts,
    /// Where an item or `endmodule` stands.
    Item,
    /// Behind `input`.
    FirstInput,
    /// Where the name of an input has to stand.
    NextInput,
    /// Behind the name of an input.
    BehindInput,
    /// Behind `output`.
    FirstOutput,
    /// Where the name of an output has to stand.
    NextOutput,
    /// Behind the name of an output.
    BehindOutput,
    /// Where the name of a wire stands.
    NextWire,
    /// Behind the name of a wire.
    BehindWire,
    /// Behind `assign`.
    Target,
    /// Behind the name that is assigned to.
    BehindTarget,
    /// Behind `=`.
    Source,
    /// Behind the name that is assigned.
    BehindSource,
    /// Behind the name of a cell.
    InstanceName,
    /// Behind the name of an instance.
    BehindInstance,
    /// Behind `(` of an instance.
    FirstTie,
    /// Behind a comma between connections.
    NextTie,
    /// Behind `.`.
    Pin,
    /// Behind the name of a pin.
    BehindPin,
    /// Behind `(` of a connection.
    Net,
    /// Behind the net of a connection.
    BehindNet,
    /// Behind a connection.
    BehindTie,
    /// Behind `)` of an instance.
    BehindTies,
    /// Behind `endmodule`.
    Done,
}

/// What a token does.
#[derive(Clone, Copy)]
pub enum Task {
    /// Nothing.
    Skip,
    /// It is a name of the statement.
    Word,
    /// It is the name of an input or an output that is declared.
    Declare,
    /// It is the name of a cell.
    Cell,
    /// It is the name of a pin.
    Pin,
    /// It ends the header.
    Header,
    /// It ends a statement that declares inputs.
    Inputs,
    /// It ends a statement that declares outputs.
    Outputs,
    /// It ends a statement that declares wires.
    Forget,
    /// It ends an assignment.
    Assignment,
    /// It ends an instance.
    Instance,
    /// It ends the module.
    Finish,
}

/// The place behind a token, and what the token does.
#[derive(Clone, Copy)]
pub struct Move {
    pub next: Place,
    pub task: Task,
}

fn moved(next: Place, task: Task) -> Option<Move>
    ensures { result ≡ moved next task }
{
    Some(Move { next, task })
}

// What a name does at this place, if one may stand there.
#[tactic(auto, unfolding(crate::specs::Grammar::move_at))]
fn move_by_name(place: Place) -> Option<Move>
    ensures { result ≡ move_at place kind.Name }
{
    match place {
        Place::ModelName => moved(Place::BehindModel, Task::Word),
        Place::FirstPort => moved(Place::BehindPort, Task::Word),
        Place::NextPort => moved(Place::BehindPort, Task::Word),
        Place::Item => moved(Place::InstanceName, Task::Cell),
        Place::FirstInput => moved(Place::BehindInput, Task::Declare),
        Place::NextInput => moved(Place::BehindInput, Task::Declare),
        Place::FirstOutput => moved(Place::BehindOutput, Task::Declare),
        Place::NextOutput => moved(Place::BehindOutput, Task::Declare),
        Place::NextWire => moved(Place::BehindWire, Task::Word),
        Place::Target => moved(Place::BehindTarget, Task::Word),
        Place::Source => moved(Place::BehindSource, Task::Word),
        Place::InstanceName => moved(Place::BehindInstance, Task::Word),
        Place::Pin => moved(Place::BehindPin, Task::Pin),
        Place::Net => moved(Place::BehindNet, Task::Word),
        _ => None,
    }
}

// What a comma does at this place, if one may stand there.
#[tactic(auto, unfolding(crate::specs::Grammar::move_at))]
fn move_by_comma(place: Place) -> Option<Move>
    ensures { result ≡ move_at place kind.Comma }
{
    match place {
        Place::BehindPort => moved(Place::NextPort, Task::Skip),
        Place::BehindInput => moved(Place::NextInput, Task::Skip),
        Place::BehindOutput => moved(Place::NextOutput, Task::Skip),
        Place::BehindWire => moved(Place::NextWire, Task::Skip),
        Place::BehindTie => moved(Place::NextTie, Task::Skip),
        _ => None,
    }
}

// What a semicolon does at this place, if one may stand there.
#[tactic(auto, unfolding(crate::specs::Grammar::move_at))]
fn move_by_semicolon(place: Place) -> Option<Move>
    ensures { result ≡ move_at place kind.Semicolon }
{
    match place {
        Place::BehindModel => moved(Place::Item, Task::Header),
        Place::BehindPorts => moved(Place::Item, Task::Header),
        Place::BehindInput => moved(Place::Item, Task::Inputs),
        Place::BehindOutput => moved(Place::Item, Task::Outputs),
        Place::BehindWire => moved(Place::Item, Task::Forget),
        Place::BehindSource => moved(Place::Item, Task::Assignment),
        Place::BehindTies => moved(Place::Item, Task::Instance),
        _ => None,
    }
}

// What `(` does at this place, if one may stand there.
#[tactic(auto, unfolding(crate::specs::Grammar::move_at))]
fn move_by_open(place: Place) -> Option<Move>
    ensures { result ≡ move_at place kind.Open }
{
    match place {
        Place::BehindModel => moved(Place::FirstPort, Task::Skip),
        Place::BehindInstance => moved(Place::FirstTie, Task::Skip),
        Place::BehindPin => moved(Place::Net, Task::Skip),
        _ => None,
    }
}

// What `)` does at this place, if one may stand there.
#[tactic(auto, unfolding(crate::specs::Grammar::move_at))]
fn move_by_close(place: Place) -> Option<Move>
    ensures { result ≡ move_at place kind.Close }
{
    match place {
        Place::FirstPort => moved(Place::BehindPorts, Task::Skip),
        Place::BehindPort => moved(Place::BehindPorts, Task::Skip),
        Place::FirstTie => moved(Place::BehindTies, Task::Skip),
        Place::BehindNet => moved(Place::BehindTie, Task::Skip),
        Place::BehindTie => moved(Place::BehindTies, Task::Skip),
        _ => None,
    }
}

/// What a token of this kind does at this place, if one may stand there.
#[tactic(auto, unfolding(crate::specs::Grammar::move_at))]
pub(crate) fn move_at(place: Place, kind: Kind) -> Option<Move>
    ensures step { result ≡ move_at place kind }
    ensures ended { IfSome result (λ step. is_end kind ≡ false) }
{
    match (place, kind) {
        (_, Kind::Name) => move_by_name(place),
        (_, Kind::Open) => move_by_open(place),
        (_, Kind::Close) => move_by_close(place),
        (_, Kind::Comma) => move_by_comma(place),
        (_, Kind::Semicolon) => move_by_semicolon(place),
        (Place::Begin, Kind::Module) => moved(Place::ModelName, Task::Skip),
        (Place::Item, Kind::Input) => moved(Place::FirstInput, Task::Skip),
        (Place::Item, Kind::Output) => moved(Place::FirstOutput, Task::Skip),
        (Place::Item, Kind::Wire) => moved(Place::NextWire, Task::Skip),
        (Place::Item, Kind::Assign) => moved(Place::Target, Task::Skip),
        (Place::Item, Kind::EndModule) => moved(Place::Done, Task::Finish),
        (Place::FirstInput, Kind::Wire) => moved(Place::NextInput, Task::Skip),
        (Place::FirstOutput, Kind::Wire) => moved(Place::NextOutput, Task::Skip),
        (Place::BehindTarget, Kind::Equals) => moved(Place::Source, Task::Skip),
        (Place::FirstTie, Kind::Point) => moved(Place::Pin, Task::Skip),
        (Place::NextTie, Kind::Point) => moved(Place::Pin, Task::Skip),
        _ => None,
    }
}
