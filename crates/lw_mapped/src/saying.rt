// What a line of a mapped text may say.
use lw_fixed::Micro;
use lw_named_netlist::{SpelledGate, Wire};
use lw_pool::{ClassId, Latch, Name, Names};

/// What a line says.
#[derive(Drop)]
pub enum Saying {
    Model(Name),
    Inputs(Names),
    Outputs(Names),
    Gate(SpelledGate),
    Wire(Wire),
    Latch(Latch),
    /// An input arrives at this time.
    Arrival(Name, Micro),
    /// Each input that has no line of its own arrives at this time.
    DefaultArrival(Micro),
    Label(ClassId, Micro),
    /// The class of a net.
    Net(Name, ClassId),
    Nothing,
}
