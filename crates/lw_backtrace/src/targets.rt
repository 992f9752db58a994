// What a netlist of least area is built for.
use lw_fixed::Micros;
use lw_pool::{Classes, Name, Names};

/// What a netlist is built for.
#[derive(Drop)]
pub struct Targets {
    /// The name of the model.
    pub model: Name,
    /// The names of the inputs.
    pub inputs: Names,
    /// The names of the outputs.
    pub outputs: Names,
    /// The class of each output.
    pub roots: Classes,
    /// The time by which each output has to arrive.
    pub times: Micros,
}
