// The ports of a netlist, and a netlist with the classes of its gates.
use lw_netlist::Netlist;
use lw_pool::{Classes, Name, Names};

/// The name of the model, the names of its inputs and outputs, and the class of each output.
#[derive(Drop)]
pub struct Ports {
    pub model: Name,
    pub inputs: Names,
    pub outputs: Names,
    pub roots: Classes,
}

/// A netlist, and the class of each gate.
#[derive(Drop)]
pub struct Cover {
    pub netlist: Netlist,
    pub classes: Classes,
}
