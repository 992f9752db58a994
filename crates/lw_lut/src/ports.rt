// The ports of a network of tables.
use lw_pool::{Classes, Name, Names};

/// The name of the model, the names of its inputs and outputs, and the class of each output.
#[derive(Drop)]
pub struct TablePorts {
    pub model: Name,
    pub inputs: Names,
    pub outputs: Names,
    pub roots: Classes,
}
