// What keeps a netlist from having a Verilog text.
use lw_pool::Name;

/// Why a netlist has no Verilog text.
#[derive(Drop)]
pub enum NoVerilog {
    /// It has latches.
    Latches,
    /// This name has a byte outside 33 to 126.
    Bytes(Name),
    /// An output has this name of an input.
    Same(Name),
    /// The model has this name of a cell.
    Clash(Name),
    /// The cell with this name has one name for its output and a pin.
    Pins(Name),
}
