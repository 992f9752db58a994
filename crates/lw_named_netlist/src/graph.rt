// What is kept of a draft while it is closed.
use crate::signals::Signals;
use lw_pool::{CellId, Name, Names, Numbers};

// What is kept of a draft: the names that are driven, the numbers of what each gate and then each
// wire hangs on among them, the cells of the gates, and the rest but for the names of pins.
#[derive(Drop)]
pub(crate) struct Graph {
    pub(crate) model: Name,
    pub(crate) inputs: usize,
    // The names of the inputs.
    pub(crate) first: Names,
    pub(crate) outputs: Names,
    pub(crate) cells: Vec<CellId>,
    pub(crate) signals: Signals,
    pub(crate) rows: Vec<Numbers>,
}
