// What a file of a comparison says.
use lw_blif::Parsed;
use lw_equal::{Logic, Side};
use lw_genlib::Library;
use lw_mapped::Mapped;
use lw_pool::Name;

/// What a file says: a network, or a netlist of cells of the library.
#[derive(Drop)]
pub enum Source {
    Network(Parsed),
    Netlist(Mapped),
}

impl Source {
    ghost use Rattle.std.specs.Prelude.{◌≡◌};
    ghost use Rattle.lw_equal_top.specs.Sources.{IsSideOf, IsSource, input_names};
    ghost use Rattle.lw_equal.specs.Sides.{IsSide};

    /// What the source is compared as, by the cells of the library.
    pub fn side<'a>(&'a self, library: &'a Library) -> Side<'a>
        requires { IsSource library.now self.now }
        ensures of { IsSideOf library.now self.now result }
        ensures side { IsSide result }
    {
        match self {
            Source::Network(model) => Side {
                logic: Logic::Rows(&model.network),
                frame: &model.frame,
            },
            Source::Netlist(mapped) => Side {
                logic: Logic::Cells(&mapped.netlist, library),
                frame: &mapped.frame,
            },
        }
    }

    /// The names of the inputs, the latches' outputs behind the circuit's own.
    pub fn input_names(&self) -> &[Name]
        ensures { result.now ≡ input_names self.now }
    {
        match self {
            Source::Network(model) => { &model.network.names()[..model.network.inputs() as usize] }
            Source::Netlist(mapped) => {
                &mapped.netlist.names()[..mapped.netlist.inputs() as usize]
            }
        }
    }
}
