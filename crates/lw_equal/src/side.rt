// The sides of a comparison.
use lw_genlib::Library;
use lw_net::Network;
use lw_netlist::Netlist;
use lw_pool::{Frame, Name, NetId};

/// What a side computes.
#[derive(Clone, Copy)]
pub enum Logic<'a> {
    /// A network of nodes with rows.
    Rows(&'a Network),
    /// A netlist of cells of a library.
    Cells(&'a Netlist, &'a Library),
}

/// A circuit that is compared: its combinational part, and what stands around it.
#[derive(Clone, Copy)]
pub struct Side<'a> {
    pub logic: Logic<'a>,
    pub frame: &'a Frame,
}

// A root of a combinational part: its name and its net.
#[derive(Clone, Copy)]
pub(crate) struct Root<'a> {
    pub(crate) name: &'a Name,
    pub(crate) net: NetId,
}

impl Logic<'_> {
    ghost use Rattle.std.specs.Prelude.{◌≡◌, ◌<◌, Some, length, slice_get};
    ghost use Rattle.lw_equal.specs.Sides.{input_count, inputs_of, net_count, roots_of};

    /// The names of the inputs, the latches' outputs behind the circuit's own.
    pub fn inputs(&self) -> &[Name]
        ensures names { result.now ≡ inputs_of self.now }
        ensures count { length result.now ≡ input_count self.now }
    {
        match self {
            Logic::Rows(net) => &net.names()[..net.inputs() as usize],
            Logic::Cells(netlist, _) => &netlist.names()[..netlist.inputs() as usize],
        }
    }

    // How many nets there are.
    pub(crate) fn nets(&self) -> usize
        ensures { result ≡ net_count self.now }
    {
        match self {
            Logic::Rows(net) => net.names().len(),
            Logic::Cells(netlist, _) => netlist.names().len(),
        }
    }

    // How many roots there are.
    pub(crate) fn roots(&self) -> usize
        ensures { result ≡ length (roots_of self.now) }
    {
        match self {
            Logic::Rows(net) => net.outputs().len(),
            Logic::Cells(netlist, _) => netlist.outputs().len(),
        }
    }

    // The root at a place.
    pub(crate) fn root(&self, place: usize) -> Root
        requires { place < length (roots_of self.now) }
        ensures { slice_get (roots_of self.now) place
            ≡ Some (record { name = result.name.now; net = result.net.0 }) }
    {
        match self {
            Logic::Rows(net) => {
                let id = net.outputs()[place];
                Root {
                    name: &net.names()[id.0 as usize],
                    net: id,
                }
            }
            Logic::Cells(netlist, _) => {
                let port = &netlist.outputs()[place];
                Root {
                    name: &port.name,
                    net: port.net,
                }
            }
        }
    }
}
