// A netlist with the times at which its nets arrive.
use lw_fixed::Micro;
use lw_genlib::Library;
use lw_netlist::Netlist;

/// A netlist, its library, and a time for each net.
#[derive(Clone, Copy)]
pub(crate) struct Timed<'a> {
    pub(crate) netlist: &'a Netlist,
    pub(crate) lib: &'a Library,
    pub(crate) time: &'a [Micro],
}
