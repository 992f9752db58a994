// A netlist with its library.
use lw_genlib::Library;
use lw_netlist::Netlist;

/// A netlist, and the library whose cells its gates are.
#[derive(Clone, Copy)]
pub(crate) struct Mapped<'a> {
    pub(crate) netlist: &'a Netlist,
    pub(crate) lib: &'a Library,
}
