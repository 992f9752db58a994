// What a check comes to.
use lw_fixed::Micro;
use lw_pool::{ClassId, Name};

/// Why a netlist is not accepted: the first test that fails, with what fails it first.
#[derive(Drop)]
pub enum Reason {
    /// The netlist has other inputs or outputs than the network, or another frame.
    Ports,
    /// A class number of the certificate that is none of the graph.
    Class(u32),
    /// The net of a gate that is no match.
    NotMatch(Name),
    /// A class whose label is no bound, its label, and the least that an input of it or a match at
    /// it costs.
    Label(ClassId, Option<Micro>, Micro),
    /// An output, the class of its net, and the class that it has in the network.
    Root(Name, ClassId, ClassId),
    /// An output, when it arrives, and the label of the class of its net.
    Value(Name, Micro, Micro),
}

/// Whether a mapped netlist is accepted.
#[derive(Drop)]
pub enum Verdict {
    Yes,
    No(Reason),
}
