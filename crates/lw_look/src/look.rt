// What a list of matches has to be a cover of, and what a look gives.
use lw_extract::{Cover, Ports};
use lw_fixed::{Micro, Micros};
use lw_genlib::Library;
use lw_graph::Graph;
use lw_pattern::Patterns;

/// What a list of matches has to be a cover of, by cells of a library, and by when each output has
/// to arrive.
#[derive(Drop)]
pub struct Look<'a> {
    pub graph: &'a Graph,
    pub pats: &'a Patterns,
    pub lib: &'a Library,
    /// When the inputs start.
    pub starts: &'a Micros,
    pub ports: &'a Ports,
    pub times: &'a [Micro],
}

/// The cover that a look gives, and whether it refused the list.
#[derive(Drop)]
pub struct Looked {
    pub cover: Cover,
    pub refused: bool,
}
