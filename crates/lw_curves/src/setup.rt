// What the points of classes are settled by.
use lw_choices::{Listing, PinGroups};
use lw_fixed::Micro;
use lw_genlib::Library;

/// What stays the same while the points of classes are settled.
#[derive(Drop)]
pub(crate) struct Setup<'a> {
    /// The choices: what may stand at which class.
    pub rows: &'a Listing,
    pub lib: &'a Library,
    /// When each input starts.
    pub starts: &'a [Micro],
    /// The pins of the choices in groups.
    pub pin_groups: &'a PinGroups,
}
