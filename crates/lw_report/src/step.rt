/// A step of a path: the number of a gate, and the place of the pin by which the path comes to it.
/// A gate without pins has none.
#[derive(Clone, Copy, PartialEq, Eq)]
pub struct Step {
    pub gate: u32,
    pub pin: Option<u8>,
}
