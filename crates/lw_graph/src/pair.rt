use lw_pool::ClassId;

/// An unordered pair of classes, whose NAND a class holds: `x` is at most `y` wherever a graph has
/// it.
#[derive(Clone, Copy, PartialEq, Eq)]
pub struct Pair {
    pub x: ClassId,
    pub y: ClassId,
}
