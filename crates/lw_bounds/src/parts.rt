/// What a side of a NAND in a pattern is, where pins with the same gap are alike. What is added to
/// the number below a side is its shift: a part carries what the gaps of its pins have in common.
#[derive(Clone, Copy, PartialEq, Eq, PartialOrd, Ord, Hash)]
pub enum Kind {
    /// Any tree.
    Any,
    /// A pin with its shift.
    Leaf(u64),
    /// The constant true.
    One,
    /// The NAND of the sides of the part with this number, and its shift.
    Joined(u32, u64),
}

/// A side of a NAND: what it is, and whether an inverter stands before it.
#[derive(Clone, Copy, PartialEq, Eq, PartialOrd, Ord, Hash)]
pub struct Side {
    pub kind: Kind,
    pub flipped: bool,
}

/// A NAND in a pattern, by its two sides.
#[derive(Clone, Copy, PartialEq, Eq, Hash)]
pub struct Part {
    pub left: Side,
    pub right: Side,
}

/// A part, where the numbers of its two sides stand in lists of numbers, and their shifts.
#[derive(Clone, Copy, PartialEq, Eq)]
pub struct Rule {
    pub part: u32,
    pub left: u32,
    pub right: u32,
    pub left_shift: u64,
    pub right_shift: u64,
}

/// The root of a pattern: where its number stands in its list of numbers, and its shift.
#[derive(Clone, Copy, PartialEq, Eq)]
pub struct Root {
    pub pattern: u32,
    pub place: u32,
    pub shift: u64,
}

/// The rules of the parts whose sides have their numbers in the same two lists.
#[derive(Drop)]
pub struct Group {
    pub left: u8,
    pub right: u8,
    pub rules: Vec<Rule>,
}
