/// A step of a tree in postfix order: the steps of its operands come before its own.
#[derive(Clone, Copy, PartialEq, Eq)]
pub(crate) enum Step {
    /// A pin of the cell.
    Leaf(u8),
    /// The constant true.
    True,
    /// The constant false.
    False,
    /// The complement of the tree before it.
    Not,
    /// The NAND of the two trees before it.
    Both,
}

/// An operator of expressions.
#[derive(Clone, Copy, PartialEq, Eq)]
pub(crate) enum Operator {
    And,
    Or,
}

/// How operators with three or four operands are bracketed.
#[derive(Clone, Copy, PartialEq, Eq)]
pub(crate) enum Bracketing {
    /// In every way.
    Every,
    /// As a left chain alone.
    LeftChain,
}
