/// A step of an expression in postfix order.
#[derive(Clone, Copy, PartialEq, Eq)]
pub enum ExprOp {
    /// A constant.
    Const(bool),
    /// A pin of the cell, by its number.
    Pin(u8),
    /// The complement of the one expression before it.
    Not,
    /// The product of that many expressions before it, in order.
    And(u8),
    /// The sum of that many expressions before it, in order.
    Or(u8),
}
