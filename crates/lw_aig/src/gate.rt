use crate::Literal;

/// What a node is.
#[derive(Clone, Copy, Debug, PartialEq, Eq)]
pub enum Gate {
    /// The constant false.
    Zero,
    /// An input.
    Input,
    /// The conjunction of two literals.
    And(Literal, Literal),
}
