/// A clause that holds, as an antecedent: one of a gate, or one that was taken in.
#[derive(Clone, Copy, Debug, PartialEq, Eq)]
pub enum Cause {
    /// No antecedent.
    Free,
    /// The constant is false.
    Zero(u32),
    /// A conjunction is false, or its first literal is true.
    First(u32),
    /// A conjunction is false, or its second literal is true.
    Second(u32),
    /// A conjunction is true, or one of its literals is false.
    Both(u32),
    /// A clause, by its number.
    Clause(u32),
}
