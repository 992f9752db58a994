/// Why a reader stopped, which it answers to each later line.
#[derive(Clone, Copy)]
pub enum Stop<K> {
    /// The line with this number is the first that breaks a rule, and this rule is the first that
    /// it breaks.
    Broken(u32, K),
    /// Out of memory.
    Memory,
}
