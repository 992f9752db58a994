use std::alloc::Global;

/// What a step is given: a word, or what is left of one, with the number of its line, and where
/// memory comes from.
#[derive(Clone, Copy)]
pub(crate) struct Given<'a> {
    pub(crate) alloc: Global,
    pub(crate) line: u32,
    pub(crate) word: &'a [u8],
}
