// What forms are made with.
ghost use Rattle.lw_form.specs.Limits.{IsWidth};

use std::alloc::Global;

/// What Ands are made with: the allocator, and how many operands one has at most.
#[derive(Clone, Copy)]
pub(crate) struct Maker {
    pub(crate) alloc: Global,
    pub(crate) width: usize,
    ghost wide: { IsWidth width },
}

/// The forms of some fan-ins, and the maker of forms over them.
#[derive(Clone, Copy)]
pub(crate) struct Fanins<'a> {
    pub(crate) maker: &'a Maker,
    pub(crate) forms: &'a [u32],
}
