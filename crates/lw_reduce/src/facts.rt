ghost use Rattle.std.specs.Prelude.{◌-◌, ◌<◌, ◌^◌, length, All};
ghost use Rattle.lw_reduce.specs.declared.facts.Fact.{Fact};

/// A form that is the NAND of two operands. The operands stand first, the right one before the
/// left: so they are one number of the processor.
#[derive(Clone, Copy, PartialEq, Eq)]
pub(crate) struct Fact {
    pub(crate) right: u32,
    pub(crate) left: u32,
    pub(crate) form: u32,
}

/// Two forms of one signal.
#[derive(Clone, Copy, PartialEq, Eq)]
pub(crate) struct Link {
    pub(crate) left: u32,
    pub(crate) right: u32,
}

/// The NAND facts and links of a draft.
#[derive(Clone, Copy)]
pub(crate) struct Facts<'a> {
    pub(crate) nands: &'a [Fact],
    pub(crate) links: &'a [Link],
}

/// Facts of so many classes, which numbers of 32 bits count.
#[derive(Drop)]
pub(crate) struct ClassFacts {
    pub(crate) facts: Vec<Fact>,
    pub(crate) classes: usize,
    ghost within: { All (λ (r : Fact). r.form < classes) facts.items },
    ghost few: { length facts.items < 2 ^ 32 - 1 },
}
