use std::alloc::AllocError;

/// Why the forms of a network are not listed.
#[derive(Clone, Copy, PartialEq, Eq)]
pub enum FormFault {
    /// More than 2,097,152 base forms occur.
    Limit,
    /// Out of memory.
    Memory,
}

impl From<AllocError> for FormFault {
    ghost use Rattle.std.specs.Prelude.{◌≡◌};
    ghost use Rattle.lw_form.specs.declared.fault.FormFault.TheVariants.{Memory};

    ghost from_gives = { λ e fault. fault ≡ Memory };

    fn from(_: AllocError) -> Self {
        FormFault::Memory
    }
}
