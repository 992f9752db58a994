/// A word behind a pin's name.
#[derive(Clone, Copy, PartialEq, Eq)]
pub enum Field {
    Phase,
    Load,
    MostLoad,
    Rise,
    RiseUnused,
    Fall,
    FallUnused,
}

/// The pins to which a delay belongs.
#[derive(Clone, Copy, PartialEq, Eq)]
pub enum Target {
    /// All of them.
    Every,
    /// The one at a place.
    One(usize),
}

impl Field {
    ghost use Rattle.std.specs.Prelude.{◌≡◌};
    ghost use Rattle.lw_genlib.specs.Fields.{fields_behind, fields_from};

    /// The one behind it.
    pub fn next(self) -> Option<Field>
        ensures { fields_from result ≡ fields_behind self }
    {
        match self {
            Field::Phase => Some(Field::Load),
            Field::Load => Some(Field::MostLoad),
            Field::MostLoad => Some(Field::Rise),
            Field::Rise => Some(Field::RiseUnused),
            Field::RiseUnused => Some(Field::Fall),
            Field::Fall => Some(Field::FallUnused),
            Field::FallUnused => None,
        }
    }
}
