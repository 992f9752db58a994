ghost use Rattle.std.specs.Prelude.{length, All};
ghost use Rattle.lw_reduce.specs.Representatives.{IsFactIn};

use crate::facts::Fact;

/// A fact over base forms that have representatives.
#[derive(Clone, Copy)]
pub(crate) struct KnownFact<'a> {
    pub(crate) reps: &'a [u32],
    pub(crate) fact: Fact,
    ghost known: { IsFactIn (length reps.now) fact },
}

/// Facts over base forms that have representatives.
#[derive(Clone, Copy)]
pub(crate) struct KnownFacts<'a> {
    pub(crate) reps: &'a [u32],
    pub(crate) nands: &'a [Fact],
    ghost known: { All (IsFactIn (length reps.now)) nands.now },
}
