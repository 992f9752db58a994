// Classes between two numbers.
ghost use Rattle.std.specs.Prelude.{◌+◌, ◌-◌, ◌<◌, ◌^◌, ℕ};
ghost use Rattle.lw_lut.specs.Reaches.{IsIn, IsWithin, SpansBoth};
ghost use Rattle.lw_lut.specs.declared.span.Span.{Span};

use lw_pool::ClassId;

// The classes from the first one on and before the last.
#[derive(Clone, Copy)]
pub(crate) struct Span {
    pub(crate) low: u32,
    pub(crate) high: u32,
}

impl Span {
    // No class.
    pub(crate) fn nothing() -> Self
        ensures { (c : ℕ) → IsIn result c → ⊥ }
    {
        Span {
            low: u32::MAX,
            high: 0,
        }
    }

    // The classes of two spans, and those between them.
    pub(crate) fn join(self, other: Span) -> Self
        ensures { SpansBoth self other result }
    {
        Span {
            low: self.low.min(other.low),
            high: self.high.max(other.high),
        }
    }

    // The classes of a span and one more, and those between them.
    pub(crate) fn with(self, class: ClassId) -> Self
        requires { class.0 < 2 ^ 32 - 1 }
        ensures one { IsWithin self result }
        ensures class { IsIn result class.0 }
    {
        self.join(Span {
            low: class.0,
            high: class.0 + 1,
        })
    }
}
