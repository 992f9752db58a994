ghost use Rattle.std.specs.Prelude.{◌≡◌, ◌*◌, ◌/◌, ◌^◌, ◌<◌};

/// A node, with an even number, or its complement, with the next.
#[derive(Clone, Copy, Debug, PartialEq, Eq)]
pub struct Literal(pub u32);

impl Literal {
    ghost use Rattle.lw_aig.specs.Literals.{complement};

    /// The literal of a node.
    pub fn of(node: u32) -> Self
        requires { node < 2 ^ 31 }
        ensures { result.0 ≡ 2 * node }
    {
        Literal(2 * node)
    }

    /// The node.
    pub fn node(self) -> u32
        ensures { result ≡ self.0 / 2 }
    {
        self.0 / 2
    }

    /// The complement: the last bit of the number is changed.
    pub fn flip(self) -> Self
        ensures { result ≡ complement self }
    {
        Literal(self.0 ^ 1)
    }
}
