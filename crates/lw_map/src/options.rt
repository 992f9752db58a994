// The options of a decomposition.
ghost use Rattle.std.specs.Prelude.{◌≤◌};

use lw_assoc::Mode;

/// How a network is decomposed: the most operands of an AND, from 2 to 8, and the rules.
#[derive(Clone, Copy)]
pub struct Options {
    pub width: u8,
    pub mode: Mode,
    ghost wide: { (2 ≤ width) × (width ≤ 8) },
}
