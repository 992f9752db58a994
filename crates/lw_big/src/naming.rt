// The names of signals.
ghost use Rattle.std.specs.Prelude.{◌≡◌, ◌+◌, ◌≤◌, ◌∷◌, decimal, IfOk};
ghost use Rattle.lw_big.specs.Generated.{signal_name, signal_names, most_nodes};

use itoa::Buffer;
use lw_pool::{Name, Names};
use std::alloc::{AllocError, Global};

// How many inputs there are.
pub(crate) const INPUTS: u32 = 16;

// A letter and a number.
fn numbered(alloc: Global, letter: u8, number: u32) -> Result<Name, AllocError>
    ensures { IfOk result (λ name. name ≡ letter ∷ decimal number) }
{
    let mut buffer = Buffer::new();
    let digits = buffer.format(number).as_bytes();
    let mut name = Vec::with_capacity(alloc, 1 + digits.len())?;
    name.push(letter)?;
    name.extend_from_slice(digits)?;
    Ok(Name::new(name))
}

// The name of a signal.
#[tactic(auto, unfolding(crate::specs::Generated::signal_name))]
pub(crate) fn signal_name(alloc: Global, signal: u32) -> Result<Name, AllocError>
    ensures { IfOk result (λ name. name ≡ signal_name signal) }
{
    if signal < INPUTS {
        return numbered(alloc, b'i', signal);
    }
    numbered(alloc, b'g', signal - INPUTS)
}

// The names of so many signals from one on.
pub(crate) fn signal_names(alloc: Global, first: u32, count: u32) -> Result<Names, AllocError>
    requires { first + count ≤ 16 + most_nodes }
    ensures { IfOk result (λ names. names ≡ signal_names first count) }
{
    let mut names = Vec::with_capacity(alloc, count as usize)?;
    for k in 0..count {
        names.push(signal_name(alloc, first + k)?)?;
    }
    Ok(Names::from_vec(names))
}
