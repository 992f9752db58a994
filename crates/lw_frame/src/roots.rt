ghost use Rattle.std.specs.Prelude.{◌≡◌, length, option_to_list, option_copied, IfOk, OnOk};
ghost use Rattle.indexmap.specs.IndexSet.{insert_key, insert_all};
ghost use Rattle.std.specs.List.{IsDistinct};
ghost use Rattle.std.specs.Str.{bytes_eq};
ghost use Rattle.lw_frame.specs.Frames.{root_names, read_by, control_among};

use indexmap::IndexSet;
use lw_pool::{Latch, Name};
use std::alloc::{AllocError, Global};

const NO_CONTROL: &[u8] = b"NIL";

// The control among a latch's further words.
fn control_among(words: &[Name]) -> Option<&Name>
    ensures { option_to_list (option_copied result) ≡ control_among words.now }
{
    match words {
        [_, control, ..] if control.as_bytes() != NO_CONTROL => Some(control),
        _ => None,
    }
}

// Adds a copy of a name that is not there.
fn add(alloc: Global, names: &mut IndexSet<Name>, name: &Name) -> Result<(), AllocError>
    ensures { OnOk result (names.new.keys ≡ insert_key bytes_eq names.old.keys name.now) }
{
    let copy = Name::from_slice(alloc, name.as_bytes())?;
    names.insert(copy)?;
    Ok(())
}

// Adds what a latch reads.
fn add_read(alloc: Global, names: &mut IndexSet<Name>, latch: &Latch) -> Result<(), AllocError>
    ensures { OnOk result
        (names.new.keys ≡ insert_all bytes_eq names.old.keys (read_by latch.now)) }
{
    add(alloc, names, &latch.input)?;
    if let Some(control) = control_among(latch.rest.as_slice()) {
        add(alloc, names, control)?;
    }
    Ok(())
}

/// Makes the names of the outputs those of the roots: behind them come the input and the control of
/// each latch, in order, each name once. It tells how many outputs there were.
pub fn add_roots(
    alloc: Global,
    names: &mut IndexSet<Name>,
    latches: &[Latch],
) -> Result<usize, AllocError>
    ensures roots { OnOk result (names.new.keys ≡ root_names names.old.keys latches.now) }
    ensures outputs { IfOk result (λ n. n ≡ length names.old.keys) }
    ensures differ { IfOk result (λ n. IsDistinct bytes_eq names.old.keys) }
{
    let outputs = names.len();
    for latch in latches {
        add_read(alloc, names, latch)?;
    }
    Ok(outputs)
}
