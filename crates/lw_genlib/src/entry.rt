// Entries of cells.
ghost use Rattle.std.specs.Prelude.{◌≡◌, ◌<◌, IfOk, None, Ok, replicate};
ghost use Rattle.lw_genlib.specs.Entries as words;
ghost use Rattle.lw_genlib.specs.Merging as merging;
ghost use Rattle.lw_genlib.specs.Tells.{Gives};

use crate::function::function_of;
use crate::function_text::with_end;
use crate::state_parts::{Entry, FunctionText, GateHeader, PinDelay};
use crate::{LibFault, LibKind, Target};
use lw_fixed::{Micro, Micros};
use lw_pool::Name;
use std::alloc::{AllocError, Global};

/// The entry that begins so, where the function's text ends with this `;`.
pub(crate) fn begin_entry(
    alloc: Global,
    header: GateHeader,
    text: FunctionText,
    line: u32,
) -> Result<Entry, LibFault>
    ensures { Gives
        (words.entry_begun header.line header.name header.area (words.with_end text line)) result }
{
    let (tokens, lines) = with_end(text, line)?;
    let function = function_of(alloc, &tokens, &lines)?;
    let named = no_delays(alloc, function.pins.len())?;
    let GateHeader { line, name, area } = header;
    Ok(Entry {
        line,
        name,
        area,
        tokens,
        function,
        named,
        every: None,
    })
}

fn no_delays(alloc: Global, pins: usize) -> Result<Vec<Option<Micro>>, AllocError>
    ensures { IfOk result (λ delays. delays.items ≡ replicate pins None) }
{
    let mut delays = Vec::new(alloc);
    for _ in 0..pins {
        delays.push(None)?;
    }
    Ok(delays)
}

/// The entry with one more delay: of pins of one kind the last wins.
pub(crate) fn with_delay(entry: Entry, pin: PinDelay) -> Entry
    ensures { result ≡ words.with_delay entry pin.pins pin.delay }
{
    let mut entry = entry;
    match pin.pins {
        Target::Every => entry.every = Some(pin.delay),
        Target::One(place) => {
            if let Some(own) = entry.named.get_mut(place) {
                *own = Some(pin.delay);
            }
        }
    }
    entry
}

impl Entry {
    ghost use Rattle.std.specs.Prelude.{◌≡◌, ◌<◌, IfOk};
    ghost use Rattle.lw_genlib.specs.Entries as words;
    ghost use Rattle.lw_genlib.specs.Merging as merging;
    ghost use Rattle.lw_genlib.specs.Libraries as library;

    /// The output's name.
    pub(crate) fn output(&self) -> &Name
        ensures { result.now ≡ merging.output_of self.now }
    {
        &self.function.output
    }

    /// The pins.
    pub(crate) fn pins(&self) -> &[Name]
        ensures { result.now ≡ words.pins_of self.now }
    {
        self.function.pins.as_slice()
    }
}

/// The delay of each pin of the entry, or the fault that one lacks its delay.
pub(crate) fn delays_of(alloc: Global, entry: &Entry) -> Result<Micros, LibFault>
    ensures { Gives (merging.delays_or_fault entry.now) result }
{
    let found = delays(alloc, &entry.named, entry.every)?;
    match found {
        Some(delays) => Ok(delays),
        None => Err(LibFault::Line(entry.line, LibKind::PinMissing)),
    }
}

// The delay of each pin, or none where one lacks its delay.
fn delays(
    alloc: Global,
    named: &[Option<Micro>],
    every: Option<Micro>,
) -> Result<Option<Micros>, AllocError>
    ensures { IfOk result (λ all. merging.AreDelaysBy every named.now all) }
{
    let mut delays = Vec::new(alloc);
    for own in named {
        match own.or(every) {
            Some(delay) => delays.push(delay)?,
            None => return Ok(None),
        }
    }
    Ok(Some(Micros::from_vec(delays)))
}
