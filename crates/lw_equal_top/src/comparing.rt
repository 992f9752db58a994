// Sources that are compared.
ghost use Rattle.std.specs.Prelude.{◌≡◌, ◌≤◌, ◌++◌, ◌∷◌, [], All, length, OnOk, IfOk};
ghost use Rattle.lw_equal_top.specs.Sources.{AreSides, IsSource};
ghost use Rattle.lw_equal_top.specs.Compared.{ComesTo};
ghost use Rattle.lw_equal.specs.Sides.{IsSide};

use crate::fault::Refusal;
use crate::source::Source;
use lw_equal::{Limits, Outcome, Side, compare};
use lw_genlib::Library;
use std::alloc::{AllocError, Global};

// The sources as sides.
fn sides<'a>(
    alloc: Global,
    library: &'a Library,
    sources: &'a [Source],
) -> Result<Vec<Side<'a>>, AllocError>
    requires { All (IsSource library.now) sources.now }
    ensures of { IfOk result (λ sides. AreSides library.now sources.now sides.items) }
    ensures all { IfOk result (λ sides. All IsSide sides.items) }
{
    let mut sides = Vec::new(alloc);
    'sources: for source in sources {
        sides.push(source.side(library))?;
    }
    Ok(sides)
}

// How many conflicts all searches of a run may have, and how many values they may spread.
const ALL_CONFLICTS: u64 = 300_000;

const ALL_STEPS: u64 = 4_000_000_000;

/// Compares the first two sources, by the cells of the library; the others may help.
pub fn compare_sources(
    alloc: Global,
    library: &Library,
    sources: &[Source],
    tries: u32,
) -> Result<Outcome, Refusal>
    requires two { 2 ≤ length sources.now }
    requires sources { All (IsSource library.now) sources.now }
    ensures { ComesTo library.now sources.now result }
{
    let limits = Limits {
        tries,
        conflicts: ALL_CONFLICTS,
        steps: ALL_STEPS,
        sums: false,
    };
    let sides = sides(alloc, library, sources)?;
    let outcome = compare(alloc, &sides[0], &sides[1], &sides[2..], limits)?;
    Ok(outcome)
}
