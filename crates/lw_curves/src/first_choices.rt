// The choices that wait at the start, since they need no points of pins.
ghost use Rattle.std.specs.Prelude.{◌≡◌, ◌<◌, ℕ, [], IfOk, MatchResult, Some, length};
ghost use Rattle.lw_curves.specs.Setups.{IsBegun};
ghost use Rattle.lw_choices.specs.Tasks.{Task};
ghost use Rattle.lw_choices.specs.Chains.{number_count};
ghost use Rattle.lw_choices.specs.Stands.{plain_part};
ghost use Rattle.lw_curves.specs.Settling.{Gives, IsStarted};

use crate::choice_area::start_of;
use crate::settling::push_due;
use lw_choices::{ListedChoice, Listing, Stand};
use lw_fixed::Micro;
use lw_queue::Queue;
use std::alloc::{AllocError, Global};

/// The queue at the start, in which the choices wait that need no points of pins: each until the
/// time at which it gives one, if that is within the horizon.
pub(crate) fn started(
    alloc: Global,
    rows: &Listing,
    starts: &[Micro],
    horizon: u64,
) -> Result<Queue, AllocError>
    requires { length rows.now < number_count }
    ensures { IfOk result (IsBegun starts.now rows.now horizon) }
{
    let mut queue = Queue::new(alloc, horizon, 1)?;
    for number in 0..rows.len() {
        push_start(&mut queue, &rows.at(number), starts, number as u32)?;
    }
    Ok(queue)
}

// When a choice gives its class a point that needs no point of a pin: an input at its start, and a
// cell without pins at 0. None for other cells.
fn first_time(stand: &Stand, starts: &[Micro]) -> Option<u64>
    ensures { (s : Task) (t a : ℕ) → s.starts ≡ starts.now → Gives s [] (plain_part stand.now) t a →
        result ≡ Some t }
{
    match stand {
        Stand::Input(input) => Some(start_of(starts, *input)),
        Stand::Gate(gate) => {
            if gate.pins.is_empty() {
                return Some(0);
            }
            None
        }
    }
}

// Lets the choice with this number wait, if it needs no point of a pin.
fn push_start(
    queue: &mut Queue,
    row: &ListedChoice,
    starts: &[Micro],
    number: u32,
) -> Result<(), AllocError>
    ensures { MatchResult result
        (λ _. IsStarted starts.now (plain_part row.now.stand) queue.old queue.new number)
        (λ _. queue.new.horizon ≡ queue.old.horizon) }
{
    let Some(time) = first_time(&row.stand, starts) else {
        return Ok(());
    };
    push_due(queue, time, number)?;
    Ok(())
}
