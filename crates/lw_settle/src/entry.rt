// Classes that wait with a mark, and their order.
ghost use Rattle.std.specs.Prelude.{◌≡◌, ◌<◌, ◌^◌, ◌-◌};
ghost use Rattle.lw_settle.specs.Queues.{is_before, lesser, IsIdleLeaf, IsWaitingLeaf};

use lw_cost::Mark;

/// A class with the mark that it waits with. The greatest cost and height stand for no mark.
#[derive(Clone, Copy)]
pub(crate) struct Entry {
    pub cost: u64,
    pub height: u32,
    pub class: u32,
}

/// The entry of a class that does not wait, which is before none that waits.
pub(crate) fn no_mark(class: u32) -> Entry
    ensures { IsIdleLeaf result class }
{
    Entry {
        cost: u64::MAX,
        height: u32::MAX,
        class,
    }
}

/// The entry of a class that waits with a mark, whose height is less than `u32::MAX`.
pub(crate) fn with_mark(class: u32, mark: Mark) -> Entry
    ensures { mark.height < 2 ^ 32 - 1 → IsWaitingLeaf result class mark }
{
    Entry {
        cost: mark.cost,
        height: mark.height,
        class,
    }
}

/// Whether one is before the other: it costs less, or the same with less height.
pub(crate) fn is_before(one: Entry, other: Entry) -> bool
    ensures { result ≡ is_before one other }
{
    one.cost < other.cost || (one.cost == other.cost && one.height < other.height)
}

/// The lesser of two entries, and the first if neither is before the other.
pub(crate) fn lesser(one: Entry, other: Entry) -> Entry
    ensures { result ≡ lesser one other }
{
    if is_before(other, one) { other } else { one }
}
