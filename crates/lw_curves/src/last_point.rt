// The last point by a time.
ghost use Rattle.lw_curves.specs.Lasts.{ArePointsRising, IsLastPlace};

use crate::point::Point;

/// The place of the last of some points whose time plus `delay` is no later than `time`, in
/// millionths; none if each is later.
pub fn last_by(points: &[Point], delay: u64, time: u64) -> Option<usize>
    ensures { ArePointsRising points.now → IsLastPlace points.now delay time result }
{
    let Some(by) = time.checked_sub(delay) else {
        return None;
    };
    let count = points.partition_point(|point| point.time.0 <= by);
    if count == 0 {
        return None;
    }
    Some(count - 1)
}
