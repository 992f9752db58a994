ghost use Rattle.std.specs.Prelude.{◌≡◌, IfOk};
ghost use Rattle.lw_frame.specs.Starts.{start_said, IsEarly};

use lw_fixed::{DecimalFault, Micro, read};

const UNITS: u64 = 1_000_000;

/// The start that the words for the rise and for the fall of an input say: the later of the two
/// times. The error is the first fault of the rise, or else of the fall.
pub fn read_start(rise: &[u8], fall: &[u8]) -> Result<Micro, DecimalFault>
    ensures start { result ≡ start_said rise.now fall.now }
    ensures early { IfOk result IsEarly }
{
    let rise = read(rise, UNITS)?;
    let fall = read(fall, UNITS)?;
    Ok(Micro(rise.0.max(fall.0)))
}
