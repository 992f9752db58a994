/// Which rules of decomposition hold.
#[derive(Clone, Copy, PartialEq, Eq)]
pub enum Mode {
    /// The splits of each And into two, with inverters and the two forms of each net.
    Plain,
    /// With them pairs of different parts that overlap, and a NAND of one form twice in the place
    /// of an inverter.
    Idempotent,
}
