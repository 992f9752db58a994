use lw_fixed::DecimalFault;
use std::alloc::AllocError;

/// What is wrong in the text of a library.
#[derive(Clone, Copy, Debug, PartialEq, Eq)]
pub enum LibKind {
    /// Another word or token is required here, or the file ends inside an entry.
    Expected,
    /// A byte that may not stand in a function.
    BadByte,
    /// A pin has no entry.
    PinMissing,
    /// No pin of the cell has this name.
    PinUnknown,
    /// The phase is none of the three.
    PhaseWord,
    /// An area or a delay is no such decimal.
    Decimal(DecimalFault),
    /// A constant stands in a function beside something else.
    ConstInside,
    /// A cell differs from the first entry of its name.
    CellDiffers,
    /// A word is longer than 4,095 bytes.
    LongWord,
    /// A function is longer than 2,048 bytes.
    LimitText,
    /// More than 64 names and constants stand in a function.
    LimitLiterals,
    /// A cell has more than 16 pins.
    LimitPins,
    /// There are more than 4,096 entries of cells.
    LimitCells,
}

/// Why a library is not read.
#[derive(Clone, Copy, Debug, PartialEq, Eq)]
pub enum LibFault {
    /// On a line.
    Line(u32, LibKind),
    /// Out of memory.
    Memory,
}

impl From<AllocError> for LibFault {
    ghost use Rattle.std.specs.Prelude.{◌≡◌};
    ghost use Rattle.lw_genlib.specs.declared.fault.LibFault.TheVariants.{Memory};

    ghost from_gives = { λ e fault. fault ≡ Memory };

    fn from(_: AllocError) -> Self {
        LibFault::Memory
    }
}
