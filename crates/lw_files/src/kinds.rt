// The texts of the rules that a line breaks.
ghost use Rattle.std.specs.Prelude.{◌≡◌};
ghost use Rattle.lw_files.specs.Kinds.{blif_text, decimal_fault_text, lib_text, mapped_kind_text};

use lw_blif::BlifKind;
use lw_fixed::DecimalFault;
use lw_genlib::LibKind;
use lw_mapped::MappedKind;

/// The text of the rule that a line of a network breaks.
pub fn blif_text(kind: &BlifKind) -> &[u8]
    ensures { result.now ≡ blif_text kind.now }
{
    match kind {
        BlifKind::UnknownCommand => b"unknown command",
        BlifKind::Unsupported => b"command not supported",
        BlifKind::RowOutside => b"row outside a node",
        BlifKind::RowShape => b"row of wrong shape",
        BlifKind::RowMix => b"rows of both kinds",
        BlifKind::Redefined => b"signal defined twice",
        BlifKind::WordCount => b"wrong number of words",
        BlifKind::BadName => b"bad name",
        BlifKind::LongWord => b"word too long",
        BlifKind::LimitFanin => b"more than 256 fan-ins",
        BlifKind::LimitRows => b"more than 4096 rows",
        BlifKind::LimitSignals => b"more than 262144 signals",
        BlifKind::Decimal(fault) => decimal_fault_text(fault),
    }
}

// The text of what is wrong with a decimal.
fn decimal_fault_text(fault: &DecimalFault) -> &[u8]
    ensures { result.now ≡ decimal_fault_text fault.now }
{
    match fault {
        DecimalFault::Shape => b"not a decimal",
        DecimalFault::Large => b"decimal too large",
        DecimalFault::Fine => b"decimal too fine",
        DecimalFault::Negative => b"decimal below 0",
    }
}

/// The text of the rule that a line of a library breaks.
pub fn lib_text(kind: &LibKind) -> &[u8]
    ensures { result.now ≡ lib_text kind.now }
{
    match kind {
        LibKind::Expected => b"something else expected",
        LibKind::BadByte => b"byte not allowed in a function",
        LibKind::PinMissing => b"pin without delay",
        LibKind::PinUnknown => b"no such pin",
        LibKind::PhaseWord => b"unknown phase",
        LibKind::Decimal(fault) => decimal_fault_text(fault),
        LibKind::ConstInside => b"constant inside a function",
        LibKind::CellDiffers => b"cell differs from its first entry",
        LibKind::LongWord => b"word too long",
        LibKind::LimitText => b"function longer than 2048 bytes",
        LibKind::LimitLiterals => b"more than 64 names in a function",
        LibKind::LimitPins => b"more than 16 pins",
        LibKind::LimitCells => b"more than 4096 cells",
    }
}

/// The text of the rule that a line of a mapped netlist breaks.
pub fn mapped_kind_text(kind: &MappedKind) -> &[u8]
    ensures { result.now ≡ mapped_kind_text kind.now }
{
    match kind {
        MappedKind::UnknownCommand => b"unknown command",
        MappedKind::Shape => b"line of wrong shape",
        MappedKind::NoCell => b"no such cell",
        MappedKind::PinUnknown => b"no such pin",
        MappedKind::PinTwice => b"pin given twice",
        MappedKind::PinMissing => b"pin not given",
        MappedKind::Certificate => b"bad certificate line",
        MappedKind::BadName => b"bad name",
        MappedKind::LongWord => b"word too long",
        MappedKind::Decimal(fault) => decimal_fault_text(fault),
    }
}
