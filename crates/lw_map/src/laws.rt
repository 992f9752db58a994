//! A theorem: a function whose clause is the theorem.
ghost use Rattle.std.specs.Prelude.{ℕ};
ghost use Rattle.std.specs.List.{IsDistinct};
ghost use Rattle.std.specs.Str.{bytes_eq};
ghost use Rattle.lw_pool.specs.declared.latch.Frame.{Frame};
ghost use Rattle.lw_net.specs.Networks.{NetworkParts, IsNetwork, input_names, output_names};
ghost use Rattle.lw_lut.specs.Nets.{PlainTableNet};
ghost use Rattle.lw_lut.specs.Texts.{tables_text};
ghost use Rattle.lw_map.specs.Options.{Options, IsWide};
ghost use Rattle.lw_map.specs.Mapped.{IsWithinLimits};
ghost use Rattle.lw_map.specs.Tabled.{AreLeaves, HasReadableNames, IsTabled, IsTablesTextOf};

use lw_lut_text::{table_texts_are_mappings, written_tables_are_read};

/// The text of the tables that a network comes to is read as BLIF, its limit on the number of
/// signals left out. The network that is read computes each output of the first one, at the least
/// depth of any cover by tables of any tree that the rules derive for it.
pub fn tabled_texts_are_mappings()
    ensures { (options : Options) (most : ℕ) (net : NetworkParts) (frame : Frame)
        (n : PlainTableNet) → IsWide options → AreLeaves most → IsWithinLimits options net →
        IsNetwork net → IsDistinct bytes_eq net.names → IsDistinct bytes_eq (input_names net) →
        IsDistinct bytes_eq (output_names net) → HasReadableNames net frame →
        IsTabled options most net n → IsTablesTextOf options most net frame (tables_text n frame) }
{
    table_texts_are_mappings();
    written_tables_are_read();
}
