//! A theorem: a function with no work of its own, whose clause is the theorem.
ghost use Rattle.std.specs.Prelude.{ℕ, List, Ok};
ghost use Rattle.lw_files.specs.Steps.{Files};
ghost use Rattle.lw_top.specs.Answers.{IsAnswer};
ghost use Rattle.lw_top.specs.Mappings.{AsksForTables};
ghost use Rattle.lw_top.specs.Tabled.{AreTables};

use lw_map::tabled_texts_are_mappings;

/// Where lookup tables are asked for, an answer with a text is a text of tables: a network that
/// computes the roots of the one that was read, each at its least depth.
pub fn answers_are_tables()
    ensures { (words : List (List ℕ)) (files : Files) (text : List ℕ) → AsksForTables words →
        IsAnswer words files (Ok text) → AreTables words files text }
{
    tabled_texts_are_mappings();
}
