ghost use Rattle.std.specs.Prelude.{List, Ok};
ghost use Rattle.lw_words.specs.Lines.{LogicalLine};
ghost use Rattle.lw_blif.specs.declared.parsed.Parsed.{Parsed as Model};
ghost use Rattle.lw_blif.specs.BlifNetworks.{IsBlifNetwork, IsModel};

/// What lines come to is a network whose names differ, and its frame and its starts fit.
pub fn model_is_network()
    ensures { (lines : List LogicalLine) (model : Model) → IsBlifNetwork lines (Ok model) →
        IsModel model }
{}
