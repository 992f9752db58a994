ghost use Rattle.std.specs.Prelude.{ℕ, Bool, List};
ghost use Rattle.lw_aig.specs.declared.gate.Gate.{Gate};
ghost use Rattle.lw_aig.specs.Aigs.{IsAig, HasValues};

/// Whatever values the inputs are given, all nodes have values with these.
pub fn each_input_is_free()
    ensures { (gates : List Gate) (x : ℕ → Bool) → IsAig gates → HasValues gates x }
{}
