//! Laws over definitions: functions with empty bodies, whose clauses are the laws.
ghost use Rattle.std.specs.Prelude.{◌+◌, ◌≤◌, ℕ, List, Bool, length};
ghost use Rattle.lw_laws.specs.Mapped.{forms_of};
ghost use Rattle.lw_laws.specs.Networks.{Network, IsInOrder, AreValues};
ghost use Rattle.lw_laws.specs.Occurring.{occurring_forms};
ghost use Rattle.lw_form.specs.Kept.{AreForms, HaveValues};
ghost use Rattle.lw_form.specs.Limits.{most_bases, most_operands};
ghost use Rattle.lw_pool.specs.Numbers.{most_signals};

/// The occurring forms of a network keep, over their numbers, what the type `Forms` keeps.
pub fn occurring_forms_are_kept()
    ensures { (width : ℕ) (net : Network) → 2 ≤ width → width ≤ most_operands →
        net.inputs + length net.nodes ≤ most_signals →
        length (occurring_forms width net) ≤ most_bases → AreForms (forms_of width net) }
{}

/// Both forms of each net of a network have the net's value under every assignment of the inputs.
pub fn forms_have_the_nets_values()
    ensures { (width : ℕ) (net : Network) → 2 ≤ width → IsInOrder net →
        (x : ℕ → Bool) (values : List Bool) → AreValues net x values →
        HaveValues (forms_of width net) x values }
{}
