//! Theorems: functions with empty bodies, whose clauses are the theorems.
ghost use Rattle.std.specs.Prelude.{◌≡◌, ℕ};
ghost use Rattle.lw_laws.specs.Modes.{Mode};
ghost use Rattle.lw_laws.specs.Netlists.{CellTruth, HaveCellTruths};
ghost use Rattle.lw_mapped.specs.declared.closing.Mapped.{Mapped};
ghost use Rattle.lw_check.specs.declared.verdict.Verdict.{Verdict};
ghost use Rattle.lw_check.specs.declared.verdict.Verdict.TheVariants.{Yes};
ghost use Rattle.lw_check.specs.Claims.{Claim, cost_in};
ghost use Rattle.lw_check.specs.Mappings.{AreAlike, IsFastestMapping, IsKept, IsMappingOf};
ghost use Rattle.lw_check.specs.Mappings.{IsOverForms, IsOverGraph, IsTimelyNetlist};
ghost use Rattle.lw_check.specs.Verdicts.{IsVerdictOn};

/// A netlist that is accepted is a fastest mapping, whoever wrote it. It has the network's frame,
/// ports and values, and each output arrives at the least time of any cover of any tree that the
/// rules derive for it.
pub fn yes_is_a_mapping()
    ensures { (mode : Mode) (width : ℕ) (truth : CellTruth) (k : Claim) → IsKept k →
        IsOverForms mode width k → HaveCellTruths (cost_in k).pin_counts truth k.pats →
        IsVerdictOn k Yes → IsFastestMapping mode width truth k }
{}

/// The netlist that a network is mapped to is accepted with its frame and its certificate.
pub fn mappings_are_accepted()
    ensures { (mode : Mode) (width : ℕ) (k : Claim) → IsKept k → IsOverGraph mode width k →
        IsMappingOf mode width k → IsVerdictOn k Yes }
{}

/// Accepted is any netlist of matches of the network, with its nets named as `map` names them, and
/// no class twice, whose outputs arrive at their least times. It has the network's frame; its
/// certificate has the least times of the classes and the classes of its gates.
pub fn timely_netlists_are_accepted()
    ensures { (mode : Mode) (width : ℕ) (k : Claim) → IsKept k → IsOverGraph mode width k →
        IsTimelyNetlist mode width k → IsVerdictOn k Yes }
{}

/// A claim has one verdict, and the same with a certificate that is the same up to places past its
/// end, whatever starts were read with the netlist.
pub fn verdicts_are_one()
    ensures { (k : Claim) (other : Mapped) (a b : Verdict) → IsKept k → AreAlike k.mapped other →
        IsVerdictOn k a → IsVerdictOn (record k { mapped = other }) b → a ≡ b }
{}
