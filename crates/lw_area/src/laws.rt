//! Theorems: functions with empty bodies, whose clauses are the theorems.
ghost use Rattle.std.specs.Prelude.{◌≡◌, ◌≢◌, ◌↔◌, ℕ, Contains, List, Result, Ok};
ghost use Rattle.lw_pool.specs.declared.id.NetId.{NetId};
ghost use Rattle.lw_files.specs.Steps.{Files};
ghost use Rattle.lw_map.specs.Mapped.{IsWithinLimits};
ghost use Rattle.lw_top.specs.Answers.{IsAnswer};
ghost use Rattle.lw_top.specs.Checks.{yes_text};
ghost use Rattle.lw_area.specs.declared.refusal.Refusal.{Refusal};
ghost use Rattle.lw_area.specs.declared.sources.Further.{Further};
ghost use Rattle.lw_area.specs.Answers.{IsTaskAnswer, IsUncoveredIn};
ghost use Rattle.lw_area.specs.Checked.{IsCheckOf};
ghost use Rattle.lw_area.specs.Complete.{status_in};
ghost use Rattle.lw_area.specs.Promises.{AreRead, IsRecoveryOf};
ghost use Rattle.lw_area.specs.Recovered.{IsSpaceOf, Space};
ghost use Rattle.lw_area.specs.Words.{Task};

/// What was written with its certificate, of one network and without links, is accepted by a check
/// of `lwmap` over the same library and network, by the same options.
pub fn written_netlists_are_accepted()
    ensures { (words checks : List (List ℕ)) (task : Task) (files others : Files) (text : List ℕ) →
        IsCheckOf words task files text checks others → IsRecoveryOf task files text →
        IsAnswer checks others (Ok yes_text) }
{}

/// Where the files are read, the network is within the limits and memory does not run out, the
/// answer to a task is that there is no cover exactly where some root has none: over a union with
/// further networks and with links, no tree that is derived for the root has a cover by the
/// library's cells.
pub fn uncovered_roots_are_refused()
    ensures { (task : Task) (files : Files) (read : AreRead task files)
        (a : Result (List ℕ) Refusal) →
        IsWithinLimits task.settings.options read.model.network → IsTaskAnswer task files a →
        status_in a ≢ 8 → (space : Space) × (further : List Further) ×
        IsSpaceOf task.settings read.model.network further space ×
        ((status_in a ≡ 6) ↔ ((root : NetId) × Contains read.model.network.outputs root ×
        IsUncoveredIn task.settings read.cells read.model.network space read.model.starts root)) }
{}
