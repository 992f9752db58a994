// The verdict on the netlist of a file.
ghost use Rattle.std.specs.Prelude.{◌≤◌, length};
ghost use Rattle.lw_netlist.specs.Netlists.{most_gates};
ghost use Rattle.lw_netlist.specs.Plain.{IsOver};
ghost use Rattle.lw_mapped.specs.Fitting.{IsMapped};
ghost use Rattle.lw_files.specs.Steps.{Files};
ghost use Rattle.lw_area.specs.Checks.{IsJudged, Judges};
ghost use Rattle.lw_area.specs.Plain.{plain_settings, plain_task};
ghost use Rattle.lw_area.specs.Sources.{AreSources};

use crate::mapping::joined_of;
use crate::refusal::Refusal;
use crate::sources::{Sources, read_sources};
use crate::words::{Settings, Task};
use lw_files::read_mapped;
use lw_io::Shelf;
use lw_joined::check;
use lw_map::Verdict;
use lw_mapped::Mapped;
use std::alloc::Global;

// The verdict on a netlist over the networks of some files.
fn judged(
    alloc: Global,
    sources: &Sources,
    settings: Settings,
    mapped: &Mapped,
) -> Result<Verdict, Refusal>
    requires sources { AreSources sources.now }
    requires over { IsOver sources.now.library mapped.now.netlist }
    requires fits { IsMapped mapped.now }
    requires few { length mapped.now.netlist.gates ≤ most_gates }
    ensures { (files : Files) → IsJudged (plain_settings settings) sources.now.library
        sources.now.model sources.now.further.items mapped.now files result }
{
    let joined = match joined_of(alloc, sources, settings) {
        Ok(joined) => joined,
        Err(fault) => return Err(Refusal::Unmapped(fault)),
    };
    let verdict = check(alloc, &sources.library, &sources.model, &joined, mapped);
    drop(joined);
    Ok(verdict?)
}

/// Whether the netlist of a file is a fastest mapping of a task's network over the joined networks,
/// or why it is none.
pub(crate) fn verdict_on<F: Shelf>(
    alloc: Global,
    task: Task<'_>,
    mapped: &str,
    shelf: &mut F,
) -> Result<Verdict, Refusal>
    ensures { Judges F.files F.faults shelf.old shelf.new (plain_task task.entry) mapped.now
        result }
{
    let sources = read_sources(alloc, task, shelf)?;
    let netlist = match read_mapped(alloc, &sources.library, shelf, mapped) {
        Ok(netlist) => netlist,
        Err(fault) => {
            drop(sources);
            return Err(Refusal::Mapped(fault));
        }
    };
    let verdict = judged(alloc, &sources, task.settings, &netlist);
    drop(netlist);
    drop(sources);
    verdict
}
