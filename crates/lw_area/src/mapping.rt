// A network mapped to the cells of a library with little area.
ghost use Rattle.std.specs.Prelude.{◌≡◌, IfErr, IfOk};
ghost use Rattle.lw_joined.specs.Covering.{IsCoverFault, IsCoveredBy};
ghost use Rattle.lw_map.specs.Faults.{IsChoiceFault};
ghost use Rattle.lw_area.specs.Cases.{IsCase, IsCertificateFor, IsChosen, IsFirst};
ghost use Rattle.lw_area.specs.Outcomes.{IsMade, IsMadeOf, IsMapFaultOf};
ghost use Rattle.lw_area.specs.Plain.{plain_settings};
ghost use Rattle.lw_area.specs.Sources.{AreSources};
ghost use Rattle.lw_area.specs.Spaces.{IsJoinedOf};

use crate::recovering::Case;
use crate::sources::{Sources, others_of};
use crate::timing::{Began, Times};
use crate::words::Settings;
use lw_extract::Cover;
use lw_joined::{Counts, Covered, Joined, Left, cover, join};
use lw_map::{CertifiedNetlist, MapFault, certificate};
use lw_mapped::Certificate;
use lw_pool::Classes;
use std::alloc::{AllocError, Global};
use std::time::Clock;

/// What is said of a run beside its answer: the networks that were left out, and what was done to
/// find links among how many forms of how many networks.
#[derive(Drop)]
pub struct Notes {
    pub left: Vec<Left>,
    pub counts: Counts,
    pub networks: usize,
    pub forms: u32,
    pub times: Times,
}

/// A netlist with its certificate where it is asked for, and what is said of the run.
#[derive(Drop)]
pub struct Made {
    pub mapped: CertifiedNetlist,
    pub notes: Notes,
}

impl Case<'_> {
    // The first cover, or a smaller one where one is looked for.
    fn chosen(&self, first: Cover) -> Result<Cover, AllocError>
        requires case { IsCase self.now }
        requires first { IsFirst self.now first }
        ensures { IfOk result (IsChosen self.now) }
    {
        match self.settings.effort {
            None => Ok(first),
            Some(effort) => self.smaller(effort, first),
        }
    }

    // The certificate of a cover with these classes, where it is asked for.
    fn certificate_of(&self, classes: &Classes) -> Result<Option<Certificate>, AllocError>
        ensures { IfOk result (IsCertificateFor self.now.settings.certified self.now.labels.now
            classes.now) }
    {
        if !self.settings.certified {
            return Ok(None);
        }
        Ok(Some(certificate(self.alloc, self.labels, classes)?))
    }

    // That cover's netlist, with its certificate.
    fn certified(&self, first: Cover) -> Result<CertifiedNetlist, AllocError>
        requires case { IsCase self.now }
        requires first { IsFirst self.now first }
        ensures { IfOk result (IsMade (plain_settings self.now.settings) self.now.library.now
            self.now.model.now self.now.joined.now) }
    {
        let cover = self.chosen(first)?;
        let certificate = self.certificate_of(&cover.classes)?;
        Ok(CertifiedNetlist {
            netlist: cover.netlist,
            certificate,
        })
    }
}

// What a cover of the joined networks comes to.
fn made_smaller(
    alloc: Global,
    sources: &Sources,
    settings: Settings,
    joined: &Joined,
    covered: Covered,
) -> Result<CertifiedNetlist, AllocError>
    requires sources { AreSources sources.now }
    requires joined { IsJoinedOf (plain_settings settings) sources.now joined.now }
    requires covered { IsCoveredBy sources.now.library sources.now.model.network
        sources.now.model.starts joined.now covered }
    ensures { IfOk result (IsMade (plain_settings settings) sources.now.library
        sources.now.model joined.now) }
{
    let (library, model) = (&sources.library, &sources.model);
    let _ = (library.len(), model.network.inputs());
    let Covered { cover, labels } = covered;
    let case = Case {
        alloc,
        library,
        model,
        joined,
        labels: &labels,
        settings,
    };
    case.certified(cover)
}

/// The networks of some files as choices of the first. `Forms` and `Splits` come exactly where the
/// first network has more than are dealt with.
pub(crate) fn joined_of(
    alloc: Global,
    sources: &Sources,
    settings: Settings,
) -> Result<Joined, MapFault>
    requires { AreSources sources.now }
    ensures joined { IfOk result (IsJoinedOf (plain_settings settings) sources.now) }
    ensures fault { IfErr result (IsChoiceFault (plain_settings settings).options
        sources.now.model.network) }
{
    let others = others_of(alloc, &sources.further)?;
    let network = &sources.model.network;
    let joined = join(alloc, network, &others, settings.options, settings.linked);
    drop(others);
    let mut joined = joined?;
    if joined.choices.graph.make_index().is_err() {
        drop(joined);
        return Err(MapFault::Memory);
    }
    Ok(joined)
}

// The netlist of joined networks.
fn covered_of(
    alloc: Global,
    sources: &Sources,
    settings: Settings,
    joined: &Joined,
) -> Result<CertifiedNetlist, MapFault>
    requires sources { AreSources sources.now }
    requires joined { IsJoinedOf (plain_settings settings) sources.now joined.now }
    ensures made { IfOk result (IsMade (plain_settings settings) sources.now.library
        sources.now.model joined.now) }
    ensures fault { IfErr result (IsCoverFault sources.now.library sources.now.model.network
        sources.now.model.starts joined.now) }
{
    let (library, model) = (&sources.library, &sources.model);
    let covered = cover(alloc, library, &model.network, &model.starts, joined)?;
    Ok(made_smaller(alloc, sources, settings, joined, covered)?)
}

/// What a library, a network and further ones come to: a netlist in which each output of the
/// network arrives by its deadline, with its certificate where it is asked for. Reading the files
/// took so many milliseconds.
pub(crate) fn map_smaller<C: Clock>(
    alloc: Global,
    clock: &C,
    read: u128,
    sources: &Sources,
    settings: Settings,
) -> Result<Made, MapFault>
    requires { AreSources sources.now }
    ensures made { IfOk result (IsMadeOf (plain_settings settings) sources.now) }
    ensures fault { IfErr result (IsMapFaultOf (plain_settings settings) sources.now) }
{
    let began = Began::now(clock);
    let joined = joined_of(alloc, sources, settings)?;
    let linked = began.millis(clock);
    let began = Began::now(clock);
    let mapped = covered_of(alloc, sources, settings, &joined)?;
    Ok(Made {
        mapped,
        notes: Notes {
            networks: joined.ends.len(),
            forms: joined.choices.forms,
            counts: joined.counts,
            left: joined.left,
            times: Times {
                read,
                joined: linked,
                mapped: began.millis(clock),
            },
        },
    })
}
