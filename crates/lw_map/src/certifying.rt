// The certificate of a mapping.
ghost use Rattle.std.specs.Prelude.{◌≡◌, Some, IfOk, map, option_map};
ghost use Rattle.lw_map.specs.Mappings.{AreCertified, label_of};

use lw_cost::Mark;
use lw_fixed::Micro;
use lw_label::Labels;
use lw_mapped::{Certificate, OptClasses, OptMicros};
use lw_pool::{ClassId, Classes};
use std::alloc::{AllocError, Global};

// The labels of the classes by their marks, in millionths, none where a class has no mark.
fn labels_of(alloc: Global, marks: &[Option<Mark>]) -> Result<OptMicros, AllocError>
    ensures { IfOk result (λ labels. labels ≡ map (option_map label_of) marks.now) }
{
    let mut labels = Vec::with_capacity(alloc, marks.len())?;
    for mark in marks {
        labels.push(mark.map(|mark| Micro(mark.cost)))?;
    }
    Ok(OptMicros::from_vec(labels))
}

// The classes of the gates, of which each has one, as a certificate holds them.
fn nets_of(alloc: Global, classes: &[ClassId]) -> Result<OptClasses, AllocError>
    ensures { IfOk result (λ nets. nets ≡ map Some classes.now) }
{
    let mut nets = Vec::with_capacity(alloc, classes.len())?;
    for class in classes {
        nets.push(Some(*class))?;
    }
    Ok(OptClasses::from_vec(nets))
}

/// The certificate of a mapping: the label of each class that has one, whether the netlist uses it
/// or not, and the class of each gate.
pub fn certificate(
    alloc: Global,
    labels: &Labels,
    classes: &Classes,
) -> Result<Certificate, AllocError>
    ensures { IfOk result (AreCertified labels.now classes.now) }
{
    Ok(Certificate {
        labels: labels_of(alloc, labels.marks())?,
        nets: nets_of(alloc, classes.as_slice())?,
    })
}
