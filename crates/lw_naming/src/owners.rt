// The first output of each class.
ghost use Rattle.std.specs.Prelude.{◌≡◌, ◌<◌, ◌^◌, All, IfOk, MatchOption, Some, None, length};
ghost use Rattle.lw_laws.specs.Names.{output_name};
ghost use Rattle.lw_naming.specs.Naming.{AreFirstPlaces};
ghost use Rattle.lw_pool.specs.Numbers.{numbers};

use lw_pool::{ClassId, Name, Names};
use std::alloc::{AllocError, Global};

// For each class the first of its places among the roots.
fn first_places(
    alloc: Global,
    classes: usize,
    roots: &[ClassId],
) -> Result<Vec<Option<u32>>, AllocError>
    requires few { length roots.now < 2 ^ 32 }
    requires in_range { All (λ root. root.0 < classes) roots.now }
    ensures { IfOk result (λ firsts. AreFirstPlaces firsts.items roots.now) }
{
    let mut firsts = vec![in alloc; None; classes]?;
    for place in (0..roots.len()).rev() {
        firsts[roots[place].0 as usize] = Some(place as u32);
    }
    Ok(firsts)
}

// Which output is the first of each class.
#[derive(Drop)]
pub(crate) struct Owners<'a> {
    outputs: &'a Names,
    roots: &'a [ClassId],
    firsts: Vec<Option<u32>>,
    ghost are: { AreFirstPlaces firsts.items roots.now },
    ghost one_root: { length roots.now ≡ length outputs.now },
}

impl<'a> Owners<'a> {
    // The first outputs of the classes below `classes`.
    pub(crate) fn of(
        alloc: Global,
        classes: usize,
        outputs: &'a Names,
        roots: &'a [ClassId],
    ) -> Result<Self, AllocError>
        requires few { length outputs.now < 2 ^ 32 }
        requires one_root { length roots.now ≡ length outputs.now }
        requires in_range { All (λ root. root.0 < classes) roots.now }
        ensures outputs { IfOk result (λ owners. owners.outputs.now ≡ outputs.now) }
        ensures roots { IfOk result (λ owners. owners.roots.now ≡ roots.now) }
    {
        let firsts = first_places(alloc, classes, roots)?;
        Ok(Owners {
            outputs,
            roots,
            firsts,
        })
    }

    // The name of the first output of a class.
    pub(crate) fn name(&self, class: ClassId) -> Option<&Name>
        ensures { let name = output_name self.now.outputs.now
            (numbers self.now.roots.now) class.0 in
            MatchOption result (name ≡ None) (λ first. name ≡ Some first.now) }
    {
        let first = self.firsts.get(class.0 as usize)?;
        let output = (*first)?;
        Some(self.outputs.get(output as usize))
    }
}
