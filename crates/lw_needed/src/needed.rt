// The classes that are needed.
ghost use Rattle.std.specs.Prelude.{◌<◌, All, IfOk, length};
ghost use Rattle.lw_needed.specs.Needed.{AreRoots, HasAlso};

use lw_pool::ClassId;
use std::alloc::{AllocError, Global};

/// Whether each class is a root's.
pub fn needed_by(alloc: Global, roots: &[ClassId], classes: usize) -> Result<Vec<bool>, AllocError>
    requires { All (λ root. root.0 < classes) roots.now }
    ensures { IfOk result (λ needed. AreRoots roots.now classes needed.items) }
{
    let mut needed = vec![in alloc; false; classes]?;
    need(&mut needed, roots);
    Ok(needed)
}

/// Notes that these classes are needed.
pub fn need(needed: &mut [bool], classes: &[ClassId])
    requires { All (λ class. class.0 < length needed.old) classes.now }
    ensures { HasAlso needed.old classes.now needed.new }
{
    for class in classes {
        needed[class.0 as usize] = true;
    }
}
