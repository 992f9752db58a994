// The names n1, n2 and so on that are not taken.
ghost use Rattle.std.specs.Prelude.{◌≡◌, ◌+◌, ◌++◌, ℕ, IfOk, length};
ghost use Rattle.lw_laws.specs.Names.{numbered_name, free_names};
ghost use Rattle.lw_naming.specs.Naming.{still_free, HasFree, IsNextFree};

use crate::name_set::NameSet;
use itoa::Buffer;
use lw_pool::{Name, Names};
use std::alloc::{AllocError, Global};

// The letter n and a number.
fn numbered_name(alloc: Global, number: usize) -> Result<Vec<u8>, AllocError>
    ensures { IfOk result (λ name. name.items ≡ numbered_name number) }
{
    let mut buffer = Buffer::new();
    let digits = buffer.format(number).as_bytes();
    let mut name = Vec::with_capacity(alloc, 1 + digits.len())?;
    name.push(b'n')?;
    name.extend_from_slice(digits)?;
    Ok(name)
}

// The numbered names from the next number on that are not taken.
#[derive(Drop)]
pub(crate) struct FreeNames {
    alloc: Global,
    taken: NameSet,
    next: usize,
}

impl FreeNames {
    // Those that no input and no output has.
    pub(crate) fn new(alloc: Global, inputs: &Names, outputs: &Names) -> Result<Self, AllocError>
        ensures { IfOk result (λ free. (count : ℕ) → let names = inputs.now ++ outputs.now in
            still_free free (1 + (count + length names)) ≡ free_names names count) }
    {
        let mut taken = NameSet::with_capacity(alloc, inputs.len().saturating_add(outputs.len()))?;
        taken.add_all(inputs.as_slice())?;
        taken.add_all(outputs.as_slice())?;
        Ok(FreeNames {
            alloc,
            taken,
            next: 1,
        })
    }

    // The next of them.
    pub(crate) fn next_name(&mut self) -> Result<Name, AllocError>
        requires { HasFree self.old 1 }
        ensures { IfOk result (λ name. IsNextFree self.old name self.new) }
    {
        'numbers: loop {
            let name = numbered_name(self.alloc, self.next)?;
            self.next += 1;
            if !self.taken.contains(&name) {
                return Ok(Name::new(name));
            }
        }
    }
}
