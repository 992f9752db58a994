ghost use Rattle.std.specs.Prelude.{◌≡◌, ◌<◌, ◌≤◌, ◌++◌, [], ◌∷◌, Some, slice_get, length};

use lw_pool::FormId;
use smallvec::SmallVec;
use std::alloc::Global;
use std::hash::{Hash, Hasher};
use std::marker::Model;

/// Some forms, at most 8, which are held inline. A contract sees the list of their numbers.
#[derive(Drop)]
pub struct FormIds {
    ids: SmallVec<u32, 8>,
}

impl Model for FormIds {
    ghost use Rattle.std.specs.Prelude.{List, ℕ, ◌≤◌, ◌≡◌};
    ghost use Rattle.smallvec.specs.SmallVec.{small_vec_len};

    ghost Value = { List ℕ };

    ghost view = { λ f. f.ids.items };

    ghost invariant = { λ f. (small_vec_len f.ids ≤ 8) × (f.ids.capacity ≡ 8) };
}

impl FormIds {
    ghost use Rattle.lw_form.specs.Bases.{picked, AreFewIds, CountsIds};

    /// No forms. Nothing is ever taken from the allocator.
    pub fn new(alloc: Global) -> Self
        ensures { result ≡ [] }
    {
        FormIds {
            ids: SmallVec::new(alloc),
        }
    }

    /// The number of forms.
    pub fn len(&self) -> usize
        ensures { CountsIds self.now result }
    {
        self.ids.len()
    }

    /// The form at a place.
    pub fn get(&self, place: usize) -> FormId
        requires { place < length self.now }
        ensures { slice_get self.now place ≡ Some result.0 }
    {
        FormId(self.ids[place])
    }

    /// Appends a form.
    pub fn push(&mut self, form: FormId)
        requires { length self.old < 8 }
        ensures { self.new ≡ self.old ++ form.0 ∷ [] }
    {
        self.ids.push_reserved(form.0);
    }

    /// The forms whose bits are set in the mask; the first form is the lowest bit.
    pub(crate) fn picked(&self, mask: u32) -> FormIds
        ensures { result ≡ picked self.now mask }
    {
        let mut part = FormIds::new(*self.ids.allocator());
        let mut rest = mask;
        for id in self.as_slice() {
            if rest % 2 == 1 {
                part.push(FormId(*id));
            }
            rest /= 2;
        }
        part
    }

    pub(crate) fn as_slice(&self) -> &[u32]
        ensures { AreFewIds self.now result.now }
    {
        self.ids.as_slice()
    }
}

impl PartialEq for FormIds {
    ghost use Rattle.std.specs.Str.{bytes_eq};
    ghost use Rattle.std.specs.Cmp.{partial_equiv_from_equiv};
    ghost use Rattle.std.specs.Cmp.Lexicographic.{nat_list_eq_equiv};

    ghost eq = { bytes_eq };

    ghost laws = { partial_equiv_from_equiv nat_list_eq_equiv };

    fn eq(&self, other: &Self) -> bool {
        self.as_slice() == other.as_slice()
    }
}

impl Eq for FormIds {
    ghost use Rattle.std.specs.Cmp.Lexicographic.{nat_list_eq_equiv};

    ghost laws = { nat_list_eq_equiv };
}

impl Hash for FormIds {
    ghost use Rattle.std.specs.Hash as fed;
    ghost use Rattle.std.specs.Cmp.Rules.{hashing};
    ghost use Rattle.std.proofs.Common.{rules};

    ghost hash_input = { fed.slice fed.u32 };

    ghost respects_eq = { Prim.search (hashing, rules) };

    fn hash<H: Hasher>(&self, state: &mut H) {
        self.as_slice().hash(state);
    }
}
