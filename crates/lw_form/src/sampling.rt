// The values of base forms where every input is false.
ghost use Rattle.std.specs.Prelude.{◌≡◌, ◌/◌, ◌<◌, ℕ, List, Some, slice_get, map, IfOk};
ghost use Rattle.std.specs.List.{list_all};
ghost use Rattle.lw_laws.specs.NumberedForms.{NumberedForms};
ghost use Rattle.lw_laws.specs.NumberedForms.Base.{base_and};
ghost use Rattle.lw_form.specs.Bases.{plain_base};
ghost use Rattle.lw_form.specs.Kept.{AreSamples};
ghost use Rattle.lw_form.specs.Sampled.{sample_value, sample_base};
ghost use Rattle.lw_form.specs.Tables.{AreBelow};

use crate::Base;
use std::alloc::{AllocError, Global};

// The value of a form, by those of the base forms.
fn value_of(samples: &[bool], form: u32) -> bool
    ensures { result ≡ sample_value samples.now form }
{
    let base = (form / 2) as usize;
    let value = base < samples.len() && samples[base];
    if form % 2 == 0 { value } else { !value }
}

// Whether all of these forms are true.
fn are_true(samples: &[bool], forms: &[u32]) -> bool
    ensures { result ≡ list_all (sample_value samples.now) forms.now }
{
    for place in 0..forms.len() {
        if !value_of(samples, forms[place]) {
            return false;
        }
    }
    true
}

// The value of a base form, by those before it.
fn sample_of(samples: &[bool], base: &Base) -> bool
    ensures { result ≡ sample_base samples.now (plain_base base.now) }
{
    match base {
        Base::True => true,
        Base::Input(_) => false,
        Base::And(ids) => are_true(samples, ids.as_slice()),
    }
}

// The values of base forms.
pub(crate) fn samples(alloc: Global, bases: &[Base]) -> Result<Vec<bool>, AllocError>
    requires { (b : ℕ) (fs : List ℕ) → slice_get (map plain_base bases.now) b ≡ Some (base_and fs) →
        AreBelow b fs }
    ensures { IfOk result (λ samples. (forms : NumberedForms) →
        forms.bases ≡ map plain_base bases.now → AreSamples forms samples.items) }
{
    let mut samples = Vec::with_capacity(alloc, bases.len())?;
    for base in bases {
        let sample = sample_of(&samples, base);
        samples.push(sample)?;
    }
    Ok(samples)
}
