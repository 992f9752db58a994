ghost use Rattle.std.specs.Prelude.{◌≡◌, ◌<◌, ◌≤◌, ◌↔◌, ℕ, List, Bool, false, Some, slice_get, map};
ghost use Rattle.std.specs.Prelude.{length, IsTrue, MatchResult};
ghost use Rattle.lw_laws.specs.NumberedForms.{IsPart, NumberOccurs};
ghost use Rattle.lw_laws.specs.NumberedForms.Base.{base_and};
ghost use Rattle.lw_laws.specs.NumberedValues.{AreNumberedValues};
ghost use Rattle.lw_form.specs.Kept.{AreForms, AreSamples, CountsInputs, HasPart};
ghost use Rattle.lw_form.specs.Links.{HaveOneValue, with_pair};
ghost use Rattle.lw_pool.specs.Numbers.{most_signals};

use crate::{Base, FormIds};
use indexmap::IndexSet;
use lw_pool::{FormId, NetId};
use std::alloc::AllocError;
use std::marker::Model;

// How many nets and pairs of forms there are at most.
const MOST_PAIRS: usize = 262_144;

/// The list of the base forms that occur in a network, and two forms of each net, behind which
/// further pairs of forms may stand.
///
/// Form 2b is the listed base form b, and form 2b + 1 its complement. True is listed first, then
/// the inputs in order, then Ands alone. The operands of an And are listed before it, and so is the
/// And of each of its shorter lists of two operands or more.
#[derive(Drop)]
pub struct Forms {
    inputs: u32,
    bases: IndexSet<Base>,
    sops: Vec<u32>,
    facs: Vec<u32>,
    samples: Vec<bool>,
}

impl Model for Forms {
    ghost use Rattle.std.specs.Prelude.{map};
    ghost use Rattle.lw_laws.specs.NumberedForms.{NumberedForms};

    ghost Value = { NumberedForms };

    ghost use Rattle.lw_form.specs.Bases.{plain_base};
    ghost use Rattle.lw_form.specs.Kept.{AreForms, AreSamples};

    ghost view = { λ f. record {
      inputs = f.inputs;
      bases = map plain_base f.bases.keys;
      sops = f.sops.items;
      facs = f.facs.items;
    } };

    ghost invariant = { λ f. AreForms
        (record {
          inputs = f.inputs;
          bases = map plain_base f.bases.keys;
          sops = f.sops.items;
          facs = f.facs.items;
        })
        × AreSamples
        (record {
          inputs = f.inputs;
          bases = map plain_base f.bases.keys;
          sops = f.sops.items;
          facs = f.facs.items;
        }) f.samples.items };
}

impl Forms {
    ghost use Rattle.lw_form.specs.Bases.{plain_base, picked};

    // The list of these base forms.
    pub(crate) fn new(
        inputs: u32,
        bases: IndexSet<Base>,
        sops: Vec<u32>,
        facs: Vec<u32>,
        samples: Vec<bool>,
    ) -> Self
        requires kept { AreForms (record {
          inputs = inputs;
          bases = map plain_base bases.keys;
          sops = sops.items;
          facs = facs.items;
        }) }
        requires sampled { AreSamples (record {
          inputs = inputs;
          bases = map plain_base bases.keys;
          sops = sops.items;
          facs = facs.items;
        }) samples.items }
        ensures { result ≡ record {
          inputs = inputs;
          bases = map plain_base bases.keys;
          sops = sops.items;
          facs = facs.items;
        } }
    {
        Forms {
            inputs,
            bases,
            sops,
            facs,
            samples,
        }
    }

    /// The number of base forms.
    pub fn len(&self) -> u32
        ensures len { result ≡ length self.now.bases }
        ensures kept { AreForms self.now }
    {
        self.bases.len() as u32
    }

    /// The number of inputs.
    pub fn inputs(&self) -> u32
        ensures { CountsInputs self.now result }
    {
        self.inputs
    }

    /// The number of nets.
    pub fn nets(&self) -> u32
        ensures nets { result ≡ length self.now.sops }
        ensures kept { AreForms self.now }
    {
        self.sops.len() as u32
    }

    /// Whether no pair may be added: there are 262,144 nets and pairs.
    pub fn is_full(&self) -> bool
        ensures { IsTrue result ↔ (most_signals ≤ length self.now.sops) }
    {
        self.sops.len() >= MOST_PAIRS
    }

    /// Adds a pair of listed forms that have one value. If memory runs out, nothing is changed.
    pub fn link(&mut self, left: FormId, right: FormId) -> Result<(), AllocError>
        requires one_value { HaveOneValue self.old left.0 right.0 }
        requires room { length self.old.sops < most_signals }
        ensures { MatchResult result (λ _. self.new ≡ with_pair self.old left.0 right.0)
            (λ _. self.new ≡ self.old) }
    {
        self.sops.reserve(1)?;
        self.facs.reserve(1)?;
        self.sops.push_reserved(left.0);
        self.facs.push_reserved(right.0);
        Ok(())
    }

    /// A base form.
    pub fn base(&self, b: u32) -> &Base
        requires { b < length self.now.bases }
        ensures base { slice_get self.now.bases b ≡ Some (plain_base result.now) }
        ensures kept { AreForms self.now }
    {
        &self.bases.as_slice()[b as usize]
    }

    /// The sum of products of a net.
    pub fn sop(&self, net: NetId) -> FormId
        requires { net.0 < length self.now.sops }
        ensures { slice_get self.now.sops net.0 ≡ Some result.0 }
    {
        FormId(self.sops[net.0 as usize])
    }

    /// The factored form of a net.
    pub fn fac(&self, net: NetId) -> FormId
        requires { net.0 < length self.now.facs }
        ensures { slice_get self.now.facs net.0 ≡ Some result.0 }
    {
        FormId(self.facs[net.0 as usize])
    }

    /// The value of a form where every input is false.
    pub fn sample(&self, form: FormId) -> bool
        requires { NumberOccurs self.now form.0 }
        ensures { (value : ℕ → Bool) → AreNumberedValues self.now (λ i. false) value →
            result ≡ value form.0 }
    {
        let value = self.samples[(form.0 / 2) as usize];
        if form.0 % 2 == 0 { value } else { !value }
    }

    /// The And of those operands of an And whose bits are set in the mask; the first operand is the
    /// lowest bit. It takes no memory.
    pub fn part(&self, b: u32, mask: u32) -> FormId
        requires { HasPart self.now b mask }
        ensures { (fs : List ℕ) → slice_get self.now.bases b ≡ Some (base_and fs) →
            IsPart self.now (picked fs mask) result.0 }
    {
        let Base::And(ids) = self.base(b) else {
            unreachable!()
        };
        let part = ids.picked(mask);
        if part.len() == 1 {
            return part.get(0);
        }
        match self.bases.get_index_of(&Base::And(part)) {
            Some(place) => FormId(2 * place as u32),
            None => unreachable!(),
        }
    }
}
