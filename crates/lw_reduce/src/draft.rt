ghost use Rattle.std.specs.Prelude.{◌≡◌, ◌-◌, ◌*◌, ◌<◌, ◌≤◌, ◌^◌, ◌++◌, [], ◌∷◌, true, false, not};
ghost use Rattle.std.specs.Prelude.{◌&&◌, length, replicate, ◌↔◌, IsTrue, IfOk, OnOk, OnErr};
ghost use Rattle.lw_reduce.specs.Drafting.{IsDraft, IsKnown, sample_of};
ghost use Rattle.lw_pool.specs.Numbers.{most_signals};

use crate::facts::{Fact, Link};
use lw_pool::FormId;
use std::alloc::{AllocError, Global};
use std::marker::Model;

/// Base forms with one sample value each, NAND facts and links.
///
/// Base form 0 is true, those after it are the inputs. The form with an even number 2k is base form
/// k, and the next number is its complement.
#[derive(Drop)]
pub struct Draft {
    pub(crate) inputs: u32,
    pub(crate) samples: Vec<bool>,
    pub(crate) nands: Vec<Fact>,
    pub(crate) links: Vec<Link>,
}

impl Model for Draft {
    ghost use Rattle.lw_laws.specs.Drafts.{Draft as PlainDraft};
    ghost use Rattle.lw_reduce.specs.Drafting.{IsDraft, plain_draft};

    ghost Value = { PlainDraft };

    ghost view = { λ d. plain_draft d.inputs d.samples.items d.nands.items d.links.items };

    ghost invariant = { λ d. IsDraft (plain_draft d.inputs d.samples.items
        d.nands.items d.links.items) };
}

// The samples of true and of so many inputs.
fn first_samples(alloc: Global, inputs: u32) -> Result<Vec<bool>, AllocError>
    ensures { IfOk result (λ v. v.items ≡ true ∷ replicate inputs false) }
{
    let mut samples = Vec::new(alloc);
    samples.push(true)?;
    for _input in 0..inputs {
        samples.push(false)?;
    }
    Ok(samples)
}

impl Draft {
    /// A draft of base form 0, with sample true, and one base form for each input, with sample
    /// false. Growth takes memory from `alloc`.
    pub fn new(alloc: Global, inputs: u32) -> Result<Draft, AllocError>
        requires { inputs ≤ most_signals }
        ensures { IfOk result (λ d. d ≡
            record {
              inputs = inputs;
              samples = true ∷ replicate inputs false;
              nands = [];
              links = [];
            }) }
    {
        let samples = first_samples(alloc, inputs)?;
        Ok(Draft {
            inputs,
            samples,
            nands: Vec::new(alloc),
            links: Vec::new(alloc),
        })
    }

    /// Appends a base form with this sample, and answers it. If memory runs out, nothing is
    /// changed.
    pub fn add(&mut self, sample: bool) -> Result<FormId, AllocError>
        requires { length self.old.samples < 2 ^ 31 - 1 }
        ensures ok { OnOk result (self.new
            ≡ record {
              inputs = self.old.inputs;
              samples = self.old.samples ++ sample ∷ [];
              nands = self.old.nands;
              links = self.old.links;
            }) }
        ensures form { IfOk result (λ f. f.0 ≡ 2 * length self.old.samples) }
        ensures err { OnErr result (self.new ≡ self.old) }
    {
        let form = FormId(self.samples.len() as u32 * 2);
        self.samples.push(sample)?;
        Ok(form)
    }

    /// Whether no NAND fact may be added.
    pub fn is_full(&self) -> bool
        ensures { IsTrue result ↔ (2 ^ 32 - 2 ≤ length self.now.nands) }
    {
        self.nands.len() >= 0xffff_fffe
    }

    /// Appends the fact that a form is the NAND of two. If memory runs out, nothing is changed.
    pub fn nand(&mut self, form: FormId, left: FormId, right: FormId) -> Result<(), AllocError>
        requires form { IsKnown self.old.samples form.0 }
        requires left { IsKnown self.old.samples left.0 }
        requires right { IsKnown self.old.samples right.0 }
        requires samples { sample_of self.old.samples form.0
            ≡ not (sample_of self.old.samples left.0 && sample_of self.old.samples right.0) }
        requires few { length self.old.nands < 2 ^ 32 - 2 }
        ensures ok { OnOk result (self.new
            ≡ record {
              inputs = self.old.inputs;
              samples = self.old.samples;
              nands = self.old.nands ++ (record { form = form.0; left = left.0; right = right.0 })
                  ∷ [];
              links = self.old.links;
            }) }
        ensures err { OnErr result (self.new ≡ self.old) }
    {
        self.nands.push(Fact {
            form: form.0,
            left: left.0,
            right: right.0,
        })?;
        Ok(())
    }

    /// Appends a link: these are the two forms of one signal. If memory runs out, nothing is
    /// changed.
    pub fn link(&mut self, left: FormId, right: FormId) -> Result<(), AllocError>
        requires left { IsKnown self.old.samples left.0 }
        requires right { IsKnown self.old.samples right.0 }
        requires samples { sample_of self.old.samples left.0 ≡ sample_of self.old.samples right.0 }
        ensures ok { OnOk result (self.new
            ≡ record {
              inputs = self.old.inputs;
              samples = self.old.samples;
              nands = self.old.nands;
              links = self.old.links ++ (record { left = left.0; right = right.0 }) ∷ [];
            }) }
        ensures err { OnErr result (self.new ≡ self.old) }
    {
        self.links.push(Link {
            left: left.0,
            right: right.0,
        })?;
        Ok(())
    }
}
