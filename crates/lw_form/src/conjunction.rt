// The And of forms, over numbers of a table.
ghost use Rattle.std.specs.Prelude.{◌≡◌, ◌==◌, ◌≤◌, ℕ, map, length, bit_xor, List, IfOk};
ghost use Rattle.std.specs.List.{list_any};
ghost use Rattle.lw_laws.specs.Forms.{conjunction as and_of_forms, disjunction as or_of_forms};
ghost use Rattle.lw_laws.specs.Forms.{runs};
ghost use Rattle.lw_form.specs.Conjunctions.{kept_numbers, numbers_clash, IsStep, CanBeCombined};
ghost use Rattle.lw_form.specs.Conjunctions.{CanBeGrouped, CanBeOneAnd};
ghost use Rattle.lw_form.specs.Limits.{most_operands};
ghost use Rattle.lw_form.specs.Tables.{made, forms_at, AreBelow, IsMadeAs, AreMadeAs};

use crate::FormIds;
use crate::maker::Maker;
use crate::table::FormTable;
use indexmap::IndexSet;
use lw_pool::FormId;
use smallvec::SmallVec;
use std::alloc::{AllocError, Global};

// The numbers of true and of its complement.
const TRUE: u32 = 0;

const FALSE: u32 = 1;

// So many forms are looked through one by one.
const FEW: usize = 8;

// One step of an And.
#[derive(Drop)]
enum Step {
    Done(u32),
    Again(Vec<u32>),
}

// The forms without true and without repeats, of which the first stays.
fn kept(alloc: Global, forms: &[u32]) -> Result<IndexSet<u32>, AllocError>
    ensures { IfOk result (λ kept. kept.keys ≡ kept_numbers forms.now) }
{
    let mut kept = IndexSet::new(alloc);
    for form in forms {
        if *form != TRUE {
            kept.insert(*form)?;
        }
    }
    Ok(kept)
}

// Few forms without true and without repeats, of which the first stays. They are held inline.
fn few_kept(alloc: Global, forms: &[u32]) -> Result<SmallVec<u32, 8>, AllocError>
    ensures { IfOk result (λ kept. kept.items ≡ kept_numbers forms.now) }
{
    let mut kept = SmallVec::new(alloc);
    for form in forms {
        if *form != TRUE && !kept.contains(form) {
            kept.push(*form)?;
        }
    }
    Ok(kept)
}

// Whether a form and its complement are there.
fn holds_complements(kept: &IndexSet<u32>) -> bool
    ensures { result
        ≡ list_any (λ f. list_any (λ h. bit_xor f 1 == h) kept.now.keys) kept.now.keys }
{
    let forms = kept.as_slice();
    for form in forms {
        if kept.contains(&(*form ^ 1)) {
            return true;
        }
    }
    false
}

// Whether the complement of true is there, or a form and its complement.
fn clashes(kept: &IndexSet<u32>) -> bool
    ensures { result ≡ numbers_clash kept.now.keys }
{
    kept.contains(&FALSE) || holds_complements(kept)
}

// Whether among few forms the complement of true is there, or a form and its complement.
#[tactic(auto, using(crate::proofs::Conjunctions::holds_turned))]
fn few_clash(kept: &[u32]) -> bool
    ensures { result ≡ numbers_clash kept.now }
{
    if kept.contains(&FALSE) {
        return true;
    }
    for form in kept {
        if kept.contains(&(*form ^ 1)) {
            return true;
        }
    }
    false
}

// The operands of an And.
pub(crate) fn operands(alloc: Global, forms: &[u32]) -> FormIds
    requires { length forms.now ≤ most_operands }
    ensures { result ≡ forms.now }
{
    let mut ids = FormIds::new(alloc);
    for form in forms {
        ids.push(FormId(*form));
    }
    ids
}

// The complements of some forms.
fn complements(alloc: Global, forms: &[u32]) -> Result<SmallVec<u32, 8>, AllocError>
    ensures { IfOk result (λ others. others.items ≡ map (λ f. bit_xor f 1) forms.now) }
{
    forms.iter().map(|form| *form ^ 1).collect(alloc)
}

impl Maker {
    // The And of one form or more that differ and don't clash.
    fn joined(&self, table: &mut FormTable, forms: &[u32]) -> Result<u32, AllocError>
        requires { CanBeOneAnd table.old forms.now }
        ensures { IfOk result (λ form. (width : ℕ) → 2 ≤ width → length forms.now ≤ width →
            IsMadeAs table.old table.new form
            (and_of_forms width (forms_at (made table.old) forms.now))) }
    {
        if forms.len() == 1 {
            return Ok(forms[0]);
        }
        let place = table.add(operands(self.alloc, forms))?;
        let _count = table.len();
        Ok(2 * place)
    }

    // The Ands of the runs of forms that differ and don't clash.
    fn grouped(&self, table: &mut FormTable, forms: &[u32]) -> Result<Vec<u32>, AllocError>
        requires { CanBeGrouped table.old forms.now }
        ensures { IfOk result (λ groups. AreMadeAs table.old table.new groups.items
            (map (and_of_forms self.now.width)
            (runs self.now.width (forms_at (made table.old) forms.now)))) }
    {
        let mut groups = Vec::new(self.alloc);
        let mut rest = forms;
        'runs: while rest.len() > self.width {
            groups.push(self.joined(table, &rest[..self.width])?)?;
            rest = &rest[self.width..];
        }
        groups.push(self.joined(table, rest)?)?;
        Ok(groups)
    }

    // The And of what is kept of some forms, or fewer forms with the same And.
    fn combined(&self, table: &mut FormTable, kept: &[u32], clash: bool) -> Result<Step, AllocError>
        requires { CanBeCombined table.old kept.now clash }
        ensures { IfOk result (λ step. (forms : List ℕ) → AreBelow (length (made table.old)) forms →
            kept.now ≡ kept_numbers forms →
            IsStep self.now.width table.old table.new forms step) }
    {
        let _count = table.len();
        if clash {
            return Ok(Step::Done(FALSE));
        }
        if kept.is_empty() {
            return Ok(Step::Done(TRUE));
        }
        if kept.len() <= self.width {
            return Ok(Step::Done(self.joined(table, kept)?));
        }
        Ok(Step::Again(self.grouped(table, kept)?))
    }

    // The And of some forms, or fewer forms with the same And.
    fn shortened(&self, table: &mut FormTable, forms: &[u32]) -> Result<Step, AllocError>
        requires { AreBelow (length (made table.old)) forms.now }
        ensures { IfOk result (λ step.
            IsStep self.now.width table.old table.new forms.now step) }
    {
        if forms.len() <= FEW {
            let kept = few_kept(self.alloc, forms)?;
            let clash = few_clash(&kept);
            let step = self.combined(table, &kept, clash);
            drop(kept);
            return step;
        }
        let kept = kept(self.alloc, forms)?;
        let clash = clashes(&kept);
        let step = self.combined(table, kept.as_slice(), clash);
        drop(kept);
        step
    }

    /// The And of some forms.
    pub(crate) fn conjunction(
        &self,
        table: &mut FormTable,
        forms: &[u32],
    ) -> Result<u32, AllocError>
        requires { AreBelow (length (made table.old)) forms.now }
        ensures { IfOk result (λ form. IsMadeAs table.old table.new form
            (and_of_forms self.now.width (forms_at (made table.old) forms.now))) }
    {
        let mut left = match self.shortened(table, forms)? {
            Step::Done(form) => return Ok(form),
            Step::Again(groups) => groups,
        };
        'steps: loop {
            match self.shortened(table, &left)? {
                Step::Done(form) => return Ok(form),
                Step::Again(groups) => left = groups,
            }
        }
    }

    /// The Or of some forms.
    pub(crate) fn disjunction(
        &self,
        table: &mut FormTable,
        forms: &[u32],
    ) -> Result<u32, AllocError>
        requires { AreBelow (length (made table.old)) forms.now }
        ensures { IfOk result (λ form. IsMadeAs table.old table.new form
            (or_of_forms self.now.width (forms_at (made table.old) forms.now))) }
    {
        let _count = table.len();
        if forms.len() == 1 {
            return Ok(forms[0]);
        }
        let none = complements(self.alloc, forms)?;
        let all = self.conjunction(table, &none)?;
        let _more = table.len();
        Ok(all ^ 1)
    }
}
