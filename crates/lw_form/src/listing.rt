// The list of occurring base forms, as places in a table.
ghost use Rattle.std.specs.Prelude.{◌≡◌, ◌/◌, ◌^◌, ◌<◌, ◌++◌, [], ◌∷◌, ℕ, length, IfOk, OnOk};
ghost use Rattle.lw_laws.specs.Occurring.{appended, append_part, append_parts, sublists, add_form};
ghost use Rattle.lw_laws.specs.SignalValues.{form_of};
ghost use Rattle.lw_form.specs.Listed.{base_at, bases_of, place_of, operands_of, CanTake};
ghost use Rattle.lw_form.specs.Listed.{IsEmptyListing, IsListed, IsNewlyListed, Lists, PutsAnd};
ghost use Rattle.lw_form.specs.Listed.{PutsOperands, Steps};
ghost use Rattle.lw_form.specs.Limits.{most_bases};
ghost use Rattle.lw_form.specs.Tables.{made, forms_at, AreBelow};

use crate::conjunction::operands;
use crate::table::FormTable;
use crate::{FormFault, FormIds};
use std::alloc::{AllocError, Global};

// The place of what isn't listed.
const NO_PLACE: u32 = 4294967295;

// How many base forms are listed at most.
const MOST_BASES: usize = 2097152;

// A form to be added, or an And whose parts are to be listed.
#[derive(Clone, Copy)]
pub(crate) enum Step {
    Add(u32),
    Parts(u32),
}

// The base forms that are listed, and the place of each base form in the list.
#[derive(Drop)]
pub(crate) struct Listing {
    pub(crate) listed: Vec<u32>,
    pub(crate) places: Vec<u32>,
}

impl Listing {
    // Nothing is listed, with room for so many base forms.
    pub(crate) fn with_capacity(alloc: Global, bases: usize) -> Result<Self, AllocError>
        ensures { IfOk result IsEmptyListing }
    {
        Ok(Listing {
            listed: Vec::with_capacity(alloc, bases)?,
            places: Vec::with_capacity(alloc, bases)?,
        })
    }

    // The place of a base form in the list.
    pub(crate) fn place(&self, b: u32) -> u32
        ensures { result ≡ place_of self.now.places.items b }
    {
        match self.places.get(b as usize) {
            Some(place) => *place,
            None => NO_PLACE,
        }
    }

    // Makes `places` long enough to have an entry for b. New entries are `NO_PLACE`.
    fn reach(&mut self, b: u32) -> Result<(), AllocError>
        ensures reached { OnOk result (b < length self.new.places.items) }
        ensures same { OnOk result ((x : ℕ) →
            place_of self.new.places.items x ≡ place_of self.old.places.items x) }
        ensures listed { self.new.listed ≡ self.old.listed }
    {
        for _place in self.places.len()..b as usize + 1 {
            self.places.push(NO_PLACE)?;
        }
        Ok(())
    }

    // Lists a base form that isn't listed.
    fn put(&mut self, b: u32) -> Result<(), AllocError>
        requires { length self.old.listed.items < most_bases }
        ensures { OnOk result (IsNewlyListed b self.old self.new) }
    {
        let place = self.listed.len() as u32;
        self.reach(b)?;
        self.listed.push(b)?;
        self.places[b as usize] = place;
        Ok(())
    }

    // Lists a base form, unless it is listed.
    pub(crate) fn list(&mut self, table: &FormTable, b: u32) -> Result<(), FormFault>
        requires listed { IsListed (made table.now) self.old.listed.items self.old.places.items }
        requires within { b < length (made table.now) }
        ensures { Lists result table.now table.now self.new
            (appended (base_at (made table.now) b)
            (bases_of (made table.now) self.old.listed.items)) }
    {
        let _count = table.len();
        if self.place(b) != NO_PLACE {
            return Ok(());
        }
        if self.listed.len() == MOST_BASES {
            return Err(FormFault::Limit);
        }
        self.put(b)?;
        Ok(())
    }

    // Lists the And of some operands, if two at least.
    fn list_part(&mut self, table: &mut FormTable, ids: FormIds) -> Result<(), FormFault>
        requires listed { IsListed (made table.old) self.old.listed.items self.old.places.items }
        requires below { AreBelow (length (made table.old)) ids }
        ensures { Lists result table.old table.new self.new
            (append_part (forms_at (made table.old) ids)
            (bases_of (made table.old) self.old.listed.items)) }
    {
        if ids.len() < 2 {
            return Ok(());
        }
        let b = table.add(ids)?;
        self.list(table, b)
    }

    // Lists the parts of an And, by rising mask.
    fn list_parts(&mut self, table: &mut FormTable, ids: &FormIds) -> Result<(), FormFault>
        requires listed { IsListed (made table.old) self.old.listed.items self.old.places.items }
        requires below { AreBelow (length (made table.old)) ids.now }
        ensures { Lists result table.old table.new self.new
            (append_parts (sublists (forms_at (made table.old) ids.now))
            (bases_of (made table.old) self.old.listed.items)) }
    {
        for mask in 0..mask_end(ids) {
            self.list_part(table, ids.picked(mask))?;
        }
        Ok(())
    }

    // Lists the parts of the base form at a place of the table.
    fn list_and(&mut self, alloc: Global, table: &mut FormTable, b: u32) -> Result<(), FormFault>
        requires listed { IsListed (made table.old) self.old.listed.items self.old.places.items }
        requires within { b < length (made table.old) }
        ensures { Lists result table.old table.new self.new
            (append_parts (sublists (operands_of (base_at (made table.old) b)))
            (bases_of (made table.old) self.old.listed.items)) }
    {
        let ids = match table.operands(b) {
            Some(ids) => ids,
            None => return Ok(()),
        };
        if ids.len() == 2 {
            return self.list(table, b);
        }
        let own = operands(alloc, ids.as_slice());
        self.list_parts(table, &own)
    }

    // Begins to add a form: lists it where it has no operands, and else puts the steps for its
    // operands and its parts.
    fn begin(
        &mut self,
        table: &FormTable,
        form: u32,
        steps: &mut Vec<Step>,
    ) -> Result<(), FormFault>
        requires { CanTake table.now self.old (steps.old.items ++ Step.Add form ∷ []) }
        ensures { Steps result table.now table.now self.old self.new
            steps.old.items steps.new.items (Step.Add form) }
    {
        let _count = table.len();
        let b = form / 2;
        if self.place(b) != NO_PLACE {
            return Ok(());
        }
        let Some(ids) = table.operands(b) else {
            return self.list(table, b);
        };
        push_and(steps, b, ids.as_slice())?;
        Ok(())
    }

    // Does one step.
    fn advance(
        &mut self,
        alloc: Global,
        table: &mut FormTable,
        step: Step,
        steps: &mut Vec<Step>,
    ) -> Result<(), FormFault>
        requires { CanTake table.old self.old (steps.old.items ++ step ∷ []) }
        ensures { Steps result table.old table.new self.old self.new
            steps.old.items steps.new.items step }
    {
        match step {
            Step::Add(form) => self.begin(table, form, steps),
            Step::Parts(b) => self.list_and(alloc, table, b),
        }
    }

    // Adds a form, with all forms and parts that occur in it, by steps that are cleared before.
    pub(crate) fn add(
        &mut self,
        alloc: Global,
        table: &mut FormTable,
        steps: &mut Vec<Step>,
        form: u32,
    ) -> Result<(), FormFault>
        requires listed { IsListed (made table.old) self.old.listed.items self.old.places.items }
        requires within { form / 2 < length (made table.old) }
        ensures { Lists result table.old table.new self.new
            (add_form (form_of (made table.old) form)
            (bases_of (made table.old) self.old.listed.items)) }
    {
        let _count = table.len();
        if self.place(form / 2) != NO_PLACE {
            return Ok(());
        }
        only_step(steps, form)?;
        'steps: while let Some(step) = steps.pop() {
            self.advance(alloc, table, step, steps)?;
        }
        Ok(())
    }
}

// How many masks there are for the operands.
fn mask_end(ids: &FormIds) -> u32
    ensures { result ≡ 2 ^ length ids.now }
{
    1u32 << ids.len()
}

// Puts the steps for the operands of an And, so that the first comes first.
fn push_operands(steps: &mut Vec<Step>, ids: &[u32]) -> Result<(), AllocError>
    ensures { OnOk result (PutsOperands ids.now steps.old.items steps.new.items) }
{
    for place in 0..ids.len() {
        steps.push(Step::Add(ids[ids.len() - 1 - place]))?;
    }
    Ok(())
}

// Puts the steps for an And: first its operands are added, and then its parts.
fn push_and(steps: &mut Vec<Step>, b: u32, ids: &[u32]) -> Result<(), AllocError>
    ensures { OnOk result (PutsAnd b ids.now steps.old.items steps.new.items) }
{
    steps.push(Step::Parts(b))?;
    push_operands(steps, ids)
}

// Has the step that adds a form as the only one.
fn only_step(steps: &mut Vec<Step>, form: u32) -> Result<(), AllocError>
    ensures { OnOk result (steps.new.items ≡ Step.Add form ∷ []) }
{
    steps.clear();
    steps.push(Step::Add(form))?;
    Ok(())
}
