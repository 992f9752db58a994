// Representatives of forms, as in union-find: for each base form the number of an equivalent form,
// at most its own.
ghost use Rattle.std.specs.Prelude.{◌≡◌, ◌/◌, ◌<◌, length, slice_set};
ghost use Rattle.lw_reduce.specs.Representatives.{CanFind, CanUnify, FindsRoot, IsFlat, Represent};
ghost use Rattle.lw_reduce.specs.Representatives.{StillRepresent, Unifies, rep_of, in_phase};

use crate::facts::Facts;

/// The representative of a form: that of its base form, or the complement of that.
#[tactic(auto, using(crate::proofs::Flips::flip_rules))]
pub(crate) fn rep_of(reps: &[u32], form: u32) -> u32
    requires { form / 2 < length reps.now }
    ensures { result ≡ rep_of reps.now form }
{
    let base = reps[(form / 2) as usize];
    if form % 2 == 0 { base } else { base ^ 1 }
}

// Gives a form a representative.
#[tactic(auto, using(crate::proofs::Flips::flip_rules))]
fn set_rep(reps: &mut [u32], form: u32, rep: u32)
    requires { form / 2 < length reps.old }
    ensures { reps.new ≡ slice_set reps.old (form / 2) (in_phase form rep) }
{
    reps[(form / 2) as usize] = if form % 2 == 0 { rep } else { rep ^ 1 };
}

/// The root that representatives lead to from a form. The path is halved on the way.
pub(crate) fn find(reps: &mut [u32], facts: &Facts, form: u32) -> u32
    requires { CanFind facts.now reps.old form }
    ensures { FindsRoot facts.now reps.old reps.new form result }
{
    let mut at = form;
    'path: loop {
        let up = rep_of(reps, at);
        if up == at {
            return at;
        }
        let top = rep_of(reps, up);
        if top == up {
            return up;
        }
        set_rep(reps, at, top);
        at = top;
    }
}

/// Gives two equivalent forms one root, and says whether they had two.
pub(crate) fn unify(reps: &mut [u32], facts: &Facts, left: u32, right: u32) -> bool
    requires { CanUnify facts.now reps.old left right }
    ensures { Unifies facts.now reps.old reps.new result
        (rep_of reps.old left ≡ rep_of reps.old right) }
{
    let a = find(reps, facts, left);
    let b = find(reps, facts, right);
    if a == b {
        return false;
    }
    if a < b {
        set_rep(reps, b, a);
    } else {
        set_rep(reps, a, b);
    }
    true
}

/// Makes each representative a root. Lower forms come first, so one step is enough for each.
pub(crate) fn flatten(reps: &mut [u32], facts: &Facts)
    requires { Represent facts.now reps.old }
    ensures kept { StillRepresent facts.now reps.old reps.new }
    ensures flat { IsFlat reps.new }
{
    for base in 0..reps.len() {
        let up = reps[base];
        let top = rep_of(reps, up);
        if top != up {
            reps[base] = top;
        }
    }
}
