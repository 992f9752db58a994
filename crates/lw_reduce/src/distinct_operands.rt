// Whether all facts have different operands, so that no two facts make their forms equivalent.
ghost use Rattle.std.specs.Prelude.{◌≡◌, map, IfOk, IsTrue};
ghost use Rattle.std.specs.List.Sorted.{IsStrictlyIncreasing};
ghost use Rattle.lw_reduce.specs.Settling.{HaveDistinctOperands, operands_key};

use crate::known_facts::{KnownFact, KnownFacts};
use crate::rounds::canonical_fact;
use std::alloc::{AllocError, Global};

// The representatives of a fact's operands as one number.
fn key_of(known: &KnownFact) -> u64
    ensures { result ≡ operands_key known.now.reps.now known.now.fact }
{
    let canonical = canonical_fact(known);
    canonical.left as u64 * 0x1_0000_0000 + canonical.right as u64
}

// The keys of all facts.
fn keys_of(alloc: Global, facts: &KnownFacts) -> Result<Vec<u64>, AllocError>
    ensures { IfOk result (λ keys.
        keys.items ≡ map (operands_key facts.now.reps.now) facts.now.nands.now) }
{
    let mut keys = Vec::with_capacity(alloc, facts.nands.len())?;
    let reps = facts.reps;
    for fact in facts.nands {
        let known = KnownFact { reps, fact: *fact };
        keys.push(key_of(&known))?;
    }
    Ok(keys)
}

// Whether each key is below the next.
fn are_increasing(keys: &[u64]) -> bool
    ensures { IsTrue result → IsStrictlyIncreasing keys.now }
{
    for place in 1..keys.len() {
        if keys[place - 1] >= keys[place] {
            return false;
        }
    }
    true
}

/// Whether no two facts have operands with the same representatives. It sorts keys, which takes
/// half as long as sorting facts.
pub(crate) fn have_distinct_operands(alloc: Global, facts: &KnownFacts) -> Result<bool, AllocError>
    ensures { IfOk result (λ own. IsTrue own →
        HaveDistinctOperands facts.now.reps.now facts.now.nands.now) }
{
    let mut keys = keys_of(alloc, facts)?;
    keys.sort_unstable();
    Ok(are_increasing(&keys))
}
