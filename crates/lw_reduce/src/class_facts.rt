// Facts over classes.
ghost use Rattle.std.specs.Prelude.{◌≡◌, length, map, All};
ghost use Rattle.lw_reduce.specs.Representatives.{IsFactIn};
ghost use Rattle.lw_reduce.specs.Settling.{canonical_fact};

use crate::facts::Fact;
use crate::known_facts::KnownFact;
use crate::rounds::canonical_fact;

// Replaces the forms of each fact by their classes.
fn canonicalize_all(facts: &mut [Fact], forms: &[u32])
    requires { All (IsFactIn (length forms.now)) facts.old }
    ensures { facts.new ≡ map (canonical_fact forms.now) facts.old }
{
    for fact in facts.iter_mut() {
        let known = KnownFact {
            reps: forms,
            fact: *fact,
        };
        *fact = canonical_fact(&known);
    }
}

/// The facts with classes in place of forms.
pub(crate) fn class_facts(forms: &[u32], mut facts: Vec<Fact>) -> Vec<Fact>
    requires { All (IsFactIn (length forms.now)) facts.items }
    ensures { result.items ≡ map (canonical_fact forms.now) facts.items }
{
    canonicalize_all(&mut facts, forms);
    facts
}
