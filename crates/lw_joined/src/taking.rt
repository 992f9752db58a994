// Which networks are within the limits.
ghost use Rattle.std.specs.Prelude.{◌≡◌, ◌≢◌, ◌≤◌, ◌<◌, ◌+◌, [], ℕ, length, All, IfOk, IfErr};
ghost use Rattle.lw_map.specs.Faults.{IsChoiceFault};
ghost use Rattle.lw_map.specs.Options.{plain_options};
ghost use Rattle.lw_joined.specs.Unions.{AreChosen, FitsOther, IsListingOf, IsTaking};
ghost use Rattle.lw_joined.specs.Unions.{ListsTaken, ListsUnion, limit_fault};
ghost use Rattle.lw_joined.specs.declared.taking.Limit.TheVariants.{Signals};

use crate::Other;
use crate::uniting::{Union, union_of};
use lw_assoc::split_count;
use lw_form::{FormFault, Forms, forms};
use lw_map::{MapFault, Options};
use lw_net::Network;
use std::alloc::{AllocError, Global};

/// A limit that some networks together pass.
#[derive(Clone, Copy, Debug, PartialEq, Eq)]
pub enum Limit {
    /// There are more than 262,144 signals.
    Signals,
    /// More than 2,097,152 forms are listed.
    Forms,
    /// The forms have more than 16,777,216 splits.
    Splits,
}

/// A network that is left out, by its place, and the limit that it passes together with the first
/// network and those that were taken before it.
#[derive(Clone, Copy, Debug, PartialEq, Eq)]
pub struct Left {
    pub place: usize,
    pub limit: Limit,
}

/// A union within the limits, and its forms.
#[derive(Drop)]
pub(crate) struct Listed {
    pub(crate) union: Union,
    pub(crate) forms: Forms,
}

/// A union, or the limit that it passes.
#[derive(Drop)]
enum Listing {
    Within(Listed),
    Past(Limit),
}

/// A union of networks within the limits, and those that are left out.
#[derive(Drop)]
pub(crate) struct Taken {
    pub(crate) listed: Listed,
    pub(crate) left: Vec<Left>,
}

// Whether each of the first others is taken, the union of those that are, and the rest.
#[derive(Drop)]
struct Chosen {
    listed: Listed,
    taken: Vec<bool>,
    left: Vec<Left>,
}

// The most splits of a listing.
const MOST_SPLITS: u64 = 16_777_216;

impl Limit {
    // Why the first network is refused, where it passes the limit alone.
    fn fault(self) -> MapFault
        requires { self ≢ Signals }
        ensures { result ≡ limit_fault self }
    {
        match self {
            Limit::Forms => MapFault::Forms,
            Limit::Splits => MapFault::Splits,
            Limit::Signals => unreachable!(),
        }
    }
}

// The forms of a union, or the limit that it passes.
fn forms_of(alloc: Global, union: Union, options: Options) -> Result<Listing, AllocError>
    ensures { IfOk result (IsListingOf options union.net union.ends.items) }
{
    let forms = match forms(alloc, &union.net, options.width) {
        Ok(forms) => forms,
        Err(fault) => {
            drop(union);
            return match fault {
                FormFault::Limit => Ok(Listing::Past(Limit::Forms)),
                FormFault::Memory => Err(AllocError),
            };
        }
    };
    if split_count(&forms, options.mode) > MOST_SPLITS {
        drop(forms);
        drop(union);
        return Ok(Listing::Past(Limit::Splits));
    }
    Ok(Listing::Within(Listed { union, forms }))
}

// The networks that may be joined to one.
#[derive(Clone, Copy)]
pub(crate) struct Offer<'a> {
    pub(crate) net: &'a Network,
    pub(crate) others: &'a [Other<'a>],
    pub(crate) options: Options,
}

impl Offer<'_> {
    // The union of those that are taken, or the limit that it passes.
    fn list(&self, alloc: Global, taken: &[bool]) -> Result<Listing, AllocError>
        requires others { All (FitsOther self.now.net.now) self.now.others.now }
        requires few { length taken.now ≤ length self.now.others.now }
        ensures { IfOk result (ListsUnion self.now taken.now) }
    {
        match union_of(alloc, self.net, self.others, taken)? {
            Some(union) => forms_of(alloc, union, self.options),
            None => Ok(Listing::Past(Limit::Signals)),
        }
    }

    // The first network alone.
    fn first(&self, alloc: Global) -> Result<Listed, MapFault>
        requires { All (FitsOther self.now.net.now) self.now.others.now }
        ensures listed { IfOk result (ListsTaken self.now []) }
        ensures fault { IfErr result (IsChoiceFault (plain_options self.now.options)
            self.now.net.now) }
    {
        let _ = self.net.inputs();
        let none = Vec::new(alloc);
        match self.list(alloc, &none)? {
            Listing::Within(listed) => Ok(listed),
            Listing::Past(limit) => Err(limit.fault()),
        }
    }

    // The other at a place as well, where it stays within the limits.
    fn take_next(&self, alloc: Global, chosen: Chosen, place: usize) -> Result<Chosen, AllocError>
        requires others { All (FitsOther self.now.net.now) self.now.others.now }
        requires chosen { AreChosen self.now place chosen }
        requires more { place < length self.now.others.now }
        ensures { IfOk result (AreChosen self.now (place + 1)) }
    {
        let Chosen {
            listed,
            mut taken,
            mut left,
        } = chosen;
        taken.push(true)?;
        match self.list(alloc, &taken)? {
            Listing::Within(more) => {
                drop(listed);
                Ok(Chosen {
                    listed: more,
                    taken,
                    left,
                })
            }
            Listing::Past(limit) => {
                taken[place] = false;
                left.push(Left { place, limit })?;
                Ok(Chosen {
                    listed,
                    taken,
                    left,
                })
            }
        }
    }

    // The first network, then with each of the others in order that stays within the limits.
    fn take_each(&self, alloc: Global) -> Result<Taken, MapFault>
        requires { All (FitsOther self.now.net.now) self.now.others.now }
        ensures taken { IfOk result (IsTaking self.now) }
        ensures fault { IfErr result (IsChoiceFault (plain_options self.now.options)
            self.now.net.now) }
    {
        let listed = self.first(alloc)?;
        let taken = Vec::new(alloc);
        let left = Vec::new(alloc);
        let mut chosen = Chosen {
            listed,
            taken,
            left,
        };
        for place in 0..self.others.len() {
            chosen = self.take_next(alloc, chosen, place)?;
        }
        let Chosen {
            listed,
            taken,
            left,
        } = chosen;
        drop(taken);
        Ok(Taken { listed, left })
    }

    /// The union of the first network and of all others, or, where it passes a limit, of those
    /// that stay within the limits one after the other. `Forms` and `Splits` come exactly where
    /// the first network passes these limits alone.
    pub(crate) fn take(&self, alloc: Global) -> Result<Taken, MapFault>
        requires { All (FitsOther self.now.net.now) self.now.others.now }
        ensures taken { IfOk result (IsTaking self.now) }
        ensures fault { IfErr result (IsChoiceFault (plain_options self.now.options)
            self.now.net.now) }
    {
        let all = vec![in alloc; true; self.others.len()]?;
        if let Listing::Within(listed) = self.list(alloc, &all)? {
            let left = Vec::new(alloc);
            return Ok(Taken { listed, left });
        }
        self.take_each(alloc)
    }
}
