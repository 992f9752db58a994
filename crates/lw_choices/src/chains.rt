// Places, each linked to the last one before it that has the same class.
ghost use Rattle.std.specs.Prelude.{◌≡◌, ◌<◌, ◌++◌, [], ◌∷◌, ℕ, IfOk, MatchResult, OnOk, OnErr};
ghost use Rattle.std.specs.Prelude.{length, Some, slice_get};
ghost use Rattle.lw_choices.specs.Chains.{CountsPlaces, HasNoPlaces, HasOneClassMore, IsLast};
ghost use Rattle.lw_choices.specs.Chains.{number_of, place_of};

use lw_pool::ClassId;
use std::alloc::{AllocError, Global};
use std::marker::Model;

/// The classes of the places of an array, each place linked to the last one before it that has the
/// same class. Pins are linked by their groups in this way too, with the group's number as a class.
#[derive(Drop)]
pub struct Chains {
    classes: Vec<ClassId>,
    // for each place a number that `place_of` reads, since an `Option` takes twice the room
    befores: Vec<u32>,
    heads: Vec<Option<u32>>,
}

impl Model for Chains {
    ghost use Rattle.std.specs.Prelude.{length, map};
    ghost use Rattle.lw_pool.specs.Numbers.{numbers};
    ghost use Rattle.lw_choices.specs.Chains.{ChainState, AreChains, place_of};

    ghost Value = { ChainState };

    ghost view = { λ l. record {
      classes = numbers l.classes.items;
      count = length l.heads.items;
    } };

    ghost invariant = { λ l. AreChains (numbers l.classes.items) (map place_of l.befores.items)
        l.heads.items };
}

impl Chains {
    ghost use Rattle.lw_pool.specs.Numbers.{numbers};

    /// No places, for so many classes.
    pub fn new(alloc: Global, classes: usize) -> Result<Chains, AllocError>
        ensures { IfOk result (HasNoPlaces classes) }
    {
        Chains::with_room(alloc, classes, 0)
    }

    /// No places, for so many classes, with room for so many places.
    pub(crate) fn with_room(
        alloc: Global,
        classes: usize,
        room: usize,
    ) -> Result<Chains, AllocError>
        ensures { IfOk result (HasNoPlaces classes) }
    {
        Ok(Chains {
            classes: Vec::with_capacity(alloc, room)?,
            befores: Vec::with_capacity(alloc, room)?,
            heads: vec![in alloc; None; classes]?,
        })
    }

    /// The number of places.
    pub fn len(&self) -> u32
        ensures { CountsPlaces self.now result }
    {
        self.classes.len() as u32
    }

    /// The class of a place.
    pub fn class(&self, place: u32) -> ClassId
        requires { place < length self.now.classes }
        ensures class { slice_get self.now.classes place ≡ Some result.0 }
        ensures within { result.0 < self.now.count }
    {
        self.classes[place as usize]
    }

    /// The last place with a class, none if no place has it.
    pub fn last(&self, class: ClassId) -> Option<u32>
        requires { class.0 < self.now.count }
        ensures { IsLast self.now.classes class.0 (length self.now.classes) result }
    {
        self.heads[class.0 as usize]
    }

    /// The last place before one that has its class, none if it is the first.
    pub fn before(&self, place: u32) -> Option<u32>
        requires { place < length self.now.classes }
        ensures { (c : ℕ) → slice_get self.now.classes place ≡ Some c →
            IsLast self.now.classes c place result }
    {
        place_of(self.befores[place as usize])
    }

    /// One class more, which no place has.
    pub fn grow(&mut self) -> Result<(), AllocError>
        ensures { MatchResult result (λ _. HasOneClassMore self.old self.new)
            (λ _. self.new ≡ self.old) }
    {
        self.heads.push(None)?;
        Ok(())
    }

    /// Appends a place with a class. Past 2^32 - 1 places it says that memory is out.
    pub fn push(&mut self, class: ClassId) -> Result<(), AllocError>
        requires { class.0 < self.old.count }
        ensures classes { OnOk result (self.new.classes ≡ self.old.classes ++ class.0 ∷ []) }
        ensures count { self.new.count ≡ self.old.count }
        ensures err { OnErr result (self.new ≡ self.old) }
    {
        if self.classes.len() >= 4_294_967_295 {
            return Err(AllocError);
        }
        let place = self.classes.len() as u32;
        let before = self.heads[class.0 as usize];
        self.befores.reserve(1)?;
        self.classes.push(class)?;
        self.befores.push(number_of(before))?;
        self.heads[class.0 as usize] = Some(place);
        Ok(())
    }
}

// The number that stands for no place.
const NO_PLACE: u32 = 4_294_967_295;

// The place that a number stands for.
fn place_of(number: u32) -> Option<u32>
    ensures { result ≡ place_of number }
{
    if number == NO_PLACE {
        return None;
    }
    Some(number)
}

// The number that stands for a place.
fn number_of(place: Option<u32>) -> u32
    ensures { result ≡ number_of place }
{
    match place {
        None => NO_PLACE,
        Some(place) => place,
    }
}
