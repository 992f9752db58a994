ghost use Rattle.std.specs.Prelude.{◌≡◌, ◌+◌, ◌++◌, [], ◌∷◌, List, ℕ, None, Some, All, length};
ghost use Rattle.std.specs.Prelude.{drop, replicate, IfOk, OnOk};
ghost use Rattle.std.specs.Option.{ForSome};
ghost use Rattle.std.specs.Str.{bytes_eq};
ghost use Rattle.indexmap.specs.IndexMap.{get};
ghost use Rattle.lw_fixed.specs.declared.micro.Micro.{Micro as Time};
ghost use Rattle.lw_frame.specs.Starts.{IsEarly, at_once};

use indexmap::IndexMap;
use lw_fixed::{Micro, Micros};
use lw_pool::Name;
use std::alloc::{AllocError, Global};

/// What arrival lines say of the starts of a circuit's inputs.
#[derive(Drop)]
pub struct Arrivals {
    // What the last line of each name says.
    own: IndexMap<Name, Micro>,
    // What the last line for all inputs says.
    every: Option<Micro>,
    ghost own_early: { (name : List ℕ) (start : Time) → get bytes_eq own name ≡ Some start →
        IsEarly start },
    ghost every_early: { ForSome every IsEarly },
}

impl Arrivals {
    ghost use Rattle.lw_frame.specs.Starts.{Arrival, starts_of};
    ghost use Rattle.lw_frame.specs.Standing.{StandsFor};
    ghost use Rattle.lw_frame.specs.Kept.{start_kept};

    /// No lines.
    pub fn new(alloc: Global) -> Self
        ensures { StandsFor result [] }
    {
        Arrivals {
            own: IndexMap::new(alloc),
            every: None,
        }
    }

    /// A line for the input of this name.
    pub fn set(&mut self, name: Name, start: Micro) -> Result<(), AllocError>
        requires { IsEarly start }
        ensures { OnOk result ((lines : List Arrival) → StandsFor self.old lines →
            StandsFor self.new (lines ++ record { named = Some name; start = start } ∷ [])) }
    {
        self.own.insert(name, start)?;
        Ok(())
    }

    /// A line for each input that has no line of its own.
    pub fn set_every(&mut self, start: Micro)
        requires { IsEarly start }
        ensures { (lines : List Arrival) → StandsFor self.old lines →
            StandsFor self.new (lines ++ record { named = None; start = start } ∷ []) }
    {
        self.every = Some(start);
    }

    // The start of an input.
    fn start(&self, name: &Name) -> Micro
        ensures start { result ≡ start_kept self.now name.now }
        ensures early { IsEarly result }
    {
        if let Some(start) = self.own.get(name) {
            return *start;
        }
        self.every.unwrap_or(Micro(0))
    }

    /// The starts of inputs of these names and of so many latch outputs behind them.
    pub fn starts(
        &self,
        alloc: Global,
        inputs: &[Name],
        latches: usize,
    ) -> Result<Micros, AllocError>
        ensures starts { (lines : List Arrival) → StandsFor self.now lines →
            IfOk result (λ starts. starts ≡ starts_of lines inputs.now latches) }
        ensures count { IfOk result (λ starts. length starts ≡ length inputs.now + latches) }
        ensures latches { IfOk result (λ starts. drop (length inputs.now) starts
            ≡ replicate latches at_once) }
        ensures early { IfOk result (All IsEarly) }
    {
        let mut starts = Vec::with_capacity(alloc, inputs.len().saturating_add(latches))?;
        for name in inputs {
            starts.push(self.start(name))?;
        }
        add_starts(&mut starts, Micro(0), latches)?;
        Ok(Micros::from_vec(starts))
    }
}

// Adds a start so many times.
fn add_starts(starts: &mut Vec<Micro>, start: Micro, count: usize) -> Result<(), AllocError>
    ensures { OnOk result (starts.new.items ≡ starts.old.items ++ replicate count start) }
{
    for _ in 0..count {
        starts.push(start)?;
    }
    Ok(())
}
