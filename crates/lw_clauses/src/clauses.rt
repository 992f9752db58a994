ghost use Rattle.std.specs.Prelude.{◌≡◌, ◌<◌, ◌++◌, [], ◌∷◌, length, slice_get, IfOk, OnErr};
ghost use Rattle.std.specs.Prelude.{IfSome, OnSome, Some};

use crate::Cause;
use crate::denied::Denied;
use crate::following::follows;
use crate::store::Store;
use lw_aig::{Aig, Literal};
use std::alloc::{AllocError, Global};
use std::marker::Model;

/// An and-inverter graph, with clauses that hold in it.
#[derive(Debug, Drop)]
pub struct Clauses {
    aig: Aig,
    store: Store,
    denied: Denied,
}

impl Model for Clauses {
    ghost use Rattle.std.specs.Prelude.{List, All};
    ghost use Rattle.lw_aig.specs.declared.gate.Gate.{Gate};
    ghost use Rattle.lw_clauses.specs.Clauses.{Holds};

    ghost Value = { List Gate };

    ghost view = { λ c. c.aig };

    ghost invariant = { λ c. All (Holds c.aig) c.store };
}

impl Clauses {
    ghost use Rattle.lw_aig.specs.Aigs.{IsBelow, most_nodes};
    ghost use Rattle.lw_aig.specs.declared.gate.Gate.TheVariants.{And, Input};
    ghost use Rattle.lw_clauses.specs.Clauses.{Holds};

    /// The graph, without a clause.
    pub fn new(alloc: Global, aig: Aig) -> Self
        ensures { result ≡ aig }
    {
        Clauses {
            aig,
            store: Store::new(alloc),
            denied: Denied::new(alloc),
        }
    }

    /// The graph.
    pub fn aig(&self) -> &Aig
        ensures { result.now ≡ self.now }
    {
        &self.aig
    }

    /// How many clauses there are.
    pub fn len(&self) -> usize {
        self.store.len()
    }

    /// Whether there is no clause.
    pub fn is_empty(&self) -> bool {
        self.store.len() == 0
    }

    /// How many literals the clauses have in all.
    pub fn literals(&self) -> usize {
        self.store.literals()
    }

    /// The clause with a number, if there is one.
    pub fn clause(&self, number: u32) -> Option<&[Literal]>
        ensures { IfSome result (λ clause. Holds self.now clause.now) }
    {
        self.store.get(number)
    }

    /// Appends a conjunction to the graph. If memory runs out, nothing is changed.
    pub fn push_and(
        &mut self,
        alloc: Global,
        left: Literal,
        right: Literal,
    ) -> Result<(), AllocError>
        requires room { length self.old < most_nodes }
        requires left { IsBelow (length self.old) left }
        requires right { IsBelow (length self.old) right }
        ensures ok { IfOk result (λ _. self.new ≡ self.old ++ And left right ∷ []) }
        ensures err { OnErr result (self.new ≡ self.old) }
    {
        self.aig.push_and(alloc, left, right)
    }

    /// Takes a clause in and gives its number, if it is found to follow along these antecedents.
    /// The graph stays as it is.
    pub fn learn(&mut self, clause: &[Literal], hints: &[Cause]) -> Result<Option<u32>, AllocError>
        ensures kept { self.new ≡ self.old }
        ensures holds { IfOk result (λ number. OnSome number (Holds self.old clause.now)) }
    {
        if !follows(
            self.aig.gates(),
            &self.store,
            &mut self.denied,
            clause,
            hints,
        )? {
            return Ok(None);
        }
        let number = self.store.push(clause)?;
        Ok(number)
    }

    /// Forgets clauses from the first on. The graph stays as it is.
    pub fn forget(&mut self, alloc: Global, clauses: usize) -> Result<(), AllocError>
        ensures { self.new ≡ self.old }
    {
        self.store.forget(alloc, clauses)?;
        Ok(())
    }
}
