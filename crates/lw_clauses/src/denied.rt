// The literals that are false wherever a clause is, and what they leave of an antecedent.
ghost use Rattle.std.specs.Prelude.{◌≡◌, ◌++◌, [], ◌∷◌, IsTrue, IfOk, Contains};
ghost use Rattle.lw_clauses.specs.Checks.{IsLeft};

use lw_aig::Literal;
use std::alloc::{AllocError, Global};
use std::marker::Model;

// What is left of an antecedent.
#[derive(Clone, Copy)]
pub(crate) enum Left {
    Nothing,
    One(Literal),
    More,
}

// Literals that are denied. By literal, `at` has a place where it stands if it does, which is
// looked at before it is believed.
#[derive(Debug, Drop)]
pub(crate) struct Denied {
    literals: Vec<Literal>,
    at: Vec<u32>,
}

impl Model for Denied {
    ghost use Rattle.std.specs.Prelude.{List};
    ghost use Rattle.lw_aig.specs.declared.literal.Literal.{Literal};

    ghost Value = { List Literal };

    ghost view = { λ d. d.literals.items };
}

impl Denied {
    pub(crate) fn new(alloc: Global) -> Self
        ensures { result ≡ [] }
    {
        Denied {
            literals: Vec::new(alloc),
            at: Vec::new(alloc),
        }
    }

    // Denies nothing, in a graph of some nodes.
    pub(crate) fn clear(&mut self, nodes: usize) -> Result<(), AllocError>
        ensures { IfOk result (λ _. self.new ≡ []) }
    {
        self.at.resize(nodes.saturating_mul(2), 0)?;
        self.literals.clear();
        Ok(())
    }

    // Denies a literal.
    pub(crate) fn deny(&mut self, literal: Literal) -> Result<(), AllocError>
        ensures { IfOk result (λ _. self.new ≡ self.old ++ literal ∷ []) }
    {
        if let Some(at) = self.at.get_mut(literal.0 as usize) {
            *at = u32::try_from(self.literals.len()).unwrap_or(0);
        }
        self.literals.push(literal)?;
        Ok(())
    }

    // Whether a literal is found to be denied.
    fn has(&self, literal: Literal) -> bool
        ensures { IsTrue result → Contains self.now literal }
    {
        let Some(at) = self.at.get(literal.0 as usize) else {
            return false;
        };
        match self.literals.get(*at as usize) {
            Some(there) => *there == literal,
            None => false,
        }
    }

    // What is left of an antecedent.
    pub(crate) fn left_of(&self, antecedent: &[Literal]) -> Left
        ensures { IsLeft self.now antecedent.now result }
    {
        let mut left = Left::Nothing;
        for literal in antecedent {
            if !self.has(*literal) {
                match left {
                    Left::Nothing => left = Left::One(*literal),
                    _ => return Left::More,
                }
            }
        }
        left
    }
}
