// Clauses in flat arrays.
ghost use Rattle.std.specs.Prelude.{◌≡◌, [], length, slice_get, IfSome, Some, MatchResult, All};
ghost use Rattle.std.specs.Prelude.{Contains};

use lw_aig::Literal;
use std::alloc::{AllocError, Global};
use std::marker::Model;

// A bound on literals by which all numbers have 32 bits.
const MOST_LITERALS: usize = 1073741824;

// Where a clause stands among the literals.
#[derive(Clone, Copy, Debug)]
pub(crate) struct Span {
    start: u32,
    end: u32,
}

#[derive(Debug, Drop)]
pub(crate) struct Store {
    literals: Vec<Literal>,
    spans: Vec<Span>,
}

impl Model for Store {
    ghost use Rattle.std.specs.Prelude.{List, map, length, All};
    ghost use Rattle.lw_aig.specs.declared.literal.Literal.{Literal};
    ghost use Rattle.lw_clauses.specs.Stores.{literals_at, IsSpan};

    ghost Value = { List (List Literal) };

    ghost view = { λ s. map (literals_at s.literals.items) s.spans.items };

    ghost invariant = { λ s. All (IsSpan (length s.literals.items)) s.spans.items };
}

impl Store {
    ghost use Rattle.lw_clauses.specs.Stores.{Takes};

    pub(crate) fn new(alloc: Global) -> Self
        ensures { result ≡ [] }
    {
        Store {
            literals: Vec::new(alloc),
            spans: Vec::new(alloc),
        }
    }

    // How many clauses there are.
    pub(crate) fn len(&self) -> usize
        ensures { result ≡ length self.now }
    {
        self.spans.len()
    }

    // How many literals they have in all.
    pub(crate) fn literals(&self) -> usize {
        self.literals.len()
    }

    // The clause with a number, if there is one.
    pub(crate) fn get(&self, number: u32) -> Option<&[Literal]>
        ensures { IfSome result (λ clause. slice_get self.now number ≡ Some clause.now) }
    {
        let span = self.spans.get(number as usize)?;
        self.literals.get(span.start as usize..span.end as usize)
    }

    // Appends a clause and gives its number, or none where there are too many literals. If memory
    // runs out, nothing is changed.
    pub(crate) fn push(&mut self, clause: &[Literal]) -> Result<Option<u32>, AllocError>
        ensures { MatchResult result (Takes self.old self.new clause.now)
            (λ _. self.new ≡ self.old) }
    {
        let start = self.literals.len();
        let number = self.spans.len();
        if number > MOST_LITERALS || start > MOST_LITERALS || clause.len() > MOST_LITERALS {
            return Ok(None);
        }
        self.spans.reserve(1)?;
        self.literals.extend_from_slice(clause)?;
        self.spans.push_reserved(Span {
            start: start as u32,
            end: (start + clause.len()) as u32,
        });
        Ok(Some(number as u32))
    }

    // Forgets clauses from the first on. If memory runs out, nothing is changed.
    pub(crate) fn forget(&mut self, alloc: Global, clauses: usize) -> Result<(), AllocError>
        ensures { MatchResult result (λ _. All (Contains self.old) self.new)
            (λ _. self.new ≡ self.old) }
    {
        let mut rest = Store::new(alloc);
        for number in clauses..self.len() {
            let number = u32::try_from(number).unwrap_or(u32::MAX);
            if let Some(clause) = self.get(number) {
                rest.push(clause)?;
            }
        }
        *self = rest;
        Ok(())
    }
}
