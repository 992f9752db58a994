//! What the product means: its definitions, and the laws about them that need no program.
//!
//! The definitions stand in `specs/`, which `specs/Lib.antt` lists in the order of reading; the
//! page `docs/READING.md` leads through them. What is promised is said by `Trees`, `Networks`,
//! `Forms`, `Signals`, `Modes`, `Decompositions`, `Expressions`, `Patterns`, `Covers`, `Netlists`
//! and `Headline`. How it is found is said by `Occurring`, `Listings`, `Graphs`, `Classes`,
//! `Matches`, `Costs`, `Choices`, `Delays`, `Extracts`, `Names` and `MappedNetlists`. The other
//! files are the words of laws and proofs, among them the numbered forms, which stand for the
//! places of forms in a list of forms.
//!
//! The theorems are stated over any listing of forms whose linked forms have one value
//! (`IsSoundListing` in `SignalValues`), and those on the forms of one network are instances.
#![tactic(auto)]

pub mod covers;
pub mod graphs;
pub mod mappings;
pub mod networks;
