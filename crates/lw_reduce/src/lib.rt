//! The choice graph of a draft: the congruence closure of its NAND facts and links.
//!
//! In comes a draft: base forms, facts that a form is the NAND of two, and links between forms of
//! one signal. Out comes the graph of the least equivalence in which linked forms are equivalent,
//! and NANDs of equivalent operands. The modules in order:
//!
//! * `facts`, `draft`: a fact, and a draft as it grows (`Draft`);
//! * `representatives`: for each base form the number of an equivalent form, as in union-find;
//! * `known_facts`, `distinct_operands`: facts over representatives, and whether any two have the
//!   same operands;
//! * `rounds`: a round unifies linked forms and, over the facts sorted by the representatives of
//!   their operands, forms with the same operands, until a round changes nothing;
//! * `propagate`: between rounds a hash table carries what was unified on to later facts;
//! * `classes`: the classes, numbered by their first base forms;
//! * `class_facts`, `buckets`, `sorted_pairs`: the operands of facts by class, sorted, each pair
//!   once;
//! * `reduction`: the graph (`reduce`).
//!
//! The one definition to read is `IsReduced` in `specs/Drafts.antt` of `lw_laws`. `lw_assoc` calls
//! `reduce`.
#![tactic(auto)]

mod buckets;
mod class_facts;
mod classes;
mod distinct_operands;
mod draft;
mod facts;
mod known_facts;
mod propagate;
mod reduction;
mod representatives;
mod rounds;
mod sorted_pairs;

pub use draft::Draft;
pub use reduction::reduce;
