//! Normal forms of the nets of a network, and the list of the base forms that occur in them.
//!
//! In come a network and a width, the most operands of an And. Out comes the list of base forms
//! with the two forms of each net (`Forms`), or `Limit` where more than 2,097,152 base forms occur.
//! One form of a net is its sum of products, the other its factored form. A form is a base form or
//! its complement; a base form is true, an input, or an And of forms. The modules in order:
//!
//! * `base`, `ids`, `form_list`: a base form, at most 8 forms held inline, and the list;
//! * `fault`: why forms are not listed;
//! * `maker`: what forms are made with;
//! * `table`: the forms that were made so far, each once;
//! * `conjunction`: the And of some forms;
//! * `row`: the rows of a node's table;
//! * `products`: the sum of products of rows;
//! * `factoring`: the factored form of rows;
//! * `listing`: the base forms that occur, as places in the table;
//! * `occurring`: from a network, net by net, to the list (`forms`);
//! * `renumbering`: from places in the table to numbers in the list;
//! * `sampling`: the value of each base form where every input is false;
//! * `laws`: theorems on the list and on the values of its forms.
//!
//! The one definition to read is `occurring_forms` in `specs/Occurring.antt` of `lw_laws`. `lw_map`
//! calls `forms`, and `lw_assoc` builds a graph of what comes out.
#![tactic(auto)]

mod base;
mod conjunction;
mod factoring;
mod fault;
mod form_list;
mod ids;
mod laws;
mod listing;
mod maker;
mod occurring;
mod products;
mod renumbering;
mod row;
mod sampling;
mod table;

pub use base::Base;
pub use fault::FormFault;
pub use form_list::Forms;
pub use ids::FormIds;
pub use laws::{forms_have_the_nets_values, occurring_forms_are_kept};
pub use occurring::forms;
