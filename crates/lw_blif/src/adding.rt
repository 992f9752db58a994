// A row more of a node.
ghost use Rattle.std.specs.Prelude.{◌≡◌, true, length, IfOk, OnOk};
ghost use Rattle.lw_blif.specs.LineFaults.{has_shape, last_word};
ghost use Rattle.lw_blif.specs.Drafts.{columns_of};
ghost use Rattle.lw_blif.specs.Readers.{row_added};

use crate::naming::last_word;
use lw_net::{Cube, DraftNode};
use lw_words::Words;
use std::alloc::{AllocError, Global};

// The columns of a row.
fn columns(alloc: Global, fanins: usize, words: &Words) -> Result<Cube, AllocError>
    requires { has_shape fanins words.now ≡ true }
    ensures { IfOk result (λ cube. cube ≡ columns_of words.now) }
{
    if words.len() == 2 {
        return Cube::from_slice(alloc, words.get(0));
    }
    Ok(Cube::new(Vec::new(alloc)))
}

/// Adds a row to the node.
pub fn add_row(alloc: Global, node: &mut DraftNode, words: &Words) -> Result<(), AllocError>
    requires { has_shape (length node.old.fanins) words.now ≡ true }
    ensures { OnOk result (node.new ≡ row_added words.now node.old) }
{
    let row = columns(alloc, node.fanins.len(), words)?;
    node.rows.push(row)?;
    node.on = last_word(words) != b"0".as_slice();
    Ok(())
}
