// Rows of a node.
ghost use Rattle.std.specs.Prelude.{◌≡◌, ◌==◌, ◌&&◌, nat_lt, length};
ghost use Rattle.lw_blif.specs.LineFaults.{is_column, is_value, has_shape};
ghost use Rattle.lw_blif.specs.Readers.{row_fault_of, value_word};
ghost use Rattle.std.specs.Str.{bytes_eq};
ghost use Rattle.std.specs.List.{list_all};

use crate::BlifKind;
use crate::naming::last_word;
use lw_net::DraftNode;
use lw_words::Words;

/// The most rows of a node.
const ROWS_MAX: usize = 4096;

fn is_value(word: &[u8]) -> bool
    ensures { result ≡ is_value word.now }
{
    word == b"0".as_slice() || word == b"1".as_slice()
}

fn are_columns(word: &[u8]) -> bool
    ensures { result ≡ list_all is_column word.now }
{
    word.iter().all(|b| *b == b'0' || *b == b'1' || *b == b'-')
}

// Whether the words are a row of a node with so many fan-ins.
fn has_shape(fanins: usize, words: &Words) -> bool
    ensures { result ≡ has_shape fanins words.now }
{
    match words.len() {
        1 => fanins == 0 && is_value(words.get(0)),
        2 => has_columns(fanins, words.get(0)) && is_value(words.get(1)),
        _ => false,
    }
}

fn has_columns(fanins: usize, word: &[u8]) -> bool
    ensures { result ≡ (nat_lt 0 fanins && length word.now == fanins
        && list_all is_column word.now) }
{
    fanins > 0 && word.len() == fanins && are_columns(word)
}

// Whether the word is `1`, or `0`.
fn is_value_of(on: bool, word: &[u8]) -> bool
    ensures { result ≡ bytes_eq (value_word on) word.now }
{
    let value = if on { b"1".as_slice() } else { b"0".as_slice() };
    value == word
}

/// The first rule that a row breaks, behind a node with its rows or none.
#[tactic(auto, unfolding(crate::specs::Readers::row_fault_of, crate::specs::Readers::is_value_of))]
pub fn row_fault(node: &Option<DraftNode>, words: &Words) -> Option<BlifKind>
    ensures { result ≡ row_fault_of node.now words.now }
{
    let Some(node) = node else {
        return Some(BlifKind::RowOutside);
    };
    if !has_shape(node.fanins.len(), words) {
        return Some(BlifKind::RowShape);
    }
    if !node.rows.is_empty() && !is_value_of(node.on, last_word(words)) {
        return Some(BlifKind::RowMix);
    }
    if node.rows.len() >= ROWS_MAX {
        return Some(BlifKind::LimitRows);
    }
    None
}
