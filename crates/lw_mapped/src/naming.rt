// Words in places of names.
ghost use Rattle.std.specs.Prelude.{◌≡◌, ◌<◌, length, drop, slice_index_or, [], IfOk};
ghost use Rattle.lw_mapped.specs.Sayings.{fault_in, are_names};

use crate::MappedKind;
use lw_pool::{Name, Names};
use lw_words::{Words, are_names};
use std::alloc::{AllocError, Global};

/// The first rule that a line of names breaks.
pub(crate) fn names_fault(has_shape: bool, words: &Words) -> Option<MappedKind>
    ensures { result ≡ fault_in has_shape (are_names (drop 1 words.now)) }
{
    if !has_shape {
        return Some(MappedKind::Shape);
    }
    if !are_names(words, 1) {
        return Some(MappedKind::BadName);
    }
    None
}

/// The words from a place on.
pub(crate) fn names_from(alloc: Global, words: &Words, from: usize) -> Result<Names, AllocError>
    ensures { IfOk result (λ names. names ≡ drop from words.now) }
{
    let mut names = Vec::with_capacity(alloc, words.len().saturating_sub(from))?;
    for i in from..words.len() {
        names.push(Name::from_slice(alloc, words.get(i))?)?;
    }
    Ok(Names::from_vec(names))
}

/// The word at a place.
pub(crate) fn name_at(alloc: Global, words: &Words, place: usize) -> Result<Name, AllocError>
    requires { place < length words.now }
    ensures { IfOk result (λ name. name ≡ slice_index_or words.now place []) }
{
    Name::from_slice(alloc, words.get(place))
}
