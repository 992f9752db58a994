// Words that may be names.
ghost use Rattle.std.specs.Prelude.{◌≡◌, ◌<◌, length, drop};
ghost use Rattle.std.specs.List.{list_all};
ghost use Rattle.lw_words.specs.Words.{is_name};

use crate::Words;

// How many bytes a name has at most.
const LONGEST_NAME: usize = 2000;

/// Whether a word may be a name: it has at most 2,000 bytes, the last of which is no `\`.
pub fn is_name(word: &[u8]) -> bool
    ensures { result ≡ is_name word.now }
{
    word.len() <= LONGEST_NAME && !word.ends_with(b"\\")
}

/// Whether all words from a place on may be names.
pub fn are_names(words: &Words, from: usize) -> bool
    ensures { result ≡ list_all is_name (drop from words.now) }
{
    for i in from..words.len() {
        if !is_name(words.get(i)) {
            return false;
        }
    }
    true
}
