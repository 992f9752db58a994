// Words in places of names.
ghost use Rattle.std.specs.Prelude.{◌≡◌, ◌-◌, ◌<◌, ◌≤◌, length, IfOk};
ghost use Rattle.std.specs.List.{slice_range};
ghost use Rattle.lw_blif.specs.LineFaults.{last_word};
ghost use Rattle.lw_words.specs.Words.{first_word};

use lw_pool::{Name, Names};
use lw_words::{Line, Words};
use std::alloc::{AllocError, Global};

/// The words between two places.
pub fn names_between(
    alloc: Global,
    words: &Words,
    from: usize,
    end: usize,
) -> Result<Names, AllocError>
    requires order { from ≤ end }
    requires within { end ≤ length words.now }
    ensures { IfOk result (λ names. names ≡ slice_range words.now from end) }
{
    let mut names = Vec::with_capacity(alloc, end - from)?;
    for i in from..end {
        names.push(Name::from_slice(alloc, words.get(i))?)?;
    }
    Ok(Names::from_vec(names))
}

/// The last word.
pub fn last_word(words: &Words) -> &[u8]
    requires { 0 < length words.now }
    ensures word { result.now ≡ last_word words.now }
    ensures some { 0 < length result.now }
{
    words.get(words.len() - 1)
}

/// The first word of a line.
pub fn first_word(line: &Line) -> &[u8]
    ensures { result.now ≡ first_word line.now.words }
{
    line.words.get(0)
}
