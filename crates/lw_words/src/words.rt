// The words of a line, one after another in one list of bytes.
ghost use Rattle.std.specs.Prelude.{◌≡◌, ◌+◌, ◌<◌, ◌≤◌, length, slice_get, Some};
ghost use Rattle.std.specs.List.{slice_range};
ghost use Rattle.lw_words.specs.Arenas.{words_at, AreEnds, begin_of};
ghost use Rattle.lw_words.specs.Limits.{longest_word};

use smallvec::SmallVec;
use std::marker::Model;

/// The bytes of the words of a line: those of a short line lie in the line itself.
pub type Bytes = SmallVec<u8, 40>;

/// Where each word of a line ends among the bytes: a line of few words needs no memory for it.
pub type Ends = SmallVec<usize, 5>;

/// The words of a line: each a list of 1 to 4,095 bytes.
#[derive(Drop)]
pub struct Words {
    bytes: Bytes,
    ends: Ends,
}

impl Model for Words {
    ghost use Rattle.std.specs.Prelude.{List, ℕ, length};
    ghost use Rattle.lw_words.specs.Arenas.{words_at, AreEnds};

    ghost Value = { List (List ℕ) };

    ghost view = { λ w. words_at 0 w.bytes.items w.ends.items };

    ghost invariant = { λ w. AreEnds 0 (length w.bytes.items) w.ends.items };
}

impl Words {
    // The words of these bytes, by where each of them ends.
    pub(crate) fn new(bytes: Bytes, ends: Ends) -> Self
        requires { AreEnds 0 (length bytes.items) ends.items }
        ensures { result ≡ words_at 0 bytes.items ends.items }
    {
        Words { bytes, ends }
    }

    /// How many words there are.
    pub fn len(&self) -> usize
        ensures { result ≡ length self.now }
    {
        self.ends.len()
    }

    /// The word at a place.
    pub fn get(&self, place: usize) -> &[u8]
        requires { place < length self.now }
        ensures word { slice_get self.now place ≡ Some result.now }
        ensures some { 0 < length result.now }
        ensures few { length result.now ≤ longest_word }
    {
        word_at(&self.bytes, &self.ends, place)
    }
}

// Where the word at a place begins.
fn begin_at(ends: &[usize], place: usize) -> usize
    requires { place < length ends.now }
    ensures { result ≡ begin_of 0 ends.now place }
{
    if place == 0 {
        return 0;
    }
    ends[place - 1]
}

// A part of the bytes.
fn part(bytes: &[u8], from: usize, end: usize) -> &[u8]
    requires order { from ≤ end }
    requires end { end ≤ length bytes.now }
    ensures part { result.now ≡ slice_range bytes.now from end }
    ensures len { length result.now + from ≡ end }
{
    &bytes[from..end]
}

// The word at a place, where these are the bytes of all words and where each of them ends.
fn word_at<'a>(bytes: &'a [u8], ends: &[usize], place: usize) -> &'a [u8]
    requires ends { AreEnds 0 (length bytes.now) ends.now }
    requires place { place < length ends.now }
    ensures word { slice_get (words_at 0 bytes.now ends.now) place ≡ Some result.now }
    ensures some { 0 < length result.now }
    ensures few { length result.now ≤ longest_word }
{
    let from = begin_at(ends, place);
    let end = ends[place];
    part(bytes, from, end)
}
