// The words of a line, byte by byte.
ghost use Rattle.std.specs.Prelude.{◌≡◌, ◌<◌, IfOk, OnOk};

use crate::words::{Bytes, Ends};
use crate::{Line, Words};
use std::alloc::{AllocError, Global};
use std::marker::Model;
use std::mem;

/// A word is cut to so many bytes.
const WORD_MAX: usize = 4095;

/// The words of a line that is being read.
#[derive(Drop)]
pub struct Gathering {
    bytes: Bytes,
    ends: Ends,
    start: usize,
    long: bool,
}

impl Model for Gathering {
    ghost use Rattle.std.specs.Prelude.{drop};
    ghost use Rattle.lw_words.specs.Gathering.{Gathered, IsKept};
    ghost use Rattle.lw_words.specs.Arenas.{words_at};

    ghost Value = { Gathered };

    ghost view = { λ g. record {
      words = words_at 0 g.bytes.items g.ends.items;
      last = drop g.start g.bytes.items;
      long = g.long;
    } };

    ghost invariant = { λ g. IsKept g.bytes.items g.ends.items g.start g.long };
}

impl Gathering {
    ghost use Rattle.std.specs.Prelude.{◌≡◌, [], All, IfOk, OnOk};
    ghost use Rattle.lw_words.specs.Gathering.{IsInk, IsNoHash, nothing_gathered, mark_gathered};
    ghost use Rattle.lw_words.specs.Gathering.{with_byte, with_bytes, ended, line_gathered};

    /// No byte of a line was read yet.
    pub fn new(alloc: Global) -> Self
        ensures { result ≡ nothing_gathered }
    {
        Gathering {
            bytes: Bytes::new(alloc),
            ends: Ends::new(alloc),
            start: 0,
            long: false,
        }
    }

    /// The word `#@` alone.
    pub fn mark(alloc: Global) -> Result<Self, AllocError>
        ensures { IfOk result (λ g. g ≡ mark_gathered) }
    {
        let bytes = Bytes::from_slice(alloc, b"#@")?;
        let ends = Ends::from_slice(alloc, &[2])?;
        Ok(Gathering {
            bytes,
            ends,
            start: 2,
            long: false,
        })
    }

    /// One more byte of the word.
    #[inline(always)]
    pub fn push(&mut self, b: u8) -> Result<(), AllocError>
        requires ink { IsInk b }
        requires no_hash { IsNoHash b }
        ensures { OnOk result (self.new ≡ with_byte b self.old) }
    {
        if self.bytes.len() - self.start < WORD_MAX {
            self.bytes.push(b)?;
        } else {
            self.long = true;
        }
        Ok(())
    }

    /// More bytes of the word.
    #[inline(always)]
    pub fn push_all(&mut self, bytes: &[u8]) -> Result<(), AllocError>
        requires ink { All IsInk bytes.now }
        requires no_hash { All IsNoHash bytes.now }
        ensures { OnOk result (self.new ≡ with_bytes bytes.now self.old) }
    {
        let room = WORD_MAX - (self.bytes.len() - self.start);
        let kept = bytes.len().min(room);
        self.bytes.extend_from_slice(&bytes[..kept])?;
        if kept < bytes.len() {
            self.long = true;
        }
        Ok(())
    }

    /// The word ends, if there is one.
    #[inline(always)]
    pub fn end_word(&mut self) -> Result<(), AllocError>
        ensures { OnOk result (self.new ≡ ended self.old) }
    {
        let end = self.bytes.len();
        if self.start < end {
            self.ends.push(end)?;
            self.start = end;
        }
        Ok(())
    }

    /// The line of these words, if there are some. Nothing is left.
    pub fn take_line(&mut self, alloc: Global, number: u32) -> Option<Line>
        requires { self.old.last ≡ [] }
        ensures line { result ≡ line_gathered number self.old }
        ensures rest { self.new ≡ nothing_gathered }
    {
        if self.ends.is_empty() {
            return None;
        }
        let Gathering {
            bytes,
            ends,
            long,
            ..
        } = mem::replace(self, Gathering::new(alloc));
        Some(Line {
            number,
            long,
            words: Words::new(bytes, ends),
        })
    }
}
