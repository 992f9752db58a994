// Lines of the bytes that are fed.
ghost use Rattle.std.specs.Prelude.{◌≡◌, ◌+◌, ◌≤◌, ◌<◌, false, true, [], ◌++◌, List, ℕ, length};
ghost use Rattle.std.specs.Prelude.{take, OnOk, IfOk, slice_get, option_to_list};
ghost use Rattle.lw_words.specs.Limits.{most_bytes};

use crate::gathering::Gathering;
use crate::line::Line;
use crate::place::Place;
use crate::reading::{comment_len, over_byte, over_end, over_plain};
use std::alloc::{AllocError, Global};
use std::collections::VecDeque;

/// Cuts the bytes that it is fed into logical lines.
#[derive(Drop)]
pub struct Lines {
    alloc: Global,
    marked: bool,
    finished: bool,
    // The bytes fed.
    fed: u32,
    // The physical line with which the logical line begins, and the physical line.
    number: u32,
    at: u32,
    place: Place,
    gathering: Gathering,
    // The lines that are finished and were not taken.
    ready: VecDeque<Line>,
    ghost few: { fed ≤ most_bytes + 1 },
    ghost counted: { at ≤ fed + 1 },
}

impl Lines {
    ghost use Rattle.lw_words.specs.Reading.{IsComment};
    ghost use Rattle.lw_words.specs.Standing.{StandsFor, ReadsByte, EndsLine, PutsLine, ReadsAll};
    ghost use Rattle.lw_words.specs.Standing.{is_marked, is_finished, fed_count, lines_so_far};

    /// In the marked reading a `#@` that begins a line is kept.
    pub fn new(alloc: Global, marked: bool) -> Self
        ensures marked { is_marked result ≡ marked }
        ensures unfinished { is_finished result ≡ false }
        ensures stands { StandsFor result [] 0 }
    {
        Lines {
            alloc,
            marked,
            finished: false,
            fed: 0,
            number: 1,
            at: 1,
            place: if marked { Place::Start } else { Place::Text },
            gathering: Gathering::new(alloc),
            ready: VecDeque::new(alloc),
        }
    }

    /// More bytes of the text. After an error the value is only dropped.
    pub fn feed(&mut self, piece: &[u8]) -> Result<(), AllocError>
        requires unfinished { is_finished self.old ≡ false }
        requires room { fed_count self.old + length piece.now ≤ most_bytes + 1 }
        ensures stands { OnOk result
            ((fed : List ℕ) (taken : ℕ) → StandsFor self.old fed taken →
            StandsFor self.new (fed ++ piece.now) taken) }
        ensures count { OnOk result (fed_count self.new ≡ fed_count self.old + length piece.now) }
        ensures unfinished { OnOk result (is_finished self.new ≡ false) }
        ensures marked { OnOk result (is_marked self.new ≡ is_marked self.old) }
    {
        let mut at = 0;
        while at < piece.len() {
            at += self.read_some(&piece[at..])?;
        }
        Ok(())
    }

    /// The text ends. After an error the value is only dropped.
    pub fn finish(&mut self) -> Result<(), AllocError>
        requires { is_finished self.old ≡ false }
        ensures stands { OnOk result
            ((fed : List ℕ) (taken : ℕ) → StandsFor self.old fed taken →
            StandsFor self.new fed taken) }
        ensures count { OnOk result (fed_count self.new ≡ fed_count self.old) }
        ensures finished { OnOk result (is_finished self.new ≡ true) }
        ensures marked { OnOk result (is_marked self.new ≡ is_marked self.old) }
    {
        over_end(&mut self.gathering, self.alloc, self.place)?;
        self.put_line()?;
        self.finished = true;
        Ok(())
    }

    /// The next line, if one is finished. It takes no memory.
    pub fn take(&mut self) -> Option<Line>
        ensures line { (fed : List ℕ) (taken : ℕ) → StandsFor self.old fed taken →
            result ≡ slice_get (lines_so_far self.old fed) taken }
        ensures stands { (fed : List ℕ) (taken : ℕ) → StandsFor self.old fed taken →
            StandsFor self.new fed (taken + length (option_to_list result)) }
        ensures count { fed_count self.new ≡ fed_count self.old }
        ensures finished { is_finished self.new ≡ is_finished self.old }
        ensures marked { is_marked self.new ≡ is_marked self.old }
    {
        self.ready.pop_front()
    }

    // Some of these bytes, and how many.
    fn read_some(&mut self, bytes: &[u8]) -> Result<usize, AllocError>
        requires some { 0 < length bytes.now }
        requires room { self.old.fed + length bytes.now ≤ most_bytes + 1 }
        ensures some { IfOk result (λ n. 0 < n) }
        ensures within { IfOk result (λ n. n ≤ length bytes.now) }
        ensures reads { IfOk result (λ n. ReadsAll self.old (take n bytes.now) self.new) }
    {
        let n = self.read_run(bytes)?;
        if n < bytes.len() {
            self.read(bytes[n])?;
            return Ok(n + 1);
        }
        Ok(n)
    }

    // The bytes before the first that needs a look at its own, and how many.
    fn read_run(&mut self, bytes: &[u8]) -> Result<usize, AllocError>
        requires { self.old.fed + length bytes.now ≤ most_bytes + 1 }
        ensures within { IfOk result (λ n. n ≤ length bytes.now) }
        ensures reads { IfOk result (λ n. ReadsAll self.old (take n bytes.now) self.new) }
    {
        match self.place {
            Place::Text => self.read_plain(bytes),
            Place::Comment | Place::ContinuedComment => Ok(self.skip_comment(bytes)),
            _ => Ok(0),
        }
    }

    // Blanks and the bytes of words.
    fn read_plain(&mut self, bytes: &[u8]) -> Result<usize, AllocError>
        requires text { self.old.place ≡ Place.Text }
        requires room { self.old.fed + length bytes.now ≤ most_bytes + 1 }
        ensures within { IfOk result (λ n. n ≤ length bytes.now) }
        ensures reads { IfOk result (λ n. ReadsAll self.old (take n bytes.now) self.new) }
    {
        let n = over_plain(&mut self.gathering, bytes)?;
        self.fed += n as u32;
        Ok(n)
    }

    // The bytes of a comment.
    fn skip_comment(&mut self, bytes: &[u8]) -> usize
        requires comment { IsComment self.old.place }
        requires room { self.old.fed + length bytes.now ≤ most_bytes + 1 }
        ensures within { result ≤ length bytes.now }
        ensures reads { ReadsAll self.old (take result bytes.now) self.new }
    {
        let n = comment_len(bytes);
        self.fed += n as u32;
        n
    }

    // One more byte.
    fn read(&mut self, b: u8) -> Result<(), AllocError>
        requires { self.old.fed ≤ most_bytes }
        ensures { OnOk result (ReadsByte self.old b self.new) }
    {
        self.fed += 1;
        if b == b'\n' {
            return self.end_line();
        }
        self.place = over_byte(&mut self.gathering, self.alloc, self.place, b)?;
        Ok(())
    }

    // The physical line ends.
    #[inline(always)]
    fn end_line(&mut self) -> Result<(), AllocError>
        requires { self.old.at ≤ self.old.fed }
        ensures { OnOk result (EndsLine self.old self.new) }
    {
        over_end(&mut self.gathering, self.alloc, self.place)?;
        self.at += 1;
        if self.place.goes_on() {
            self.place = Place::Text;
            return Ok(());
        }
        self.place = if self.marked {
            Place::Start
        } else {
            Place::Text
        };
        self.put_line()?;
        self.number = self.at;
        Ok(())
    }

    // The line that is gathered is finished.
    #[inline(always)]
    fn put_line(&mut self) -> Result<(), AllocError>
        requires { self.old.gathering.last ≡ [] }
        ensures { OnOk result (PutsLine self.old self.new) }
    {
        if let Some(line) = self.gathering.take_line(self.alloc, self.number) {
            self.ready.push_back(line)?;
        }
        Ok(())
    }
}
