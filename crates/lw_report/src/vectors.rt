// Lists of vectors, line by line.
ghost use Rattle.std.specs.Prelude.{◌≡◌, ◌++◌, [], ◌∷◌, List, None, OnOk, IfErr, All};
ghost use Rattle.std.specs.List.{flat_map, list_all};
ghost use Rattle.lw_report.specs.Blocks.{IsBlock};
ghost use Rattle.lw_report.specs.Vectors.{is_digit};

use crate::VectorFault;
use crate::block::{Block, add_vector};
use lw_words::{Line, Words};
use std::alloc::{AllocError, Global};

/// A list of vectors: values of the inputs. After an error it answers the same to each later line,
/// and changes nothing more.
#[derive(Drop)]
pub struct Vectors {
    alloc: Global,
    inputs: u32,
    blocks: Vec<Block>,
    // The digits of the line that is read.
    digits: Vec<u8>,
    stop: Option<VectorFault>,
    ghost sized: { All (IsBlock inputs) blocks.items },
}

// Puts the words of a line together.
fn gather(digits: &mut Vec<u8>, words: &Words) -> Result<(), AllocError>
    ensures { OnOk result (digits.new.items ≡ flat_map (λ word. word) words.now) }
{
    digits.clear();
    for place in 0..words.len() {
        digits.extend_from_slice(words.get(place))?;
    }
    Ok(())
}

// Whether each byte is `0` or `1`.
fn are_digits(bytes: &[u8]) -> bool
    ensures { result ≡ list_all is_digit bytes.now }
{
    bytes.iter().all(|b| *b == b'0' || *b == b'1')
}

impl Vectors {
    ghost use Rattle.lw_words.specs.Lines.{LogicalLine};
    ghost use Rattle.lw_report.specs.Vectors.{first_fault};
    ghost use Rattle.lw_report.specs.Standing.{StandsFor, Tells, Refuses, AddsVector, KeepsStop};
    ghost use Rattle.lw_report.specs.Standing.{inputs_of, stop_of};

    /// No vectors, for so many inputs.
    pub fn new(alloc: Global, inputs: u32) -> Self
        ensures stands { StandsFor result [] }
        ensures good { stop_of result ≡ None }
        ensures inputs { inputs_of result ≡ inputs }
    {
        Vectors {
            alloc,
            inputs,
            blocks: Vec::new(alloc),
            digits: Vec::new(alloc),
            stop: None,
        }
    }

    /// Takes a line. The answer is the first line that is no vector; it is then that of each later
    /// line.
    pub fn line(&mut self, line: &Line) -> Result<(), VectorFault>
        ensures stands { (lines : List LogicalLine) → StandsFor self.old lines →
            StandsFor self.new (lines ++ line.now ∷ []) }
        ensures answer { (lines : List LogicalLine) → StandsFor self.old lines →
            Tells result (first_fault (inputs_of self.old) (lines ++ line.now ∷ [])) }
        ensures stop { KeepsStop self.old self.new result }
        ensures inputs { inputs_of self.new ≡ inputs_of self.old }
    {
        if let Some(stop) = self.stop {
            return Err(stop);
        }
        let result = self.take(line);
        self.stop = result.err();
        result
    }

    /// The answer to the line that was refused, if one was.
    pub fn fault(&self) -> Option<VectorFault>
        ensures { result ≡ stop_of self.now }
    {
        self.stop
    }

    // The vectors in words, 64 at a time.
    pub(crate) fn blocks(&self) -> &[Block]
        ensures blocks { result.now ≡ self.now.blocks.items }
        ensures sized { All (IsBlock self.now.inputs) self.now.blocks.items }
    {
        &self.blocks
    }

    // Takes the vector of a line.
    fn take(&mut self, line: &Line) -> Result<(), VectorFault>
        ensures ok { OnOk result (AddsVector self.old.inputs self.old.blocks.items
            self.new.blocks.items line.now) }
        ensures fault { IfErr result (Refuses self.old.inputs line.now) }
        ensures inputs { self.new.inputs ≡ self.old.inputs }
        ensures stop { self.new.stop ≡ self.old.stop }
    {
        gather(&mut self.digits, &line.words)?;
        if line.long || self.digits.len() != self.inputs as usize || !are_digits(&self.digits) {
            return Err(VectorFault::Line(line.number));
        }
        add_vector(self.alloc, &mut self.blocks, &self.digits)?;
        Ok(())
    }
}
