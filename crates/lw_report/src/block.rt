// Up to 64 vectors in words.
ghost use Rattle.std.specs.Prelude.{◌≡◌, ◌+◌, ◌-◌, ◌<◌, ◌++◌, [], ◌∷◌, ℕ, length, map, All, OnOk};
ghost use Rattle.std.specs.Prelude.{IsTrue, slice_index};
ghost use Rattle.lw_report.specs.Blocks.{IsBlock, block_vectors, vectors_in, HasRoom};
ghost use Rattle.lw_report.specs.Marking.{marked};
ghost use Rattle.lw_report.specs.Vectors.{is_one};

use std::alloc::{AllocError, Global};

/// Up to 64 vectors: bit k of the word of an input is its value in vector k.
#[derive(Drop)]
pub struct Block {
    pub words: Vec<u64>,
    pub count: u32,
}

// How many vectors a block has at most.
const MOST: u32 = 64;

// The word with bit k set where the digit is `1`.
fn marked(word: u64, digit: u8, k: u32) -> u64
    requires { k < 64 }
    ensures { result ≡ marked k word digit }
{
    if digit == b'1' { word | 1 << k } else { word }
}

// Sets bit k of the words whose digit is `1`.
fn set_bits(words: &mut [u64], digits: &[u8], k: u32)
    requires bit { k < 64 }
    requires one_each { length digits.now ≡ length words.old }
    ensures { (i : ℕ) → i < length digits.now →
        slice_index words.new i ≡ marked k (slice_index words.old i) (slice_index digits.now i) }
{
    for (i, digit) in digits.iter().enumerate() {
        words[i] = marked(words[i], *digit, k);
    }
}

impl Block {
    // Adds the vector of these digits.
    fn add(&mut self, digits: &[u8])
        requires block { IsBlock (length digits.now) self.old }
        requires room { self.old.count < 64 }
        ensures block { IsBlock (length digits.now) self.new }
        ensures vectors { block_vectors self.new ≡ block_vectors self.old ++ map is_one digits.now
            ∷ [] }
    {
        set_bits(&mut self.words, digits, self.count);
        self.count += 1;
    }
}

// Whether the last block has room for one more vector.
fn has_room(blocks: &[Block]) -> bool
    ensures { IsTrue result → HasRoom blocks.now }
{
    let count = blocks.len();
    count > 0 && blocks[count - 1].count < MOST
}

// Adds a block without vectors, where the last has no room.
fn make_room(alloc: Global, blocks: &mut Vec<Block>, inputs: usize) -> Result<(), AllocError>
    requires { All (IsBlock inputs) blocks.old.items }
    ensures blocks { All (IsBlock inputs) blocks.new.items }
    ensures room { OnOk result (HasRoom blocks.new.items) }
    ensures vectors { OnOk result (vectors_in blocks.new.items ≡ vectors_in blocks.old.items) }
{
    if has_room(blocks) {
        return Ok(());
    }
    let words = vec![in alloc; 0; inputs]?;
    blocks.push(Block { words, count: 0 })?;
    Ok(())
}

// Adds a vector, one digit per input, to the last block, or to a new one where that is full or
// there is none.
pub(crate) fn add_vector(
    alloc: Global,
    blocks: &mut Vec<Block>,
    digits: &[u8],
) -> Result<(), AllocError>
    requires { All (IsBlock (length digits.now)) blocks.old.items }
    ensures blocks { All (IsBlock (length digits.now)) blocks.new.items }
    ensures vectors { OnOk result (vectors_in blocks.new.items ≡ vectors_in blocks.old.items
        ++ map is_one digits.now ∷ []) }
{
    make_room(alloc, blocks, digits.len())?;
    let last = blocks.len() - 1;
    blocks[last].add(digits);
    Ok(())
}
