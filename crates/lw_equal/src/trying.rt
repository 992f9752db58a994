// All assignments of few inputs, 64 at a time.
ghost use Rattle.std.specs.Prelude.{◌≡◌, ◌+◌, ◌*◌, ◌<◌, ◌≤◌, ℕ, All, IfOk};
ghost use Rattle.std.specs.Prelude.{IsTrue, length};
ghost use Rattle.lw_aig.specs.Aigs.{IsAig, IsBelow, IsLater};
ghost use Rattle.lw_genlib.specs.Words.{bit, block_count};
ghost use Rattle.lw_equal.specs.Trying.{AgreeIn, AreBelow, AreBlockWords, HasFewInputs, IsFirst};
ghost use Rattle.lw_equal.specs.Trying.{IsWordOf, Tells, literal_bit, most_tried};

use lw_aig::{Gate, Literal};
use std::alloc::{AllocError, Global};

// The values of the first six inputs in the 64 assignments of a block.
const LOW_INPUTS: [u64; 6] = [
    0xaaaa_aaaa_aaaa_aaaa,
    0xcccc_cccc_cccc_cccc,
    0xf0f0_f0f0_f0f0_f0f0,
    0xff00_ff00_ff00_ff00,
    0xffff_0000_ffff_0000,
    0xffff_ffff_0000_0000,
];

// How many inputs there are at most where all assignments are tried.
pub(crate) const MOST_TRIED: usize = 20;

// How many words of 64 values are computed at most.
const MOST_WORK: u64 = 1_073_741_824;

// Two literals that are compared.
#[derive(Clone, Copy)]
pub(crate) struct Ends {
    pub(crate) left: Literal,
    pub(crate) right: Literal,
}

// What all assignments tell of pairs of literals: that both of each have one value under every
// assignment, or that a pair, by its place, differs under the assignment of a number.
#[derive(Clone, Copy)]
pub(crate) enum Tried {
    Same,
    Apart(usize, u64),
}

// How many blocks of 64 assignments so many inputs have.
fn blocks(inputs: usize) -> u64
    requires { inputs ≤ 20 }
    ensures { result ≡ block_count inputs }
{
    1 << inputs.saturating_sub(6)
}

// The values of an input in a block: assignment n gives input i bit i of n.
fn input_word(block: u64, input: usize) -> u64
    requires { input < 20 }
    ensures { (k : ℕ) → k < 64 → bit k result ≡ bit input (block * 64 + k) }
{
    if input < 6 {
        LOW_INPUTS[input]
    } else if block >> (input - 6) & 1 == 1 {
        u64::MAX
    } else {
        0
    }
}

// The values of a literal in a block, from those of the nodes.
fn literal_word(words: &[u64], literal: Literal) -> u64
    requires { IsBelow (length words.now) literal }
    ensures { (k : ℕ) → k < 64 → bit k result ≡ literal_bit words.now k literal }
{
    let word = words[literal.node() as usize];
    if literal.0 % 2 == 0 { word } else { !word }
}

// The values of a node in a block, from those of the nodes before it.
fn node_word(gate: Gate, node: usize, block: u64, words: &[u64]) -> u64
    requires later { IsLater gate node }
    requires within { node ≤ length words.now }
    ensures { (k : ℕ) → k < 64 → IsWordOf gate node block words.now result k }
{
    match gate {
        Gate::Zero => 0,
        Gate::Input if 0 < node && node <= MOST_TRIED => input_word(block, node - 1),
        Gate::Input => 0,
        Gate::And(left, right) => literal_word(words, left) & literal_word(words, right),
    }
}

// Fills in the values of the nodes in a block.
fn fill(gates: &[Gate], block: u64, words: &mut [u64])
    requires aig { IsAig gates.now }
    requires one_each { length words.old ≡ length gates.now }
    ensures { AreBlockWords gates.now block words.new }
{
    for (node, gate) in gates.iter().enumerate() {
        words[node] = node_word(*gate, node, block, words);
    }
}

// Whether a node is one of the first so many inputs, if it is an input.
fn is_first(gate: Gate, node: usize, inputs: usize) -> bool
    ensures { IsTrue result → IsFirst gate node inputs }
{
    match gate {
        Gate::Zero => true,
        Gate::Input => node <= inputs,
        Gate::And(_, _) => true,
    }
}

// Whether a graph has no inputs but its first so many.
fn has_few_inputs(gates: &[Gate], inputs: usize) -> bool
    ensures { IsTrue result → HasFewInputs gates.now inputs }
{
    for (node, gate) in gates.iter().enumerate() {
        if !is_first(*gate, node, inputs) {
            return false;
        }
    }
    true
}

// Whether both literals of a pair have the same values in a block.
fn agree(words: &[u64], both: Ends) -> bool
    requires { AreBelow (length words.now) both }
    ensures { IsTrue result → AgreeIn words.now both }
{
    literal_word(words, both.left) == literal_word(words, both.right)
}

// Whether both literals of each pair do.
fn all_agree(words: &[u64], ends: &[Ends]) -> bool
    requires { All (AreBelow (length words.now)) ends.now }
    ensures { IsTrue result → All (AgreeIn words.now) ends.now }
{
    for both in ends {
        if !agree(words, *both) {
            return false;
        }
    }
    true
}

// The first assignment of a block under which a pair differs: the place of the first pair that
// does, and the number of the assignment.
fn first_apart(words: &[u64], ends: &[Ends], block: u64) -> (usize, u64)
    requires { All (AreBelow (length words.now)) ends.now }
{
    let mut place = 0;
    let mut first = 64;
    for (pair, both) in ends.iter().enumerate() {
        let apart = literal_word(words, both.left) ^ literal_word(words, both.right);
        if apart.trailing_zeros() < first {
            place = pair;
            first = apart.trailing_zeros();
        }
    }
    let number = block.wrapping_mul(64).wrapping_add(u64::from(first));
    (place, number)
}

// Whether all assignments can be tried within the limit of work.
pub(crate) fn can_try(gates: &[Gate], inputs: usize) -> bool
    ensures few { IsTrue result → inputs ≤ most_tried }
    ensures own { IsTrue result → HasFewInputs gates.now inputs }
{
    if inputs > MOST_TRIED {
        return false;
    }
    let work = blocks(inputs).saturating_mul(gates.len() as u64);
    work <= MOST_WORK && has_few_inputs(gates, inputs)
}

// Tries all assignments on pairs of literals, up to the first under which a pair differs.
fn try_blocks(gates: &[Gate], inputs: usize, ends: &[Ends], words: &mut [u64]) -> Tried
    requires aig { IsAig gates.now }
    requires few { inputs ≤ most_tried }
    requires own { HasFewInputs gates.now inputs }
    requires within { All (AreBelow (length gates.now)) ends.now }
    requires one_each { length words.old ≡ length gates.now }
    ensures { Tells gates.now ends.now result }
{
    for block in 0..blocks(inputs) {
        fill(gates, block, words);
        if !all_agree(words, ends) {
            let (place, number) = first_apart(words, ends, block);
            return Tried::Apart(place, number);
        }
    }
    Tried::Same
}

// The same, in memory of its own.
pub(crate) fn try_all(
    alloc: Global,
    gates: &[Gate],
    inputs: usize,
    ends: &[Ends],
) -> Result<Tried, AllocError>
    requires aig { IsAig gates.now }
    requires few { inputs ≤ most_tried }
    requires own { HasFewInputs gates.now inputs }
    requires within { All (AreBelow (length gates.now)) ends.now }
    ensures { IfOk result (Tells gates.now ends.now) }
{
    let mut words = vec![in alloc; 0; gates.len()]?;
    Ok(try_blocks(gates, inputs, ends, &mut words))
}
