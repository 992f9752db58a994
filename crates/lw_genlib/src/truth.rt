// Truth tables, 64 assignments at a time.
ghost use Rattle.std.specs.Prelude.{◌≡◌, ◌+◌, ◌*◌, ◌<◌, ◌≤◌, ◌↔◌, ℕ, IsTrue, slice_index};
ghost use Rattle.lw_laws.specs.Expressions.{MentionsPin};
ghost use Rattle.lw_genlib.specs.Cells.{HaveOneTruth};
ghost use Rattle.lw_genlib.specs.Words.{bit, AgreeIn, block_count};

use crate::Expr;

/// The values of the first six pins in the 64 assignments of a block.
const LOW_PINS: [u64; 6] = [
    0xaaaa_aaaa_aaaa_aaaa,
    0xcccc_cccc_cccc_cccc,
    0xf0f0_f0f0_f0f0_f0f0,
    0xff00_ff00_ff00_ff00,
    0xffff_0000_ffff_0000,
    0xffff_ffff_0000_0000,
];

/// Whether two expressions over so many pins have one truth table.
pub(crate) fn have_one_truth(first: &Expr, other: &Expr, pins: usize) -> bool
    requires few { pins ≤ 16 }
    requires first { (k : ℕ) → MentionsPin first.now k → k < pins }
    requires other { (k : ℕ) → MentionsPin other.now k → k < pins }
    ensures { IsTrue result ↔ HaveOneTruth first.now other.now }
{
    for block in 0..blocks(pins) {
        if !agree_in(first, other, pins, block) {
            return false;
        }
    }
    true
}

// How many blocks of 64 assignments so many pins have.
fn blocks(pins: usize) -> u64
    requires { pins ≤ 16 }
    ensures { result ≡ block_count pins }
{
    1 << pins.saturating_sub(6)
}

// Whether the expressions have the same values in a block of assignments.
fn agree_in(first: &Expr, other: &Expr, pins: usize, block: u64) -> bool
    requires few { pins ≤ 16 }
    requires first { (k : ℕ) → MentionsPin first.now k → k < pins }
    requires other { (k : ℕ) → MentionsPin other.now k → k < pins }
    ensures { IsTrue result ↔ AgreeIn first.now other.now block }
{
    let words = pin_words(block);
    first.words(&words[..pins]) == other.words(&words[..pins])
}

// The values of the pins in a block of assignments: assignment n gives pin p bit p of n.
fn pin_words(block: u64) -> [u64; 16]
    ensures { (p k : ℕ) → p < 16 → k < 64 → bit k (slice_index result p) ≡ bit p (block * 64 + k) }
{
    let mut words = [0; 16];
    for pin in 0..16 {
        words[pin] = pin_word(block, pin);
    }
    words
}

fn pin_word(block: u64, pin: usize) -> u64
    requires { pin < 16 }
    ensures { (k : ℕ) → k < 64 → bit k result ≡ bit pin (block * 64 + k) }
{
    if pin < 6 {
        LOW_PINS[pin]
    } else if block >> (pin - 6) & 1 == 1 {
        u64::MAX
    } else {
        0
    }
}
