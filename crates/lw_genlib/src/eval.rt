// The value of steps in postfix order, at 64 assignments at once.
ghost use Rattle.std.specs.Prelude.{◌≡◌, ◌+◌, ◌-◌, ◌<◌, ◌≤◌, ◌∷◌, [], length, take};
ghost use Rattle.lw_genlib.specs.Postfix.{arity, stepped, run};
ghost use Rattle.lw_genlib.specs.Runs.{CanRun, IsPinOf, word_by};

use crate::ExprOp;

const MOST_VALUES: usize = 64;

/// The word that the steps leave, where pin k has word k of `pins`.
pub(crate) fn run_words(ops: &[ExprOp], pins: &[u64]) -> u64
    requires { CanRun (length pins.now) 0 ops.now }
    ensures { run (word_by pins.now) ops.now [] ≡ result ∷ [] }
{
    let mut stack = [0; MOST_VALUES];
    let mut size = 0;
    for op in ops {
        size = step(*op, pins, &mut stack, size);
    }
    stack[0]
}

// Puts the step's word in the place of those that it takes, and tells how many there are now.
fn step(op: ExprOp, pins: &[u64], stack: &mut [u64; MOST_VALUES], size: usize) -> usize
    requires takes { arity op ≤ size }
    requires held { size ≤ 64 }
    requires room { size - arity op < 64 }
    requires pin { IsPinOf (length pins.now) op }
    ensures size { result ≡ size - arity op + 1 }
    ensures stack { take result stack.new ≡ stepped (word_by pins.now) op (take size stack.old) }
{
    let base = size - usize::from(arity(op));
    let word = word_by(op, pins, &stack[base..size]);
    stack[base] = word;
    base + 1
}

fn arity(op: ExprOp) -> u8
    ensures { result ≡ arity op }
{
    match op {
        ExprOp::Const(_) | ExprOp::Pin(_) => 0,
        ExprOp::Not => 1,
        ExprOp::And(parts) | ExprOp::Or(parts) => parts,
    }
}

fn word_by(op: ExprOp, pins: &[u64], words: &[u64]) -> u64
    requires parts { length words.now ≡ arity op }
    requires pin { IsPinOf (length pins.now) op }
    ensures { result ≡ word_by pins.now op words.now }
{
    match op {
        ExprOp::Const(value) => if value { u64::MAX } else { 0 },
        ExprOp::Pin(pin) => pins[usize::from(pin)],
        ExprOp::Not => !words[0],
        ExprOp::And(_) => words.iter().fold(u64::MAX, |all, word| all & *word),
        ExprOp::Or(_) => words.iter().fold(0, |some, word| some | *word),
    }
}
