// What holds of all logical lines.
ghost use Rattle.std.specs.Prelude.{◌≡◌, ◌+◌, ◌≤◌, ◌++◌, List, ℕ, Bool, length};
ghost use Rattle.lw_words.specs.Lines.{LogicalLine, logical_lines, finished_lines, lines_weight};

/// A law: the lines that are finished stay the first, whatever bytes follow.
pub fn finished_lines_stay()
    ensures { (marked : Bool) (bytes more : List ℕ) →
        ((rest : List LogicalLine) × (logical_lines marked (bytes ++ more)
        ≡ finished_lines marked bytes ++ rest)) }
{}

/// A law: the bytes of all words and the number of words are at most one more than the bytes of the
/// text.
pub fn words_fit()
    ensures { (marked : Bool) (bytes : List ℕ) →
        lines_weight (logical_lines marked bytes) ≤ length bytes + 1 }
{}
