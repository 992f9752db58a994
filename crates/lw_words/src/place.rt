// Where a reader stands in a physical line.
ghost use Rattle.std.specs.Prelude.{◌≡◌};

/// How the bytes of a physical line end that were read so far.
#[derive(Clone, Copy)]
pub enum Place {
    /// A logical line begins, where marks count, and nothing of it was read.
    Start,
    /// Only the `#` of what may be a mark.
    Hash,
    /// Only `#@`.
    Mark,
    /// Text that does not end in `\`, blanks aside.
    Text,
    /// A `\`, which is not gathered yet.
    Stroke,
    /// A `\`, which is not gathered yet, and then blanks.
    Gap,
    /// A comment.
    Comment,
    /// A comment behind a `\`.
    ContinuedComment,
}

impl Place {
    ghost use Rattle.lw_words.specs.Reading.{goes_on};

    /// The next physical line continues this one.
    pub fn goes_on(self) -> bool
        ensures { result ≡ goes_on self }
    {
        match self {
            Place::Stroke | Place::Gap | Place::ContinuedComment => true,
            _ => false,
        }
    }
}
