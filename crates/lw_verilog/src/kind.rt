// What the pieces of a text are.

/// What a piece of a text is.
#[derive(Clone, Copy)]
pub enum Kind {
    /// Bytes between tokens, or a comment.
    Gap,
    /// A name.
    Name,
    Module,
    EndModule,
    Input,
    Output,
    Wire,
    Assign,
    /// The sign `(`.
    Open,
    /// The sign `)`.
    Close,
    /// The sign `,`.
    Comma,
    /// The sign `;`.
    Semicolon,
    /// The sign `.`.
    Point,
    /// The sign `=`.
    Equals,
    /// A byte with which no token begins.
    Strange,
    /// A comment that is not closed.
    Unclosed,
    /// The end of the bytes.
    End,
}

/// A piece of a text: what it is, and how many bytes it has.
#[derive(Clone, Copy)]
pub struct Piece {
    pub kind: Kind,
    pub size: usize,
}
