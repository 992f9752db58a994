// What words ask for.
ghost use Rattle.std.specs.Prelude.{◌≤◌, length};

/// Which networks are to be compared.
#[derive(Clone, Copy)]
pub struct Comparison<'a> {
    /// The library of those that are mapped.
    pub library: Option<&'a str>,
    /// The most conflicts of a search, for each direction of a pair of nets.
    pub tries: u32,
    /// Counts are wanted.
    pub counted: bool,
    /// Two files or more, of which the first two are compared.
    pub files: &'a [String],
    pub ghost two: { 2 ≤ length files.now },
}

/// What is asked for.
#[derive(Clone, Copy)]
pub enum Request<'a> {
    Help,
    Version,
    Comparing(Comparison<'a>),
}

/// What is wrong with words.
#[derive(Clone, Copy)]
pub enum WordFault<'a> {
    /// They name fewer than two files.
    Few,
    /// This word begins with `-`, where no such option may stand.
    Dashed(&'a str),
    /// This word is no number of conflicts.
    Numeral(&'a str),
}
