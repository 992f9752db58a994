/// What a query found.
#[derive(Clone, Copy, Debug, PartialEq, Eq)]
pub enum Found {
    /// Both literals have one value under every assignment.
    Equal,
    /// The values that the search has now tell them apart, or so it thinks.
    Apart,
    /// Neither was found within the limits.
    Open,
}
