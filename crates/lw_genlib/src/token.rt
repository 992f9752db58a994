use lw_pool::Name;

/// A token of a function: a name, or one byte of `( ) ! ' + * = & | ^ " ;`.
#[derive(Drop)]
pub(crate) enum Token {
    /// A name.
    Name(Name),
    /// A punctuation byte.
    Punct(u8),
}
