// What a check of a function's tokens keeps of those before, and tests of single tokens.
ghost use Rattle.std.specs.Prelude.{◌≡◌, ◌||◌, true, false, ◌&&◌};
ghost use Rattle.lw_genlib.specs.Cells.{ends_in_stroke};
ghost use Rattle.lw_genlib.specs.Grammar as grammar;
ghost use Rattle.lw_genlib.specs.Functions as function;

use crate::Token;
use lw_pool::Names;

/// What is kept of the tokens of a function that were checked.
#[derive(Drop)]
pub(crate) struct FunctionCheck {
    pub(crate) count: usize,
    pub(crate) equals: bool,
    pub(crate) awaits: bool,
    pub(crate) depth: usize,
    pub(crate) names: usize,
    pub(crate) constant: bool,
    pub(crate) no_parens: usize,
    pub(crate) pins: Names,
}

pub(crate) fn is_punct(punct: u8, token: &Token) -> bool
    ensures { result ≡ grammar.is_punct punct token.now }
{
    match token {
        Token::Name(_) => false,
        Token::Punct(byte) => *byte == punct,
    }
}

pub(crate) fn is_name(token: &Token) -> bool
    ensures { result ≡ grammar.is_name token.now }
{
    matches!(token, Token::Name(_))
}

pub(crate) fn awaits_behind(token: &Token) -> bool
    ensures { result ≡ (grammar.is_punct 61 token.now || grammar.awaits_behind token.now) }
{
    match token {
        Token::Name(_) => false,
        Token::Punct(byte) => matches!(*byte, b'=' | b'(' | b'!' | b'+' | b'*'),
    }
}

pub(crate) fn is_no_paren(token: &Token) -> bool
    ensures { result ≡ function.is_no_paren token.now }
{
    !is_punct(b'(', token) && !is_punct(b')', token)
}

pub(crate) fn is_constant_name(name: &[u8]) -> bool
    ensures { result ≡ function.is_constant_name name.now }
{
    name == b"CONST0".as_slice() || name == b"CONST1".as_slice()
}

pub(crate) fn is_constant(token: &Token) -> bool
    ensures { result ≡ function.is_constant token.now }
{
    match token {
        Token::Name(name) => is_constant_name(name.as_bytes()),
        Token::Punct(_) => false,
    }
}

pub(crate) fn is_among(name: &[u8], pins: &Names) -> bool
    ensures { result ≡ function.is_among name.now pins.now }
{
    for pin in pins.as_slice() {
        if name == pin.as_bytes() {
            return true;
        }
    }
    false
}

pub(crate) fn ends_in_stroke(name: &[u8]) -> bool
    ensures { result ≡ ends_in_stroke name.now }
{
    match name {
        [.., last] => *last == b'\\',
        [] => false,
    }
}

pub(crate) fn fits(awaits: bool, depth: usize, token: &Token) -> bool
    ensures { result ≡ grammar.fits awaits depth token.now }
{
    match token {
        Token::Name(_) => true,
        Token::Punct(b'(' | b'!') => true,
        Token::Punct(b')') => !awaits && depth > 0,
        Token::Punct(b'\'' | b'+' | b'*') => !awaits,
        Token::Punct(_) => false,
    }
}
