// Cuts words into tokens.
ghost use Rattle.std.specs.Prelude.{◌≡◌, ◌+◌, ◌<◌, ◌^◌, ◌++◌, OnOk, not};
ghost use Rattle.std.specs.List.{prefix_len};
ghost use Rattle.lw_genlib.specs.Cells.{is_punct_byte};
ghost use Rattle.lw_genlib.specs.Functions.{tokens_in};

use crate::Token;
use crate::given::Given;
use lw_pool::Name;
use std::alloc::AllocError;

/// Appends the tokens of a word.
pub(crate) fn push_tokens(given: &Given, tokens: &mut Vec<Token>) -> Result<(), AllocError>
    ensures { OnOk result (tokens.new.items ≡ tokens.old.items ++ tokens_in given.now.word.now) }
{
    let mut rest = given.word;
    while let Some(byte) = rest.first() {
        let byte = *byte;
        if is_punct_byte(byte) {
            tokens.push(Token::Punct(byte))?;
            rest = &rest[1..];
        } else {
            let (name, behind) = rest.split_at(name_len(rest));
            tokens.push(Token::Name(Name::from_slice(given.alloc, name)?))?;
            rest = behind;
        }
    }
    Ok(())
}

fn is_punct_byte(byte: u8) -> bool
    ensures { result ≡ is_punct_byte byte }
{
    matches!(
        byte,
        b'(' | b')' | b'!' | b'\'' | b'+' | b'*' | b'=' | b'&' | b'|' | b'^' | b'"' | b';'
    )
}

// How many bytes of a name stand first.
fn name_len(bytes: &[u8]) -> usize
    ensures { result ≡ prefix_len (λ b. not (is_punct_byte b)) bytes.now }
{
    bytes
        .iter()
        .take_while(|byte| !is_punct_byte(**byte))
        .count()
}
