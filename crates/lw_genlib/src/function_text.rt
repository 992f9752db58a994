// The text of a function, word by word, as tokens.
ghost use Rattle.std.specs.Prelude.{◌≡◌, ◌+◌, ◌++◌, IfOk, OnOk, replicate, false, true, IfSome};
ghost use Rattle.std.specs.Prelude.{IfNone};
ghost use Rattle.std.specs.List.{list_any, before_first, after_first, position};
ghost use Rattle.lw_genlib.specs.Entries as words;
ghost use Rattle.lw_genlib.specs.Kept.{IsOpenText, MayJoin};

use crate::Token;
use crate::given::Given;
use crate::state_parts::FunctionText;
use crate::tokenize::push_tokens;
use std::alloc::{AllocError, Global};

// The most bytes of a function, with the blank before its first word, which is none of them.
const ROOM: usize = 2049;

/// No words.
pub(crate) fn no_text(alloc: Global) -> FunctionText
    ensures { result ≡ words.no_text }
{
    FunctionText {
        tokens: Vec::new(alloc),
        lines: Vec::new(alloc),
        room: ROOM,
    }
}

/// The text with one more word, or a part of one.
pub(crate) fn with_word(given: &Given, text: FunctionText) -> Result<FunctionText, AllocError>
    requires { MayJoin text given.now.word.now }
    ensures { IfOk result (λ new. new ≡ words.with_word text given.now.line given.now.word.now) }
{
    let FunctionText {
        mut tokens,
        mut lines,
        room,
    } = text;
    push_tokens(given, &mut tokens)?;
    let more = tokens.len() - lines.len();
    push_often(&mut lines, given.line, more)?;
    Ok(FunctionText {
        tokens,
        lines,
        room: room - given.word.len() - 1,
    })
}

fn push_often(lines: &mut Vec<u32>, line: u32, count: usize) -> Result<(), AllocError>
    ensures { OnOk result (lines.new.items ≡ lines.old.items ++ replicate count line) }
{
    for _ in 0..count {
        lines.push(line)?;
    }
    Ok(())
}

/// The tokens with the `;` on this line, and the lines of them.
pub(crate) fn with_end(text: FunctionText, line: u32) -> Result<(Vec<Token>, Vec<u32>), AllocError>
    ensures tokens { IfOk result (λ all. all.0.items ≡ (words.with_end text line).tokens) }
    ensures lines { IfOk result (λ all. all.1.items ≡ (words.with_end text line).lines) }
    ensures kept { IsOpenText text.tokens text.lines text.room }
{
    let FunctionText {
        mut tokens,
        mut lines,
        ..
    } = text;
    tokens.push(Token::Punct(b';'))?;
    lines.push(line)?;
    Ok((tokens, lines))
}

/// A word up to its first `;`, and what is behind it, if there is one.
pub(crate) fn around_end(word: &[u8]) -> (&[u8], Option<&[u8]>)
    ensures before { result.0.now ≡ before_first words.is_end word.now }
    ensures some { IfSome result.1
        (λ rest. (list_any words.is_end word.now ≡ true) ×
        (rest.now ≡ after_first words.is_end word.now)) }
    ensures none { IfNone result.1 (list_any words.is_end word.now ≡ false) }
{
    match first_end(word) {
        Some(place) => (&word[..place], Some(&word[place + 1..])),
        None => (word, None),
    }
}

fn first_end(word: &[u8]) -> Option<usize>
    ensures { result ≡ position words.is_end word.now }
{
    word.iter().position(|b| *b == b';')
}
