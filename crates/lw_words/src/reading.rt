// The bytes of a physical line: those of a word in one go, the others one by one.
ghost use Rattle.std.specs.Prelude.{◌≡◌, ◌≢◌, ◌≤◌, false, length, take, All, IsTrue, IfOk, OnOk};
ghost use Rattle.lw_words.specs.Lines.{is_blank};
ghost use Rattle.lw_words.specs.Gathering.{with_byte, ended, IsInk, IsPlainByte};
ghost use Rattle.lw_words.specs.Reading.{after_ink, after_text, after_stroke, place_after};
ghost use Rattle.lw_words.specs.Reading.{with_ink, over_text, over_stroke, over_bytes};
ghost use Rattle.lw_words.specs.Reading.{gathered_after, gathered_at_end};

use crate::gathering::Gathering;
use crate::place::Place;
use std::alloc::{AllocError, Global};

const STROKE: u8 = b'\\';

fn is_blank(b: u8) -> bool
    ensures { result ≡ is_blank b }
{
    b == b' ' || b == b'\t' || b == b'\r' || b == 12
}

// A byte of a word that cannot end a line.
fn is_ink(b: u8) -> bool
    ensures ink { IsTrue result → IsInk b }
    ensures plain { IsTrue result → IsPlainByte b }
{
    b != b'\n' && b != b'#' && b != STROKE && !is_blank(b)
}

/// How many bytes stand before the first line feed.
pub fn comment_len(bytes: &[u8]) -> usize
    ensures within { result ≤ length bytes.now }
    ensures no_line_feed { All (λ b. b ≢ 10) (take result bytes.now) }
{
    for (i, b) in bytes.iter().enumerate() {
        if *b == b'\n' {
            return i;
        }
    }
    bytes.len()
}

// How many bytes of a word stand at the beginning.
#[inline(always)]
fn ink_len(bytes: &[u8]) -> usize
    ensures within { result ≤ length bytes.now }
    ensures ink { All IsInk (take result bytes.now) }
    ensures plain { All IsPlainByte (take result bytes.now) }
{
    for (i, b) in bytes.iter().enumerate() {
        if !is_ink(*b) {
            return i;
        }
    }
    bytes.len()
}

// Over the bytes of a word at the beginning, and how many they are.
#[inline(always)]
fn over_ink(gathering: &mut Gathering, bytes: &[u8]) -> Result<usize, AllocError>
    ensures within { IfOk result (λ n. n ≤ length bytes.now) }
    ensures plain { IfOk result (λ n. All IsPlainByte (take n bytes.now)) }
    ensures gathered { IfOk result
        (λ n. gathering.new ≡ over_bytes gathering.old (take n bytes.now)) }
{
    let n = ink_len(bytes);
    gathering.push_all(&bytes[..n])?;
    Ok(n)
}

/// Over blanks and bytes of words, up to the first line feed, `#` or `\`, and how many they are.
pub fn over_plain(gathering: &mut Gathering, bytes: &[u8]) -> Result<usize, AllocError>
    ensures within { IfOk result (λ n. n ≤ length bytes.now) }
    ensures plain { IfOk result (λ n. All IsPlainByte (take n bytes.now)) }
    ensures gathered { IfOk result
        (λ n. gathering.new ≡ over_bytes gathering.old (take n bytes.now)) }
{
    let mut at = 0;
    loop {
        at += over_ink(gathering, &bytes[at..])?;
        if at == bytes.len() || !is_blank(bytes[at]) {
            return Ok(at);
        }
        gathering.end_word()?;
        at += 1;
    }
}

// Over a byte that is no blank, no line feed and no `#`.
#[inline(always)]
fn ink(gathering: &mut Gathering, b: u8) -> Result<Place, AllocError>
    requires blank { is_blank b ≡ false }
    requires line_feed { b ≢ 10 }
    requires hash { b ≢ 35 }
    ensures place { IfOk result (λ p. p ≡ after_ink b) }
    ensures gathered { OnOk result (gathering.new ≡ with_ink b gathering.old) }
{
    if b == STROKE {
        return Ok(Place::Stroke);
    }
    gathering.push(b)?;
    Ok(Place::Text)
}

// Over a byte behind text that does not end in `\`.
#[inline(always)]
fn text(gathering: &mut Gathering, b: u8) -> Result<Place, AllocError>
    requires { b ≢ 10 }
    ensures place { IfOk result (λ p. p ≡ after_text b) }
    ensures gathered { OnOk result (gathering.new ≡ over_text b gathering.old) }
{
    if b == b'#' {
        return Ok(Place::Comment);
    }
    if is_blank(b) {
        gathering.end_word()?;
        return Ok(Place::Text);
    }
    ink(gathering, b)
}

// Over a byte behind a `\`.
fn stroke(gathering: &mut Gathering, b: u8) -> Result<Place, AllocError>
    requires { b ≢ 10 }
    ensures place { IfOk result (λ p. p ≡ after_stroke b) }
    ensures gathered { OnOk result
        (gathering.new ≡ over_stroke b gathering.old (with_byte 92 gathering.old)) }
{
    if b == b'#' {
        return Ok(Place::ContinuedComment);
    }
    if is_blank(b) {
        return Ok(Place::Gap);
    }
    gathering.push(STROKE)?;
    ink(gathering, b)
}

// Over a byte behind a `\` and blanks.
fn gap(gathering: &mut Gathering, b: u8) -> Result<Place, AllocError>
    requires { b ≢ 10 }
    ensures place { IfOk result (λ p. p ≡ after_stroke b) }
    ensures gathered { OnOk result
        (gathering.new ≡ over_stroke b gathering.old (ended (with_byte 92 gathering.old))) }
{
    if b == b'#' {
        return Ok(Place::ContinuedComment);
    }
    if is_blank(b) {
        return Ok(Place::Gap);
    }
    gathering.push(STROKE)?;
    gathering.end_word()?;
    ink(gathering, b)
}

// Over a byte behind what may be a mark.
fn mark(gathering: &mut Gathering, alloc: Global, b: u8) -> Result<Place, AllocError>
    ensures place { IfOk result (λ p. p ≡ place_after Place.Mark b) }
    ensures gathered { OnOk result (gathering.new ≡ gathered_after Place.Mark b gathering.old) }
{
    if is_blank(b) {
        *gathering = Gathering::mark(alloc)?;
        return Ok(Place::Text);
    }
    Ok(Place::Comment)
}

/// Over a byte that is no line feed.
#[inline(always)]
pub fn over_byte(
    gathering: &mut Gathering,
    alloc: Global,
    place: Place,
    b: u8,
) -> Result<Place, AllocError>
    requires { b ≢ 10 }
    ensures place { IfOk result (λ p. p ≡ place_after place b) }
    ensures gathered { OnOk result (gathering.new ≡ gathered_after place b gathering.old) }
{
    match place {
        Place::Text => text(gathering, b),
        Place::Comment => Ok(Place::Comment),
        Place::Stroke => stroke(gathering, b),
        Place::Gap => gap(gathering, b),
        Place::ContinuedComment => Ok(Place::ContinuedComment),
        Place::Start if b == b'#' => Ok(Place::Hash),
        Place::Start => text(gathering, b),
        Place::Hash if b == b'@' => Ok(Place::Mark),
        Place::Hash => Ok(Place::Comment),
        Place::Mark => mark(gathering, alloc, b),
    }
}

/// Over the end of a physical line.
#[inline(always)]
pub fn over_end(gathering: &mut Gathering, alloc: Global, place: Place) -> Result<(), AllocError>
    ensures { OnOk result (gathering.new ≡ gathered_at_end place gathering.old) }
{
    match place {
        Place::Mark => *gathering = Gathering::mark(alloc)?,
        _ => gathering.end_word()?,
    }
    Ok(())
}
