// The pieces of a text.
ghost use Rattle.std.specs.Prelude.{◌≡◌, ◌<◌, ◌^◌, length, not};
ghost use Rattle.std.specs.List.{position};
ghost use Rattle.lw_verilog.specs.Pieces.{byte_at, is_separator, is_visible, begins_name};
ghost use Rattle.lw_verilog.specs.Pieces.{is_name_byte, separators, visibles, name_bytes};
ghost use Rattle.lw_verilog.specs.Pieces.{line_bytes, before_pair, word_kind, sign_kind, closed};
ghost use Rattle.lw_verilog.specs.Pieces.{escaped, comment_or_sign, first_piece};
ghost use Rattle.lw_words.specs.Lines.{is_line_feed};

use crate::{Kind, Piece};
use lw_words::is;

fn byte_at(bytes: &[u8], place: usize) -> u8
    ensures { result ≡ byte_at bytes.now place }
{
    if place < bytes.len() {
        return bytes[place];
    }
    0
}

fn is_separator(b: u8) -> bool
    ensures { result ≡ is_separator b }
{
    b == b' ' || b == b'\t' || b == b'\n' || b == 12 || b == b'\r'
}

pub(crate) fn is_visible(b: u8) -> bool
    ensures { result ≡ is_visible b }
{
    33 <= b && b <= 126
}

fn begins_name(b: u8) -> bool
    ensures { result ≡ begins_name b }
{
    (b'A' <= b && b <= b'Z') || (b'a' <= b && b <= b'z') || b == b'_'
}

fn is_name_byte(b: u8) -> bool
    ensures { result ≡ is_name_byte b }
{
    begins_name(b) || (b'0' <= b && b <= b'9') || b == b'$'
}

fn separators_end(bytes: &[u8]) -> Option<usize>
    ensures { result ≡ position (λ b. not (is_separator b)) bytes.now }
{
    bytes.iter().position(|b| !is_separator(*b))
}

fn separators(bytes: &[u8]) -> usize
    ensures { result ≡ separators bytes.now }
{
    separators_end(bytes).unwrap_or(bytes.len())
}

// A loop of its own keeps its count in a register.
#[inline(never)]
fn visibles_end(bytes: &[u8]) -> Option<usize>
    ensures { result ≡ position (λ b. not (is_visible b)) bytes.now }
{
    bytes.iter().position(|b| !is_visible(*b))
}

fn visibles(bytes: &[u8]) -> usize
    ensures { result ≡ visibles bytes.now }
{
    visibles_end(bytes).unwrap_or(bytes.len())
}

#[inline(never)]
fn name_bytes_end(bytes: &[u8]) -> Option<usize>
    ensures { result ≡ position (λ b. not (is_name_byte b)) bytes.now }
{
    bytes.iter().position(|b| !is_name_byte(*b))
}

fn name_bytes(bytes: &[u8]) -> usize
    ensures { result ≡ name_bytes bytes.now }
{
    name_bytes_end(bytes).unwrap_or(bytes.len())
}

fn line_bytes_end(bytes: &[u8]) -> Option<usize>
    ensures { result ≡ position is_line_feed bytes.now }
{
    bytes.iter().position(|b| *b == b'\n')
}

fn line_bytes(bytes: &[u8]) -> usize
    ensures { result ≡ line_bytes bytes.now }
{
    line_bytes_end(bytes).unwrap_or(bytes.len())
}

// How many bytes stand before the first place where these two follow each other, or all.
fn before_pair(first: u8, second: u8, bytes: &[u8]) -> usize
    ensures { result ≡ before_pair first second bytes.now }
{
    for place in 0..bytes.len() {
        if bytes[place] == first && byte_at(bytes, place + 1) == second {
            return place;
        }
    }
    bytes.len()
}

#[tactic(auto, unfolding(crate::specs::Pieces::word_kind))]
fn word_kind(word: &[u8]) -> Kind
    ensures { result ≡ word_kind word.now }
{
    if is(word, b"module") {
        return Kind::Module;
    }
    if is(word, b"endmodule") {
        return Kind::EndModule;
    }
    if is(word, b"input") {
        return Kind::Input;
    }
    if is(word, b"output") {
        return Kind::Output;
    }
    if is(word, b"wire") {
        return Kind::Wire;
    }
    if is(word, b"assign") {
        return Kind::Assign;
    }
    Kind::Name
}

#[tactic(auto, unfolding(crate::specs::Pieces::sign_kind))]
fn sign_kind(b: u8) -> Kind
    ensures { result ≡ sign_kind b }
{
    match b {
        b'(' => Kind::Open,
        b')' => Kind::Close,
        b',' => Kind::Comma,
        b';' => Kind::Semicolon,
        b'.' => Kind::Point,
        b'=' => Kind::Equals,
        _ => Kind::Strange,
    }
}

// A comment that ends with these two bytes; its beginning is left out.
fn closed(first: u8, second: u8, inside: &[u8]) -> Piece
    ensures { result ≡ closed inside.now (before_pair first second inside.now) }
{
    let count = before_pair(first, second, inside);
    if count < inside.len() {
        return Piece {
            kind: Kind::Gap,
            size: count + 4,
        };
    }
    Piece {
        kind: Kind::Unclosed,
        size: 1,
    }
}

// A backslash and so many bytes of a name.
fn escaped(count: usize) -> Piece
    requires { count < 2 ^ 63 }
    ensures { result ≡ escaped count }
{
    if count == 0 {
        return Piece {
            kind: Kind::Strange,
            size: 1,
        };
    }
    Piece {
        kind: Kind::Name,
        size: count + 1,
    }
}

// What begins with a slash or an opening bracket.
#[inline(never)]
#[tactic(auto, using(crate::proofs::PieceSizes::line_bytes_le), unfolding(crate::specs::Pieces::comment_or_sign))]
fn slash_or_bracket(bytes: &[u8]) -> Piece
    requires { 0 < length bytes.now }
    ensures { result ≡ comment_or_sign bytes.now }
{
    let first = bytes[0];
    let second = byte_at(bytes, 1);
    if first == b'/' && second == b'/' {
        return Piece {
            kind: Kind::Gap,
            size: 2 + line_bytes(&bytes[2..]),
        };
    }
    if first == b'/' && second == b'*' {
        return closed(b'*', b'/', &bytes[2..]);
    }
    if first == b'(' && second == b'*' {
        return closed(b'*', b')', &bytes[2..]);
    }
    Piece {
        kind: sign_kind(first),
        size: 1,
    }
}

#[tactic(auto, unfolding(crate::specs::Pieces::comment_or_sign))]
fn comment_or_sign(bytes: &[u8]) -> Piece
    requires { 0 < length bytes.now }
    ensures { result ≡ comment_or_sign bytes.now }
{
    let second = byte_at(bytes, 1);
    if second == b'*' || second == b'/' {
        return slash_or_bracket(bytes);
    }
    Piece {
        kind: sign_kind(bytes[0]),
        size: 1,
    }
}

/// The piece with which a text begins.
#[tactic(auto, using(crate::proofs::PieceSizes::separators_le, crate::proofs::PieceSizes::visibles_le, crate::proofs::PieceSizes::name_bytes_le), unfolding(crate::specs::Pieces::first_piece))]
pub(crate) fn first_piece(bytes: &[u8]) -> Piece
    ensures { result ≡ first_piece bytes.now }
{
    if bytes.is_empty() {
        return Piece {
            kind: Kind::End,
            size: 0,
        };
    }
    let first = bytes[0];
    if is_separator(first) {
        return Piece {
            kind: Kind::Gap,
            size: 1 + separators(&bytes[1..]),
        };
    }
    if first == b'\\' {
        return escaped(visibles(&bytes[1..]));
    }
    if begins_name(first) {
        let size = 1 + name_bytes(&bytes[1..]);
        return Piece {
            kind: word_kind(&bytes[..size]),
            size,
        };
    }
    comment_or_sign(bytes)
}
