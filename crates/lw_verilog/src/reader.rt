// A text, token by token.
ghost use Rattle.std.specs.Prelude.{◌≡◌, ◌<◌, ◌≤◌, ◌+◌, false, length, drop, if◌then◌else◌, IfOk};
ghost use Rattle.std.specs.Prelude.{IfErr, OnOk};
ghost use Rattle.lw_netlist.specs.Plain.{IsOver};
ghost use Rattle.lw_verilog.specs.Keeping.{IsParsed, Keeps, TellsParse, refused_at};
ghost use Rattle.lw_verilog.specs.Readings.{nothing_read};
ghost use Rattle.lw_verilog.specs.Tokens.{is_end, is_gap, last_line, line_feeds, line_limit};
ghost use Rattle.lw_verilog.specs.Verdicts.{IsRead};
ghost use Rattle.lw_words.specs.Limits.{most_bytes};

use crate::contents::Contents;
use crate::pieces::first_piece;
use crate::{Kind, Refusal, VerilogFault};
use lw_genlib::Library;
use lw_named_netlist::close;
use lw_netlist::Netlist;
use lw_pool::Bytes;
use std::alloc::Global;

fn line_feeds(bytes: &[u8]) -> u32
    requires { length bytes.now < line_limit }
    ensures count { result ≡ line_feeds bytes.now }
    ensures few { result ≤ length bytes.now }
{
    let mut count = 0;
    for b in bytes {
        if *b == b'\n' {
            count += 1;
        }
    }
    count
}

// The line behind a piece of this kind that begins in a line. Only gaps have line feeds.
fn line_behind(kind: Kind, line: u32, bytes: &[u8]) -> u32
    requires few { line + length bytes.now < line_limit }
    requires one { is_gap kind ≡ false → line_feeds bytes.now ≡ 0 }
    ensures { result ≡ line + line_feeds bytes.now }
{
    match kind {
        Kind::Gap => line + line_feeds(bytes),
        _ => line,
    }
}

// The number of the last line.
fn last_line(text: &[u8]) -> u32
    requires { length text.now ≤ most_bytes }
    ensures { result ≡ last_line text.now }
{
    1 + line_feeds(&text[..text.len().saturating_sub(1)])
}

// The line of a token.
fn line_of(kind: Kind, line: u32, text: &[u8]) -> u32
    requires { length text.now ≤ most_bytes }
    ensures { result ≡ (if is_end kind then last_line text.now else line) }
{
    match kind {
        Kind::End => last_line(text),
        _ => line,
    }
}

fn refused_at(refusal: Refusal, line: u32) -> VerilogFault
    ensures { result ≡ refused_at refusal line }
{
    match refusal {
        Refusal::Broken(kind) => VerilogFault::Line(line, kind),
        Refusal::Memory => VerilogFault::Memory,
    }
}

// What is behind so many bytes.
fn behind(bytes: &[u8], count: usize) -> &[u8]
    requires { count ≤ length bytes.now }
    ensures { result.now ≡ drop count bytes.now }
{
    &bytes[count..]
}

// Reads a text up to the end of its module, where nothing was read before.
#[tactic(auto, using(crate::proofs::PieceSizes::piece_within, crate::proofs::PieceSizes::piece_some))]
fn parse(contents: &mut Contents, text: &[u8], lib: &Library) -> Result<(), VerilogFault>
    requires none { Keeps lib.now contents.old nothing_read }
    requires few { length text.now ≤ most_bytes }
    ensures parsed { OnOk result (IsParsed lib.now text.now contents.new) }
    ensures fault { IfErr result (TellsParse lib.now text.now) }
{
    let mut rest = text;
    let mut line = 1;
    while !contents.is_done() {
        let piece = first_piece(rest);
        let bytes = &rest[..piece.size];
        if let Err(refusal) = contents.read(piece.kind, bytes, lib) {
            return Err(refused_at(refusal, line_of(piece.kind, line, text)));
        }
        line = line_behind(piece.kind, line, bytes);
        rest = behind(rest, piece.size);
    }
    Ok(())
}

/// The netlist of a text of structural Verilog over the library's cells, or its first fault in the
/// order of the bytes. Where no token has a fault, that of the netlist as a whole is reported.
/// The lines are counted from 1. All behind `endmodule` is ignored. The text has at most 67,108,864
/// bytes.
pub fn read_verilog(alloc: Global, bytes: &Bytes, lib: &Library) -> Result<Netlist, VerilogFault>
    requires { length bytes.now ≤ most_bytes }
    ensures read { IsRead lib.now bytes.now result }
    ensures over { IfOk result (λ netlist. IsOver lib.now netlist) }
{
    let mut contents = Contents::new(alloc)?;
    if let Err(fault) = parse(&mut contents, bytes.as_slice(), lib) {
        drop(contents);
        return Err(fault);
    }
    let Ok(draft) = contents.draft(alloc) else {
        drop(contents);
        return Err(VerilogFault::Memory);
    };
    drop(contents);
    Ok(close(alloc, draft, lib)?)
}
