// Logical lines of small texts, in every cutting.
ghost use Rattle.std.specs.Prelude.{◌≡◌, ◌≤◌, ◌+◌, false, length, OnOk};
ghost use Rattle.lw_words.specs.Limits.{most_bytes};
ghost use Rattle.lw_words.specs.Standing.{is_finished, fed_count};

use lw_words::{Line, Lines, Words};
use std::alloc::{AllocError, Global};
use std::process::Abort;
use std::test::Fail;

/// A text, and its lines: the number and the words of each, with one blank between them.
type Case<'a> = (&'a [u8], &'a [(u32, &'a str)]);

// Takes all lines that are finished.
fn collect(lines: &mut Lines, all: &mut Vec<Line>) -> Result<(), AllocError>
    ensures finished { OnOk result (is_finished lines.new ≡ is_finished lines.old) }
    ensures count { OnOk result (fed_count lines.new ≡ fed_count lines.old) }
{
    for _ in 0..100 {
        match lines.take() {
            Some(line) => all.push(line)?,
            None => break,
        }
    }
    Ok(())
}

// Feeds a piece, and takes the lines that are finished.
fn feed(lines: &mut Lines, all: &mut Vec<Line>, piece: &[u8]) -> Result<(), AllocError>
    requires unfinished { is_finished lines.old ≡ false }
    requires room { fed_count lines.old + length piece.now ≤ most_bytes + 1 }
    ensures count { OnOk result (fed_count lines.new ≡ fed_count lines.old + length piece.now) }
    ensures unfinished { OnOk result (is_finished lines.new ≡ false) }
{
    lines.feed(piece)?;
    collect(lines, all)
}

// Feeds a text in three pieces, which end at these places and at its end.
fn feed_three(
    lines: &mut Lines,
    all: &mut Vec<Line>,
    text: &[u8],
    first: usize,
    second: usize,
) -> Result<(), AllocError>
    requires unfinished { is_finished lines.old ≡ false }
    requires order { first ≤ second }
    requires within { second ≤ length text.now }
    requires small { fed_count lines.old + length text.now ≤ 1000 }
{
    feed(lines, all, &text[..first])?;
    feed(lines, all, &text[first..second])?;
    feed(lines, all, &text[second..])?;
    lines.finish()?;
    collect(lines, all)
}

// The lines of a text that is fed in three pieces, which end at these places and at its end.
fn in_three(
    alloc: Global,
    marked: bool,
    text: &[u8],
    first: usize,
    second: usize,
) -> Result<Vec<Line>, AllocError>
    requires order { first ≤ second }
    requires within { second ≤ length text.now }
    requires small { length text.now ≤ 1000 }
{
    let mut all = Vec::new(alloc);
    let mut lines = Lines::new(alloc, marked);
    let fed = feed_three(&mut lines, &mut all, text, first, second);
    drop(lines);
    match fed {
        Ok(()) => Ok(all),
        Err(fault) => {
            drop(all);
            Err(fault)
        }
    }
}

// Feeds a text byte by byte.
fn feed_bytes(lines: &mut Lines, all: &mut Vec<Line>, text: &[u8]) -> Result<(), AllocError>
    requires unfinished { is_finished lines.old ≡ false }
    requires small { fed_count lines.old + length text.now ≤ 1000 }
{
    for i in 0..text.len() {
        feed(lines, all, &text[i..i + 1])?;
    }
    lines.finish()?;
    collect(lines, all)
}

// The lines of a text that is fed byte by byte.
fn by_bytes(alloc: Global, marked: bool, text: &[u8]) -> Result<Vec<Line>, AllocError>
    requires { length text.now ≤ 1000 }
{
    let mut all = Vec::new(alloc);
    let mut lines = Lines::new(alloc, marked);
    let fed = feed_bytes(&mut lines, &mut all, text);
    drop(lines);
    match fed {
        Ok(()) => Ok(all),
        Err(fault) => {
            drop(all);
            Err(fault)
        }
    }
}

// The words with one blank between them.
fn joined(alloc: Global, words: &Words) -> Result<Vec<u8>, AllocError> {
    let mut text = Vec::new(alloc);
    for i in 0..words.len() {
        if i > 0 {
            text.push(b' ')?;
        }
        text.extend_from_slice(words.get(i))?;
    }
    Ok(text)
}

fn are(alloc: Global, lines: &[Line], expected: &[(u32, &str)]) -> Result<bool, AllocError> {
    for (line, (number, text)) in lines.iter().zip(expected) {
        let words = joined(alloc, &line.words)?;
        if line.number != *number || line.long || words.as_slice() != text.as_bytes() {
            return Ok(false);
        }
    }
    Ok(lines.len() == expected.len())
}

// Tries every cutting in three pieces, and single bytes.
fn try_cuttings(rt: &impl Abort, alloc: Global, marked: bool, case: Case<'_>) -> Result<(), Fail> {
    let (text, expected) = case;
    if text.len() > 1000 {
        return Err(Fail::from("the text is small"));
    }
    for second in 0..text.len() + 1 {
        for first in 0..second + 1 {
            let lines = in_three(alloc, marked, text, first, second)?;
            assert!(rt;
                are(alloc, &lines, expected)?,
                "pieces to {first}, {second} and the end"
            );
        }
    }
    let lines = by_bytes(alloc, marked, text)?;
    assert!(rt; are(alloc, &lines, expected)?, "single bytes");
    Ok(())
}

// The lines of a small network.
const NETWORK: &[(u32, &str)] = &[
    (1, ".model and3"),
    (2, ".inputs a b c"),
    (3, ".outputs f"),
    (4, ".names a b c f"),
    (5, "111 1"),
    (6, ".end"),
];

// The lines of the small network, where the second line goes on in the third.
const CONTINUED: &[(u32, &str)] = &[
    (1, ".model and3"),
    (2, ".inputs a b c"),
    (4, ".outputs f"),
    (5, ".names a b c f"),
    (6, "111 1"),
    (7, ".end"),
];

#[test]
fn a_network_is_cut_into_lines(rt: HostRuntime) -> Result<(), Fail> {
    let cases: [Case<'_>; 6] = [
        (
            b".model and3\n.inputs a b c\n.outputs f\n.names a b c f\n111 1\n.end\n",
            NETWORK,
        ),
        (
            b".model and3\r\n.inputs a b c\r\n.outputs f\r\n.names a b c f\r\n111 1\r\n.end\r\n",
            NETWORK,
        ),
        (
            b".model and3\n.inputs a b c # in \\\n.outputs f\n.names a b c f\n111 1\n.end\n",
            NETWORK,
        ),
        (
            b".model and3\n.inputs a \\\nb c\n.outputs f\n.names a b c f\n111 1\n.end\n",
            CONTINUED,
        ),
        (
            b".model and3\n.inputs a b c\n.outputs f\n.names a b c f\n111 1\n.end",
            NETWORK,
        ),
        (
            b".model and3\n.inputs a b c\n.outputs f\n.names a b c f\n111 1\n",
            &NETWORK[..5],
        ),
    ];
    for case in cases {
        try_cuttings(&rt, rt.alloc(), false, case)?;
    }
    Ok(())
}

#[test]
fn marks_are_kept(rt: HostRuntime) -> Result<(), Fail> {
    let cases: [(bool, Case<'_>); 4] = [
        (
            true,
            (
                b"#@ net n1 15 # x\n#@\n#@x\na \\\n#@ b\n#@",
                &[(1, "#@ net n1 15"), (2, "#@"), (4, "a"), (6, "#@")],
            ),
        ),
        (false, (b"#@ net n1 15\n#@\na #@\n", &[(3, "a")])),
        (true, (b"a\\b\\ c\\\\ # d\ne\\", &[(1, "a\\b\\ c\\ e")])),
        (true, (b"\n \t\\\n\x0c\n # a\n", &[])),
    ];
    for (marked, case) in cases {
        try_cuttings(&rt, rt.alloc(), marked, case)?;
    }
    Ok(())
}

// Feeds the two pieces of a text.
fn feed_two(lines: &mut Lines, one: &[u8], other: &[u8]) -> Result<(), AllocError>
    requires unfinished { is_finished lines.old ≡ false }
    requires room { fed_count lines.old + length one.now + length other.now ≤ most_bytes + 1 }
{
    lines.feed(one)?;
    lines.feed(other)?;
    lines.finish()
}

// The first line of a text that begins with a word of so many bytes and goes on with another.
fn long_word(alloc: Global, len: usize) -> Result<Option<Line>, AllocError> {
    if len > 10_000 {
        return Ok(None);
    }
    let word = vec![in alloc; b'w'; len]?;
    let mut lines = Lines::new(alloc, false);
    let fed = feed_two(&mut lines, &word, b" x");
    drop(word);
    let line = lines.take();
    drop(lines);
    fed?;
    Ok(line)
}

// Looks at the line of a long word, of which so many bytes are kept.
fn check_long(
    rt: &impl Abort,
    alloc: Global,
    line: &Line,
    kept: usize,
    long: bool,
) -> Result<(), Fail> {
    assert_eq!(rt; line.long, long);
    assert_eq!(rt; line.words.len(), 2);
    let words = joined(alloc, &line.words)?;
    assert!(rt; words.len() > 2 && words.len() - 2 == kept);
    Ok(())
}

#[test]
fn a_long_word_is_cut(rt: HostRuntime) -> Result<(), Fail> {
    let alloc = rt.alloc();
    for (len, kept, long) in [(4095, 4095, false), (4096, 4095, true), (9000, 4095, true)] {
        let Some(line) = long_word(alloc, len)? else {
            return Err(Fail::from("there is a line"));
        };
        check_long(&rt, alloc, &line, kept, long)?;
    }
    Ok(())
}
