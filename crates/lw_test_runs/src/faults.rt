// Each command over files and streams in memory, of whose calls each fails in turn.
ghost use Rattle.std.specs.Prelude.{◌≡◌, ◌≤◌, ◌<◌, [], ◌∷◌, codes, length, IfOk};
ghost use Rattle.lw_io.specs.Files.{names_of};

use lw_io::{File, FileList, MemShelf, MemSink};
use lw_pool::{Bytes, Name, Numbers};
use lw_top::run;
use std::alloc::{AllocError, Global};
use std::process::Abort;
use std::test::Fail;

/// A command's words, the names and bytes of the files that it reads, in order, and what it comes
/// to: the status, and what goes to out and to err.
#[derive(Clone, Copy)]
struct Row<'a> {
    words: &'a str,
    reads: &'a [(&'a str, &'a [u8])],
    status: u8,
    out: &'a [u8],
    err: &'a [u8],
}

/// The number of the one call of each that fails, or 0, the most bytes of a read or a write, and
/// how many bytes out takes in all.
#[derive(Clone, Copy)]
struct Faults {
    shelf: u32,
    out: u32,
    err: u32,
    chunk: usize,
    room: usize,
}

const CHUNK: usize = 7;

const NONE: Faults = Faults {
    shelf: 0,
    out: 0,
    err: 0,
    chunk: CHUNK,
    room: 2000,
};

pub(crate) const LIB: &[u8] =
    b"GATE inv 1 O=!a;\nPIN * INV 1 999 1 0 1 0\nGATE nand2 2 O=!(a*b);\nPIN * INV 1 999 1.5 0 1.5 0\nGATE nand3 3 O=!(a*b*c);\nPIN * INV 1 999 2 0 2 0\n";

const NAND: &[u8] = b"GATE nand2 2 O=!(a*b);\nPIN * INV 1 999 1.5 0 1.5 0\n";

const IN: &[u8] = b".model and3\n.inputs a b c\n.outputs f\n.names a b c f\n111 1\n.end\n";

const MAPPED: &[u8] =
    b".model and3\n.inputs a b c\n.outputs f\n.gate nand3 a=a b=b c=c O=n1\n.gate inv a=n1 O=f\n#@ label 2 0\n#@ label 3 1\n#@ label 4 0\n#@ label 5 1\n#@ label 6 0\n#@ label 7 1\n#@ label 8 2.5\n#@ label 9 1.5\n#@ label 10 2.5\n#@ label 11 1.5\n#@ label 12 2.5\n#@ label 13 1.5\n#@ label 14 3\n#@ label 15 2\n#@ net n1 15\n#@ net f 14\n.end\n";

const VECTORS: &[u8] = b"111\n110\n";

const VER: &[u8] =
    b"module \\and3 (\\a , \\b , \\c , \\f );\ninput \\a ;\ninput \\b ;\ninput \\c ;\noutput \\f ;\nwire \\n1 ;\n\\nand3 u1 (.\\a (\\a ), .\\b (\\b ), .\\c (\\c ), .\\O (\\n1 ));\n\\inv u2 (.\\a (\\n1 ), .\\O (\\f ));\nendmodule\n";

const ROWS: [Row<'static>; 17] = [
    Row {
        words: "map -c LIB IN",
        reads: &[("LIB", LIB), ("IN", IN)],
        status: 0,
        out: MAPPED,
        err: b"",
    },
    Row {
        words: "check LIB IN MAPPED",
        reads: &[("LIB", LIB), ("IN", IN), ("MAPPED", MAPPED)],
        status: 0,
        out: b"yes\n",
        err: b"",
    },
    Row {
        words: "time LIB MAPPED",
        reads: &[("LIB", LIB), ("MAPPED", MAPPED)],
        status: 0,
        out: b"arrival f 3\nmax 3\narea 4\nstep n1 nand3 a 2\nstep f inv a 3\n",
        err: b"",
    },
    Row {
        words: "sim IN VECTORS",
        reads: &[("IN", IN), ("VECTORS", VECTORS)],
        status: 0,
        out: b"1\n0\n",
        err: b"",
    },
    Row {
        words: "sim -g LIB MAPPED VECTORS",
        reads: &[("LIB", LIB), ("MAPPED", MAPPED), ("VECTORS", VECTORS)],
        status: 0,
        out: b"1\n0\n",
        err: b"",
    },
    Row {
        words: "graph IN",
        reads: &[("IN", IN)],
        status: 0,
        out: b"forms 8\nclasses 16\nalternatives 6\n",
        err: b"",
    },
    Row {
        words: "big 0 2 LIB",
        reads: &[("LIB", LIB)],
        status: 0,
        out: b"nodes 2\nclasses 38\ngates 4\nmax 4\nsteps 84\n",
        err: b"",
    },
    Row {
        words: "verilog LIB MAPPED",
        reads: &[("LIB", LIB), ("MAPPED", MAPPED)],
        status: 0,
        out: VER,
        err: b"",
    },
    Row {
        words: "unverilog LIB VER",
        reads: &[("LIB", LIB), ("VER", VER)],
        status: 0,
        out: b".model and3\n.inputs a b c\n.outputs f\n.gate nand3 a=a b=b c=c O=n1\n.gate inv a=n1 O=f\n.end\n",
        err: b"",
    },
    Row {
        words: "trade none LIB IN",
        reads: &[("LIB", LIB), ("IN", IN)],
        status: 0,
        out: b".model and3\n.inputs a b c\n.outputs f\n.gate nand3 a=a b=b c=c O=n1\n.gate inv a=n1 O=f\n.end\n",
        err: b"",
    },
    Row {
        words: "lut 4 IN",
        reads: &[("IN", IN)],
        status: 0,
        out: IN,
        err: b"",
    },
    Row {
        words: "map LIB NO",
        reads: &[("LIB", LIB), ("NO", b"")],
        status: 2,
        out: b"",
        err: b"lwmap: cannot read NO\n",
    },
    Row {
        words: "lut 4 LIB",
        reads: &[("LIB", LIB)],
        status: 3,
        out: b"",
        err: b"lwmap: LIB line 1: row outside a node\n",
    },
    Row {
        words: "big 0 2 IN",
        reads: &[("IN", IN)],
        status: 4,
        out: b"",
        err: b"lwmap: IN line 1: something else expected\n",
    },
    Row {
        words: "map NAND IN",
        reads: &[("NAND", NAND), ("IN", IN)],
        status: 6,
        out: b"",
        err: b"lwmap: no cover for output f\n",
    },
    Row {
        words: "check -w 2 LIB IN MAPPED",
        reads: &[("LIB", LIB), ("IN", IN), ("MAPPED", MAPPED)],
        status: 9,
        out: b"",
        err: b"lwmap: no: class 12 is not in the graph\n",
    },
    Row {
        words: "time NAND MAPPED",
        reads: &[("NAND", NAND), ("MAPPED", MAPPED)],
        status: 10,
        out: b"",
        err: b"lwmap: MAPPED line 4: no such cell\n",
    },
];

pub(crate) fn file(alloc: Global, name: &[u8], bytes: &[u8]) -> Result<File, AllocError>
    requires { 0 < length name.now }
    ensures { IfOk result (λ file. file.name ≡ name.now) }
{
    Ok(File {
        name: Name::from_slice(alloc, name)?,
        bytes: Bytes::new(Vec::from_slice(alloc, bytes)?),
    })
}

fn files(alloc: Global) -> Result<FileList, AllocError>
    ensures { IfOk result (λ files. names_of files ≡ codes "LIB" ∷ codes "NAND" ∷ codes "IN" ∷
        codes "MAPPED" ∷ codes "VECTORS" ∷ codes "VER" ∷ []) }
{
    let mut files = Vec::new(alloc);
    files.push(file(alloc, b"LIB", LIB)?)?;
    files.push(file(alloc, b"NAND", NAND)?)?;
    files.push(file(alloc, b"IN", IN)?)?;
    files.push(file(alloc, b"MAPPED", MAPPED)?)?;
    files.push(file(alloc, b"VECTORS", VECTORS)?)?;
    files.push(file(alloc, b"VER", VER)?)?;
    Ok(FileList::new(files))
}

fn shelf(alloc: Global, fails: u32, chunk: usize) -> Result<MemShelf, AllocError>
    requires { 1 ≤ chunk }
{
    let files = files(alloc)?;
    let fails = Numbers::new(Vec::from_slice(alloc, &[fails])?);
    Ok(MemShelf::new(files, fails, chunk))
}

pub(crate) fn words(alloc: Global, text: &str) -> Result<Vec<String>, AllocError> {
    let mut words = Vec::new(alloc);
    for word in text.split_whitespace() {
        words.push(String::from_str(alloc, word)?)?;
    }
    Ok(words)
}

// The row's words come to what it says, where these calls fail.
fn holds(rt: &impl Abort, alloc: Global, row: Row<'_>, faults: Faults) -> Result<(), AllocError> {
    let chunk = faults.chunk.max(1);
    let mut shelf = shelf(alloc, faults.shelf, chunk)?;
    let out_fails = Numbers::new(Vec::from_slice(alloc, &[faults.out])?);
    let err_fails = Numbers::new(Vec::from_slice(alloc, &[faults.err])?);
    let mut out = MemSink::new(alloc, out_fails, chunk, faults.room)?;
    let mut err = MemSink::new(alloc, err_fails, chunk, 2000)?;
    let status = run(
        alloc,
        &words(alloc, row.words)?,
        &mut shelf,
        &mut out,
        &mut err,
    );
    assert!(rt; status == row.status, "{}: {status}", row.words);
    assert!(rt; out.taken() == row.out, "{}", row.words);
    assert!(rt; err.taken() == row.err, "{}", row.words);
    Ok(())
}

// Each call of the shelf fails in turn. A file is opened, read in pieces, and read once more.
fn shelf_fails(rt: &impl Abort, alloc: Global, row: Row<'_>) -> Result<(), AllocError> {
    let mut shelf: u32 = 0;
    for (name, bytes) in row.reads {
        let err = format!(in alloc; "lwmap: cannot read {name}\n")?;
        let unread = Row {
            status: 2,
            out: b"",
            err: err.as_bytes(),
            ..row
        };
        for _ in 0..bytes.len().div_ceil(CHUNK).saturating_add(2) {
            shelf = shelf.saturating_add(1);
            holds(rt, alloc, unread, Faults { shelf, ..NONE })?;
        }
    }
    // (there is no further call)
    shelf = shelf.saturating_add(1);
    holds(rt, alloc, row, Faults { shelf, ..NONE })
}

// Each write of the answer fails in turn, and then the end of the stream.
fn out_fails(rt: &impl Abort, alloc: Global, row: Row<'_>) -> Result<(), AllocError> {
    let mut out: u32 = 0;
    for taken in 0..=row.out.len().div_ceil(CHUNK) {
        out = out.saturating_add(1);
        let taken = taken.saturating_mul(CHUNK);
        let cut = Row {
            status: 7,
            out: row.out.get(..taken).unwrap_or(row.out),
            err: b"lwmap: cannot write\n",
            ..row
        };
        holds(rt, alloc, cut, Faults { out, ..NONE })?;
    }
    // (there is no further call)
    out = out.saturating_add(1);
    holds(rt, alloc, row, Faults { out, ..NONE })
}

// Each write of the line of a refusal fails in turn, which changes no status.
fn err_fails(rt: &impl Abort, alloc: Global, row: Row<'_>) -> Result<(), AllocError> {
    let mut err: u32 = 0;
    for taken in 0..=row.err.len().div_ceil(CHUNK) {
        err = err.saturating_add(1);
        let taken = taken.saturating_mul(CHUNK);
        let cut = Row {
            err: row.err.get(..taken).unwrap_or(row.err),
            ..row
        };
        holds(rt, alloc, cut, Faults { err, ..NONE })?;
    }
    Ok(())
}

#[test]
fn calls_fail_in_turn(rt: HostRuntime) -> Result<(), Fail> {
    let alloc = rt.alloc();
    for row in ROWS {
        for chunk in [1, 2, 3, CHUNK] {
            holds(&rt, alloc, row, Faults { chunk, ..NONE })?;
        }
        shelf_fails(&rt, alloc, row)?;
        if row.status == 0 {
            out_fails(&rt, alloc, row)?;
        } else {
            err_fails(&rt, alloc, row)?;
        }
    }
    Ok(())
}

// A stream that takes 40 bytes has these, whatever a write takes, and then no more.
#[test]
fn a_full_stream_has_a_prefix(rt: HostRuntime) -> Result<(), Fail> {
    let row = Row {
        words: "map LIB IN",
        reads: &[],
        status: 7,
        out: b".model and3\n.inputs a b c\n.outputs f\n.ga",
        err: b"lwmap: cannot write\n",
    };
    for chunk in [1, 2, 3, CHUNK, 100] {
        let faults = Faults {
            chunk,
            room: 40,
            ..NONE
        };
        holds(&rt, rt.alloc(), row, faults)?;
    }
    Ok(())
}
