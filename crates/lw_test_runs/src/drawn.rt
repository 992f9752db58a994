// A network that is drawn, written down, mapped with its certificate, read back and checked.
ghost use Rattle.std.specs.Prelude.{◌≡◌, [], ◌∷◌, codes, IfOk};
ghost use Rattle.lw_io.specs.Files.{names_of};

use crate::faults::{LIB, file, words};
use lw_big::generate;
use lw_io::{FileList, MemShelf, MemSink};
use lw_net::{Network, Node};
use lw_pool::{Name, NetId, Numbers};
use lw_top::run;
use std::alloc::{AllocError, Global};
use std::test::Fail;

fn put_name(text: &mut Vec<u8>, name: &Name) -> Result<(), AllocError> {
    text.push(b' ')?;
    text.extend_from_slice(name.as_bytes())?;
    Ok(())
}

fn put_nets(text: &mut Vec<u8>, names: &[Name], nets: &[NetId]) -> Result<(), AllocError> {
    for net in nets {
        if let Some(name) = names.get(net.0 as usize) {
            put_name(text, name)?;
        }
    }
    Ok(())
}

fn put_node(text: &mut Vec<u8>, names: &[Name], node: &Node) -> Result<(), AllocError> {
    text.extend_from_slice(b".names")?;
    put_nets(text, names, node.fanins.as_slice())?;
    put_nets(text, names, &[node.out])?;
    for row in node.rows.as_slice() {
        text.push(b'\n')?;
        text.extend_from_slice(row.as_slice())?;
        text.push(b' ')?;
        text.push(if node.on { b'1' } else { b'0' })?;
    }
    text.push(b'\n')?;
    Ok(())
}

// The text of a network in BLIF.
fn text_of(alloc: Global, net: &Network) -> Result<Vec<u8>, AllocError> {
    let names = net.names();
    let mut text = Vec::new(alloc);
    text.extend_from_slice(b".inputs")?;
    for name in names.get(..net.inputs() as usize).unwrap_or(names) {
        put_name(&mut text, name)?;
    }
    text.extend_from_slice(b"\n.outputs")?;
    put_nets(&mut text, names, net.outputs())?;
    text.push(b'\n')?;
    for node in net.nodes() {
        put_node(&mut text, names, node)?;
    }
    Ok(text)
}

fn files(alloc: Global, network: &[u8], mapped: &[u8]) -> Result<FileList, AllocError>
    ensures { IfOk result
        (λ files. names_of files ≡ codes "LIB" ∷ codes "IN" ∷ codes "MAPPED" ∷ []) }
{
    let mut files = Vec::new(alloc);
    files.push(file(alloc, b"LIB", LIB)?)?;
    files.push(file(alloc, b"IN", network)?)?;
    files.push(file(alloc, b"MAPPED", mapped)?)?;
    Ok(FileList::new(files))
}

fn shelf(alloc: Global, network: &[u8], mapped: &[u8]) -> Result<MemShelf, AllocError> {
    let files = files(alloc, network, mapped)?;
    Ok(MemShelf::new(files, Numbers::new(Vec::new(alloc)), 4096))
}

// The status of a command over these files, and what it writes to out.
fn answer(
    alloc: Global,
    text: &str,
    network: &[u8],
    mapped: &[u8],
) -> Result<(u8, Vec<u8>), AllocError> {
    let mut shelf = shelf(alloc, network, mapped)?;
    let mut out = MemSink::new(alloc, Numbers::new(Vec::new(alloc)), 4096, 1_000_000)?;
    let mut err = MemSink::new(alloc, Numbers::new(Vec::new(alloc)), 4096, 2000)?;
    let words = words(alloc, text)?;
    let status = run(alloc, &words, &mut shelf, &mut out, &mut err);
    Ok((status, Vec::from_slice(alloc, out.taken())?))
}

#[test]
fn a_drawn_network_is_mapped_and_checked(rt: HostRuntime) -> Result<(), Fail> {
    let alloc = rt.alloc();
    let net = generate(alloc, 1, 300)?;
    let network = text_of(alloc, &net)?;
    drop(net);
    let (status, mapped) = answer(alloc, "map -c LIB IN", &network, b"")?;
    assert_eq!(rt; status, 0);
    let (status, verdict) = answer(alloc, "check LIB IN MAPPED", &network, &mapped)?;
    assert_eq!(rt; status, 0);
    assert_eq!(rt; verdict.as_slice(), b"yes\n".as_slice());
    Ok(())
}
