// Signals that a line defines, and the node that it begins.
ghost use Rattle.std.specs.Prelude.{◌≡◌, ◌++◌, [], ◌∷◌, take, drop, option_to_list, Some, IfOk};
ghost use Rattle.std.specs.Prelude.{OnOk};
ghost use Rattle.indexmap.specs.IndexSet.{insert_all};
ghost use Rattle.std.specs.Str.{bytes_eq};
ghost use Rattle.lw_blif.specs.Readers.{AreDefined, node_begun};
ghost use Rattle.lw_blif.specs.LineFaults.{last_word};
ghost use Rattle.lw_blif.specs.Drafts.{latch_of};

use crate::lengths::{LatchLine, LongLine};
use crate::naming::{last_word, names_between};
use indexmap::IndexSet;
use lw_net::{Cubes, DraftNode};
use lw_pool::{Latch, Latches, Name, Names};
use lw_words::Words;
use std::alloc::{AllocError, Global};

/// Defines the words from a place on, up to the first that is defined already. Whether all were
/// new.
pub fn define_all(
    alloc: Global,
    defined: &mut IndexSet<Name>,
    words: &Words,
    from: usize,
) -> Result<bool, AllocError>
    ensures { IfOk result (AreDefined defined.old.keys (drop from words.now) defined.new.keys) }
{
    for i in from..words.len() {
        let name = Name::from_slice(alloc, words.get(i))?;
        if !defined.insert(name)? {
            return Ok(false);
        }
    }
    Ok(true)
}

/// Defines a name. Whether it was new.
pub fn define_one(defined: &mut IndexSet<Name>, name: Name) -> Result<bool, AllocError>
    ensures { IfOk result (AreDefined defined.old.keys (name ∷ []) defined.new.keys) }
{
    let is_new = defined.insert(name)?;
    Ok(is_new)
}

/// Appends the words from a place on.
pub fn append_all(
    alloc: Global,
    names: &mut Names,
    words: &Words,
    from: usize,
) -> Result<(), AllocError>
    ensures { OnOk result (names.new ≡ names.old ++ drop from words.now) }
{
    for i in from..words.len() {
        names.push(Name::from_slice(alloc, words.get(i))?)?;
    }
    Ok(())
}

/// The second word, where there is no name yet.
pub fn name_or_second(
    alloc: Global,
    name: Option<Name>,
    line: &LongLine,
) -> Result<Option<Name>, AllocError>
    ensures { IfOk result (λ n. option_to_list n
        ≡ take 1 (option_to_list name ++ drop 1 line.now.words.now)) }
{
    match name {
        Some(name) => Ok(Some(name)),
        None => Ok(Some(Name::from_slice(alloc, line.words.get(1))?)),
    }
}

/// Adds the words from a place on that are not there.
pub fn add_all(
    alloc: Global,
    names: &mut IndexSet<Name>,
    words: &Words,
    from: usize,
) -> Result<(), AllocError>
    ensures { OnOk result (names.new.keys
        ≡ insert_all bytes_eq names.old.keys (drop from words.now)) }
{
    for i in from..words.len() {
        let name = Name::from_slice(alloc, words.get(i))?;
        names.insert(name)?;
    }
    Ok(())
}

// The node of a line, before its rows.
fn new_node(alloc: Global, line: &LongLine) -> Result<DraftNode, AllocError>
    ensures { IfOk result (λ node. node ≡ node_begun line.now.words.now) }
{
    let words = line.words;
    let out = Name::from_slice(alloc, last_word(words))?;
    let fanins = names_between(alloc, words, 1, words.len() - 1)?;
    Ok(DraftNode {
        out,
        fanins,
        rows: Cubes::new(alloc),
        on: true,
    })
}

// The latch of a line.
fn new_latch(alloc: Global, line: &LatchLine) -> Result<Latch, AllocError>
    ensures { IfOk result (λ latch. latch_of (drop 1 line.now.words.now) ≡ latch ∷ []) }
{
    let words = line.words;
    let input = Name::from_slice(alloc, words.get(1))?;
    let output = Name::from_slice(alloc, words.get(2))?;
    let rest = names_between(alloc, words, 3, words.len())?;
    Ok(Latch {
        input,
        output,
        rest,
    })
}

/// Puts the node of a line in the place of one before.
pub fn begin_node(
    alloc: Global,
    node: &mut Option<DraftNode>,
    line: &LongLine,
) -> Result<(), AllocError>
    ensures { OnOk result (node.new ≡ Some (node_begun line.now.words.now)) }
{
    let begun = new_node(alloc, line)?;
    drop(node.replace(begun));
    Ok(())
}

/// Adds the latch of a line.
pub fn add_latch(alloc: Global, latches: &mut Latches, line: &LatchLine) -> Result<(), AllocError>
    ensures { OnOk result (latches.new ≡ latches.old ++ latch_of (drop 1 line.now.words.now)) }
{
    latches.push(new_latch(alloc, line)?)?;
    Ok(())
}
