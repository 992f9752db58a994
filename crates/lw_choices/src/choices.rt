// The inputs and the matches that may stand at classes.
ghost use Rattle.std.specs.Prelude.{◌≡◌, ◌<◌, IfOk, OnOk, length, map};
ghost use Rattle.lw_cost.specs.Coming.{AreMatches};
ghost use Rattle.lw_cost.specs.Values.{plain_match};
ghost use Rattle.lw_choices.specs.PinUses.{bucket_count};
ghost use Rattle.lw_choices.specs.Rows.{AreAllChoices, AreInputsListed, AreMatchesListed};
ghost use Rattle.lw_choices.specs.Rows.{AreStoredListed, IsClassListed};

use crate::listed::{Listed, add_gate, none_listed};
use crate::rows::{Gate, Listing};
use lw_cost::Match;
use lw_cursor::Cursor;
use lw_genlib::Library;
use lw_graph::Graph;
use lw_pattern::Patterns;
use lw_pool::ClassId;
use lw_settle::{Store, StoreFault, store_matches};
use std::alloc::{AllocError, Global};

/// What may stand at the classes of a graph: the inputs, and then the matches, class by class. Of
/// matches that are alike, of one cell with as many pins of each class and delay, the last one is
/// listed. Where there are 2^32 of them or more, it says that memory is out.
pub fn list_choices(
    alloc: Global,
    graph: &Graph,
    pats: &Patterns,
    lib: &Library,
) -> Result<Listing, AllocError>
    ensures { IfOk result (AreAllChoices graph.now pats.now lib.now) }
{
    let mut rows = list_matches(alloc, graph, pats, lib)?;
    list_inputs(graph, &mut rows)?;
    if rows.len() >= 4_294_967_296 {
        return Err(AllocError);
    }
    rows.turn_round();
    Ok(rows)
}

// Appends the inputs at their classes, the last one first.
fn list_inputs(graph: &Graph, rows: &mut Listing) -> Result<(), AllocError>
    ensures { OnOk result (AreInputsListed graph.now rows.old rows.new) }
{
    let _ = graph.classes();
    let mut input = graph.inputs();
    while input > 0 {
        input -= 1;
        rows.push_input(graph.leaf(input), input)?;
    }
    Ok(())
}

// The matches at a class, which a search finds.
fn matches_at(
    alloc: Global,
    graph: &Graph,
    pats: &Patterns,
    class: ClassId,
) -> Result<Vec<Match>, AllocError>
    requires { class.0 < length graph.now.pairs }
    ensures { IfOk result (λ found. AreMatches graph.now pats.now class.0
        (map plain_match found.items)) }
{
    let _ = graph.classes();
    let mut list = Vec::new(alloc);
    let mut cursor = Cursor::new(class);
    while let Some(found) = cursor.next(graph, pats) {
        list.push(found)?;
    }
    Ok(list)
}

// Lists the matches at a class, which a search finds, the last one first.
fn list_class(
    alloc: Global,
    graph: &Graph,
    pats: &Patterns,
    class: ClassId,
    to: &mut Listed,
) -> Result<(), AllocError>
    requires class { class.0 < length graph.now.pairs }
    requires count { to.old.chains.count ≡ bucket_count }
    ensures { OnOk result (IsClassListed graph.now pats.now class.0 to.old to.new) }
{
    let mut list = matches_at(alloc, graph, pats, class)?;
    while let Some(found) = list.pop() {
        let cell = pats.get(found.pat).cell;
        add_gate(
            to,
            class,
            Gate {
                cell,
                pins: found.pins.as_slice(),
            },
        )?;
    }
    Ok(())
}

// Lists the matches of a store, the last one first.
fn list_stored(alloc: Global, store: &mut Store, lib: &Library) -> Result<Listing, AllocError>
    requires { store.old.done ≡ 0 }
    ensures { IfOk result (AreStoredListed store.old.lists lib.now) }
{
    let mut to = none_listed(alloc, lib)?;
    let mut place = store.matches();
    while place > 0 {
        place -= 1;
        let found = store.read(place);
        let gate = Gate {
            cell: found.cell,
            pins: found.pins.as_slice(),
        };
        add_gate(&mut to, found.class, gate)?;
    }
    Ok(to.rows)
}

// Lists the matches by a search at each class, where there are too many for a store.
fn list_sought(
    alloc: Global,
    graph: &Graph,
    pats: &Patterns,
    lib: &Library,
) -> Result<Listing, AllocError>
    ensures { IfOk result (AreMatchesListed graph.now pats.now lib.now) }
{
    let mut to = none_listed(alloc, lib)?;
    let mut class = graph.classes();
    while class > 0 {
        class -= 1;
        list_class(alloc, graph, pats, ClassId(class), &mut to)?;
    }
    Ok(to.rows)
}

// Lists the matches, by a store if that can hold them, the last one first.
fn list_matches(
    alloc: Global,
    graph: &Graph,
    pats: &Patterns,
    lib: &Library,
) -> Result<Listing, AllocError>
    ensures { IfOk result (AreMatchesListed graph.now pats.now lib.now) }
{
    match store_matches(alloc, graph, pats) {
        Ok(mut store) => list_stored(alloc, &mut store, lib),
        Err(StoreFault::TooMany) => list_sought(alloc, graph, pats, lib),
        Err(StoreFault::Memory) => Err(AllocError),
    }
}
