// The places of names among the signals.
ghost use Rattle.std.specs.Prelude.{◌≡◌, ◌+◌, ◌<◌, ◌≤◌, None, length, map, replicate, All, IfOk};
ghost use Rattle.std.specs.Prelude.{IfErr, MatchOption, OnOk};
ghost use Rattle.std.specs.List.{flat_map};
ghost use Rattle.lw_net.specs.Closing.{signals_of, fanins_of, number_in, undefined_in};
ghost use Rattle.lw_pool.specs.Numbers.{most_signals};
ghost use Rattle.lw_net.specs.Numbered.{TellsUndefined, numbered};
ghost use Rattle.lw_net.specs.Numbers.{draft_in, IsTable};
ghost use Rattle.lw_net.specs.Written.{name_at, names_in, place_at, ArePlaces};

use crate::NetFault;
use crate::written::Written;
use indexmap::IndexSet;
use lw_pool::{Name, Numbers};
use std::alloc::{AllocError, Global};

// No name has a place yet.
fn empty(alloc: Global, count: usize) -> Result<Vec<u32>, AllocError>
    ensures { IfOk result (λ places. places.items ≡ replicate count 0) }
{
    let mut places = Vec::with_capacity(alloc, count)?;
    for _made in 0..count {
        places.push(0)?;
    }
    Ok(places)
}

// The places of so many names among the signals.
pub(crate) fn places(alloc: Global, count: usize, signals: &[u32]) -> Result<Vec<u32>, AllocError>
    requires within { All (λ n. n < count) signals.now }
    requires few { length signals.now ≤ most_signals }
    ensures { IfOk result
        (λ places. ArePlaces count (length signals.now) signals.now places.items) }
{
    let mut places = empty(alloc, count)?;
    for i in 0..signals.len() {
        places[signals[i] as usize] = i as u32 + 1;
    }
    Ok(places)
}

// The place of a name, where it has one.
fn place_of(places: &[u32], name: u32) -> Option<u32>
    ensures { MatchOption result (place_at places.now name ≡ 0)
        (λ s. place_at places.now name ≡ s + 1) }
{
    places.get(name as usize)?.checked_sub(1)
}

// A copy of the name with a number.
pub(crate) fn copy_of(
    alloc: Global,
    names: &IndexSet<Name>,
    number: u32,
) -> Result<Name, AllocError>
    requires { number < length names.now.keys }
    ensures { IfOk result (λ name. name ≡ name_at names.now.keys number) }
{
    let list = names.as_slice();
    Name::from_slice(alloc, list[number as usize].as_bytes())
}

// The numbers of some names among the signals, or the first of them that is none.
pub(crate) fn row(
    alloc: Global,
    w: &Written,
    places: &[u32],
    list: &[u32],
) -> Result<Numbers, NetFault>
    requires table { IsTable w.now places.now }
    requires within { All (λ n. n < length w.now.names.keys) list.now }
    ensures ok { IfOk result (λ ns. ns
        ≡ map (number_in (signals_of (draft_in w.now))) (names_in w.now.names.keys list.now)) }
    ensures defined { OnOk result (undefined_in (signals_of (draft_in w.now))
        (names_in w.now.names.keys list.now) ≡ None) }
    ensures fault { IfErr result (TellsUndefined (signals_of (draft_in w.now))
        (names_in w.now.names.keys list.now)) }
{
    let Ok(mut numbers) = Vec::with_capacity(alloc, list.len()) else {
        return Err(NetFault::Memory);
    };
    for number in list {
        let Some(place) = place_of(places, *number) else {
            let name = copy_of(alloc, &w.names, *number)?;
            return Err(NetFault::Undefined(name));
        };
        let Ok(()) = numbers.push(place) else {
            return Err(NetFault::Memory);
        };
    }
    Ok(Numbers::new(numbers))
}

// The numbers of the fan-ins of each node, or the first fan-in that has none.
pub(crate) fn graph(alloc: Global, w: &Written, places: &[u32]) -> Result<Vec<Numbers>, NetFault>
    requires { IsTable w.now places.now }
    ensures ok { IfOk result (λ graph. graph.items
        ≡ numbered (signals_of (draft_in w.now)) (draft_in w.now).nodes) }
    ensures defined { OnOk result (undefined_in (signals_of (draft_in w.now))
        (flat_map fanins_of (draft_in w.now).nodes) ≡ None) }
    ensures fault { IfErr result (TellsUndefined (signals_of (draft_in w.now))
        (flat_map fanins_of (draft_in w.now).nodes)) }
{
    let nodes = w.nodes.as_slice();
    let Ok(mut graph) = Vec::with_capacity(alloc, nodes.len()) else {
        return Err(NetFault::Memory);
    };
    for node in nodes {
        let fanins = row(alloc, w, places, node.fanins.as_slice())?;
        let Ok(()) = graph.push(fanins) else {
            return Err(NetFault::Memory);
        };
    }
    Ok(graph)
}
