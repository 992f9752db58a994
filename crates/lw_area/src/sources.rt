// The files of a task.
ghost use Rattle.std.specs.Prelude.{◌≡◌, ◌++◌, [], ◌∷◌, ◌<◌, All, IfOk, OnOk, length, map};
ghost use Rattle.std.specs.Prelude.{slice_index_or, string_bytes};
ghost use Rattle.std.specs.List.{IsDistinct};
ghost use Rattle.std.specs.Str.{bytes_eq};
ghost use Rattle.lw_net.specs.Networks.{input_names};
ghost use Rattle.lw_area.specs.Plain.{plain_task};
ghost use Rattle.lw_area.specs.Sources.{AreOthersOf, IsFurtherTo, Reads, ReadsFurther, ReadsOne};
ghost use Rattle.lw_area.specs.Sources.{ReadsSources, items_of};

use crate::refusal::Refusal;
use crate::words::Task;
use lw_blif::Parsed;
use lw_files::{read_library, read_model};
use lw_genlib::Library;
use lw_io::Shelf;
use lw_joined::{Inputs, Other, Places};
use lw_net::Network;
use std::alloc::{AllocError, Global};

/// A further network, and the place of each of its inputs among those of the first.
#[derive(Drop)]
pub struct Further {
    pub network: Network,
    pub places: Vec<u32>,
}

/// A library, a network with what stands around it, and further networks over its inputs.
#[derive(Drop)]
pub struct Sources {
    pub library: Library,
    pub model: Parsed,
    pub further: Vec<Further>,
}

// Reads a further network, whose inputs are inputs of the first.
fn read_further<F: Shelf>(
    alloc: Global,
    shelf: &mut F,
    inputs: &Inputs,
    place: usize,
    name: &str,
) -> Result<Further, Refusal>
    ensures reads { Reads F.files F.faults shelf.old shelf.new
        (ReadsOne inputs.now place name.now) result }
    ensures fits { IfOk result (IsFurtherTo (length inputs.now)) }
{
    let model = match read_model(alloc, shelf, name) {
        Ok(model) => model,
        Err(fault) => return Err(Refusal::Further(place, fault)),
    };
    let _ = model.network.inputs();
    match inputs.places_of(alloc, &model.network)? {
        Places::At(places) => Ok(Further {
            network: model.network,
            places,
        }),
        Places::Strange(name) => {
            drop(model);
            Err(Refusal::Strange(place, name))
        }
    }
}

// Adds a network that was read.
fn put(further: &mut Vec<Further>, one: Further) -> Result<(), AllocError>
    ensures { OnOk result (further.new.items ≡ further.old.items ++ one ∷ []) }
{
    further.push(one)?;
    Ok(())
}

// The word at a place.
fn name_at(names: &[String], place: usize) -> &str
    requires { place < length names.now }
    ensures { result.now ≡ slice_index_or (map string_bytes names.now) place [] }
{
    names[place].as_str()
}

// Reads the further networks, in order.
fn read_all<F: Shelf>(
    alloc: Global,
    shelf: &mut F,
    network: &Network,
    names: &[String],
) -> Result<Vec<Further>, Refusal>
    requires { IsDistinct bytes_eq (input_names network.now) }
    ensures reads { Reads F.files F.faults shelf.old shelf.new
        (ReadsFurther (input_names network.now) 0 (map string_bytes names.now)) (items_of result) }
    ensures fit { IfOk result (λ further.
        All (IsFurtherTo network.now.inputs) further.items) }
{
    let _ = network.inputs();
    let inputs = Inputs::of(alloc, network)?;
    let mut further = Vec::new(alloc);
    'files: for place in 0..names.len() {
        let one = read_further(alloc, shelf, &inputs, place, name_at(names, place))?;
        put(&mut further, one)?;
    }
    Ok(further)
}

/// Reads the files of a task: the library, the network, and then the further networks.
pub(crate) fn read_sources<F: Shelf>(
    alloc: Global,
    task: Task<'_>,
    shelf: &mut F,
) -> Result<Sources, Refusal>
    ensures { ReadsSources F.files F.faults shelf.old shelf.new (plain_task task.entry) result }
{
    let library = match read_library(alloc, shelf, task.library) {
        Ok(library) => library,
        Err(fault) => return Err(Refusal::Library(fault)),
    };
    let model = match read_model(alloc, shelf, task.network) {
        Ok(model) => model,
        Err(fault) => {
            drop(library);
            return Err(Refusal::Network(fault));
        }
    };
    let _ = library.len();
    match read_all(alloc, shelf, &model.network, task.more) {
        Ok(further) => Ok(Sources {
            library,
            model,
            further,
        }),
        Err(refusal) => {
            drop(library);
            drop(model);
            Err(refusal)
        }
    }
}

/// The further networks over the inputs of the first.
pub(crate) fn others_of(alloc: Global, further: &[Further]) -> Result<Vec<Other<'_>>, AllocError>
    ensures { IfOk result (λ others. AreOthersOf further.now others.items) }
{
    let mut others = Vec::with_capacity(alloc, further.len())?;
    for one in further {
        others.push(Other {
            net: &one.network,
            places: &one.places,
        })?;
    }
    Ok(others)
}
