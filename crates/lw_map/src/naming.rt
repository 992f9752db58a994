// The names of a network's ports, and the output that is blamed by name.
ghost use Rattle.std.specs.Prelude.{◌≡◌, ◌<◌, ◌⊎◌, ℕ, IfOk, Some, length, slice_get};
ghost use Rattle.lw_pool.specs.declared.id.NetId.{NetId as Net};
ghost use Rattle.lw_net.specs.Networks.{name_in, input_names, output_names};

use crate::MapFault;
use lw_extract::ExtractFault;
use lw_net::Network;
use lw_pool::{Name, Names, NetId};
use std::alloc::{AllocError, Global};

// Copies of some names, in order.
fn copied(alloc: Global, names: &[Name]) -> Result<Names, AllocError>
    ensures { IfOk result (λ copies. copies ≡ names.now) }
{
    let mut copies = Vec::with_capacity(alloc, names.len())?;
    for name in names {
        copies.push(Name::from_slice(alloc, name.as_bytes())?)?;
    }
    Ok(Names::from_vec(copies))
}

/// The names of the inputs.
pub(crate) fn input_names(alloc: Global, net: &Network) -> Result<Names, AllocError>
    ensures { IfOk result (λ names. names ≡ input_names net.now) }
{
    let inputs = net.inputs() as usize;
    copied(alloc, &net.names()[..inputs])
}

// The name of a net.
fn name_of(alloc: Global, net: &Network, id: NetId) -> Result<Name, AllocError>
    requires { id.0 < length net.now.names }
    ensures { IfOk result (λ name. name ≡ name_in net.now id) }
{
    Name::from_slice(alloc, net.names()[id.0 as usize].as_bytes())
}

/// Why a network is not mapped, by the fault of its cover: the output that has none by its name, or
/// memory.
pub fn refused(alloc: Global, net: &Network, fault: ExtractFault) -> MapFault
    requires { (k : ℕ) → fault ≡ ExtractFault.NoCover k → k < length net.now.outputs }
    ensures named { (k : ℕ) (output : Net) → fault ≡ ExtractFault.NoCover k →
        slice_get net.now.outputs k ≡ Some output →
        (result ≡ MapFault.Memory) ⊎ (result ≡ MapFault.NoCover (name_in net.now output)) }
    ensures memory { fault ≡ ExtractFault.Memory → result ≡ MapFault.Memory }
{
    match fault {
        ExtractFault::NoCover(place) => match name_of(alloc, net, net.outputs()[place as usize]) {
            Ok(name) => MapFault::NoCover(name),
            Err(_) => MapFault::Memory,
        },
        ExtractFault::Memory => MapFault::Memory,
    }
}

/// The names of the outputs.
pub(crate) fn output_names(alloc: Global, net: &Network) -> Result<Names, AllocError>
    ensures { IfOk result (λ names. names ≡ output_names net.now) }
{
    let outputs = net.outputs();
    let mut names = Vec::with_capacity(alloc, outputs.len())?;
    for output in outputs {
        names.push(name_of(alloc, net, *output)?)?;
    }
    Ok(Names::from_vec(names))
}
