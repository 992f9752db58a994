// A network covered by lookup tables.
ghost use Rattle.std.specs.Prelude.{IfErr, IfOk};
ghost use Rattle.std.specs.List.{IsDistinct};
ghost use Rattle.std.specs.Str.{bytes_eq};
ghost use Rattle.lw_blif.specs.BlifNetworks.{IsModel};
ghost use Rattle.lw_net.specs.Networks.{output_names};
ghost use Rattle.lw_map.specs.Choices.{AreChoicesOf};
ghost use Rattle.lw_map.specs.Faults.{IsChoiceFault};
ghost use Rattle.lw_map.specs.Mapped.{IsWithinLimits};
ghost use Rattle.lw_map.specs.Options.{plain_options};
ghost use Rattle.lw_map.specs.Tabled.{AreLeaves, IsTabled};

use crate::covering::ports;
use crate::{Choices, MapFault, Options, decompose};
use lw_blif::Parsed;
use lw_lut::{TableNet, TablePorts, depths, tables};
use lw_net::Network;
use std::alloc::{AllocError, Global};

// The tables of least depth over the choices of a network, each with at most `leaves` fan-ins.
fn tabulate(
    alloc: Global,
    net: &Network,
    choices: &Choices,
    leaves: u8,
) -> Result<TableNet, AllocError>
    requires choices { AreChoicesOf net.now choices.now }
    requires outputs { IsDistinct bytes_eq (output_names net.now) }
    requires leaves { AreLeaves leaves }
    ensures { IfOk result (IsTabled (plain_options choices.now.options) leaves net.now) }
{
    let _ = net.inputs();
    let depths = depths(alloc, &choices.graph, leaves)?;
    let ports = ports(alloc, net, choices)?;
    let ports = TablePorts {
        model: ports.model,
        inputs: ports.inputs,
        outputs: ports.outputs,
        roots: ports.roots,
    };
    let tabled = tables(alloc, &choices.graph, &depths, leaves, &ports);
    drop(depths);
    drop(ports);
    let tabled = tabled?;
    tabled.keeps();
    Ok(tabled)
}

/// What a model comes to in lookup tables of at most `leaves` fan-ins: tables of least depth.
/// `Forms` and `Splits` come exactly where there are more than are dealt with.
pub fn lut(
    alloc: Global,
    model: &Parsed,
    options: Options,
    leaves: u8,
) -> Result<TableNet, MapFault>
    requires leaves { AreLeaves leaves }
    requires model { IsModel model.now }
    ensures within { IfOk result (λ _. IsWithinLimits (plain_options options) model.now.network) }
    ensures tables { IfOk result (IsTabled (plain_options options) leaves model.now.network) }
    ensures fault { IfErr result (IsChoiceFault (plain_options options) model.now.network) }
{
    let choices = decompose(alloc, &model.network, options)?;
    let net = tabulate(alloc, &model.network, &choices, leaves);
    drop(choices);
    Ok(net?)
}
