// A network mapped to the cells of a library with the least times.
ghost use Rattle.std.specs.Prelude.{IfErr, IfOk};
ghost use Rattle.lw_blif.specs.BlifNetworks.{IsModel};
ghost use Rattle.lw_map.specs.Certified.{IsCertificateFor, IsCertified};
ghost use Rattle.lw_map.specs.Faults.{IsMapFault};
ghost use Rattle.lw_map.specs.Options.{plain_options};

use crate::labelling::Labeller;
use crate::{MapFault, Mapping, Options, certificate, cover, decompose};
use lw_blif::Parsed;
use lw_genlib::Library;
use lw_mapped::Certificate;
use lw_netlist::Netlist;
use std::alloc::{AllocError, Global};

/// The netlist that a network is mapped to, with its certificate where it was asked for.
#[derive(Drop)]
pub struct CertifiedNetlist {
    pub netlist: Netlist,
    pub certificate: Option<Certificate>,
}

// The certificate of a mapping, where it is asked for.
fn certificate_of(
    alloc: Global,
    mapping: &Mapping,
    certified: bool,
) -> Result<Option<Certificate>, AllocError>
    ensures { IfOk result (IsCertificateFor mapping.now certified) }
{
    if !certified {
        return Ok(None);
    }
    Ok(Some(certificate(alloc, &mapping.labels, &mapping.classes)?))
}

/// What a library and a model come to: the netlist in which each output has its least time, with
/// its certificate where it is asked for. `NoCover` tells the first output that has no cover, and
/// comes exactly where there is one. `Forms` and `Splits` come exactly where there are more than
/// are dealt with.
pub fn map(
    alloc: Global,
    lib: &Library,
    model: &Parsed,
    options: Options,
    certified: bool,
) -> Result<CertifiedNetlist, MapFault>
    requires { IsModel model.now }
    ensures certified { IfOk result (IsCertified (plain_options options) certified lib.now
        model.now) }
    ensures fault { IfErr result (IsMapFault (plain_options options) lib.now model.now.network
        model.now.starts) }
{
    let network = &model.network;
    let starts = &model.starts;
    let choices = decompose(alloc, network, options)?;
    let mapping = cover(alloc, lib, network, starts, &choices, Labeller::Rounds);
    drop(choices);
    let mapping = mapping?;
    let Ok(certificate) = certificate_of(alloc, &mapping, certified) else {
        drop(mapping);
        return Err(MapFault::Memory);
    };
    Ok(CertifiedNetlist {
        netlist: mapping.netlist,
        certificate,
    })
}
