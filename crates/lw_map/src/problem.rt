// What a mapping is found from.
ghost use Rattle.std.specs.Prelude.{All, IfOk};
ghost use Rattle.std.specs.List.{IsDistinct};
ghost use Rattle.std.specs.Str.{bytes_eq};
ghost use Rattle.lw_genlib.specs.Cells.{IsSmall};
ghost use Rattle.lw_net.specs.Networks.{output_names};
ghost use Rattle.lw_map.specs.Choices.{AreChoicesOf};
ghost use Rattle.lw_map.specs.Problems.{IsProblemOf};

use crate::Choices;
use lw_fixed::Micros;
use lw_genlib::Library;
use lw_net::Network;
use lw_pattern::{Patterns, patterns};
use std::alloc::{AllocError, Global};

/// The choices of a network, the cells that they are covered by with their patterns, when the
/// inputs start, and where memory is taken from.
#[derive(Drop)]
pub(crate) struct Problem<'a> {
    pub alloc: Global,
    pub lib: &'a Library,
    pub net: &'a Network,
    pub starts: &'a Micros,
    pub choices: &'a Choices,
    pub pats: Patterns,
}

impl<'a> Problem<'a> {
    /// The choices of this network, to be covered by the cells of this library.
    pub fn new(
        alloc: Global,
        lib: &'a Library,
        net: &'a Network,
        starts: &'a Micros,
        choices: &'a Choices,
    ) -> Result<Self, AllocError>
        requires choices { AreChoicesOf net.now choices.now }
        requires outputs { IsDistinct bytes_eq (output_names net.now) }
        requires early { All IsSmall starts.now }
        ensures { IfOk result (IsProblemOf lib.now net.now starts.now choices.now) }
    {
        let _ = (lib.len(), net.inputs());
        let pats = patterns(alloc, lib)?;
        Ok(Problem {
            alloc,
            lib,
            net,
            starts,
            choices,
            pats,
        })
    }
}
