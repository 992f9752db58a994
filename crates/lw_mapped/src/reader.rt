// Reads a mapped text line by line.
ghost use Rattle.std.specs.Prelude.{◌≡◌, ◌++◌, [], ◌∷◌, List, Err, IfOk, IfSome};
ghost use Rattle.lw_mapped.specs.Standing.{fault_of, stop_at};

use crate::closing::Mapped;
use crate::command::{Command, command_of};
use crate::parts::Parts;
use crate::{MappedFault, MappedKind, Refusal};
use lw_blif_text::Stop;
use lw_genlib::Library;
use lw_words::Line;
use std::alloc::Global;

// What a reader that stopped answers from then on.
fn fault_of(stop: Stop<MappedKind>) -> MappedFault
    ensures { result ≡ fault_of stop }
{
    match stop {
        Stop::Broken(number, kind) => MappedFault::Line(number, kind),
        Stop::Memory => MappedFault::Memory,
    }
}

// A reader stops at the line with this number.
fn stop_at(number: u32, refusal: Refusal) -> Stop<MappedKind>
    ensures { result ≡ stop_at number refusal }
{
    match refusal {
        Refusal::Broken(kind) => Stop::Broken(number, kind),
        Refusal::Memory => Stop::Memory,
    }
}

impl Command {
    ghost use Rattle.lw_mapped.specs.LineFaults.{ends};

    // Whether the command ends the reading.
    fn ends(self, first: bool) -> bool
        ensures { result ≡ ends first self }
    {
        match self {
            Command::End => true,
            Command::Model => !first,
            _ => false,
        }
    }
}

/// Reads a mapped text line by line. After an error it answers the same to each later line, and
/// changes nothing more.
#[derive(Drop)]
pub struct MappedReader {
    begun: bool,
    ended: bool,
    stop: Option<Stop<MappedKind>>,
    parts: Parts,
}

impl MappedReader {
    ghost use Rattle.lw_words.specs.Lines.{LogicalLine};
    ghost use Rattle.lw_genlib.specs.Cells.{CellParts};
    ghost use Rattle.lw_mapped.specs.LineFaults.{first_fault, lines_read};
    ghost use Rattle.lw_mapped.specs.Unmapped.{IsUnmapped};
    ghost use Rattle.lw_mapped.specs.Standing.{StandsFor, IsGivenFew, Tells, StaysStopped, stop_of};
    ghost use Rattle.lw_mapped.specs.Closings.{IsReadOver, HasFewGates};

    /// A reader of a mapped netlist, before its first line.
    pub fn new(alloc: Global) -> Self
        ensures { (cells : List CellParts) → StandsFor result cells [] }
    {
        MappedReader {
            begun: false,
            ended: false,
            stop: None,
            parts: Parts::new(alloc),
        }
    }

    /// Reads a line. The answer is the first line that breaks a rule, and the first rule that it
    /// breaks; it is then that of each later line and of the end.
    pub fn line(&mut self, line: &Line, lib: &Library) -> Result<(), MappedFault>
        ensures stands { (lines : List LogicalLine) → StandsFor self.old lib.now lines →
            StandsFor self.new lib.now (lines ++ line.now ∷ []) }
        ensures answer { (lines : List LogicalLine) → StandsFor self.old lib.now lines →
            Tells result (first_fault lib.now [] (lines_read (lines ++ line.now ∷ []))) }
        ensures stays { StaysStopped self.old self.new result }
    {
        if let Some(stop) = self.stop {
            return Err(fault_of(stop));
        }
        if self.ended {
            return Ok(());
        }
        let first = !self.begun;
        self.begun = true;
        let asked = command_of(line.words.get(0));
        if asked.ends(first) {
            self.ended = true;
            return Ok(());
        }
        match self.parts.read(line, asked, lib) {
            Ok(()) => Ok(()),
            Err(refusal) => {
                let stop = stop_at(line.number, refusal);
                self.stop = Some(stop);
                Err(fault_of(stop))
            }
        }
    }

    /// The text ends. The answer is its netlist with its frame, its starts and its certificate, or
    /// the first line that breaks a rule with the first rule that it breaks, or else the fault of
    /// the netlist as a whole.
    pub fn end(self, lib: &Library) -> Result<Mapped, MappedFault>
        requires { IsGivenFew self lib.now }
        ensures answer { (lines : List LogicalLine) → StandsFor self lib.now lines →
            IsUnmapped lib.now lines result }
        ensures again { IfSome (stop_of self) (λ stop. result ≡ Err (fault_of stop)) }
        ensures kept { IfOk result (IsReadOver lib.now) }
        ensures few { (lines : List LogicalLine) → StandsFor self lib.now lines →
            IfOk result (HasFewGates lines) }
    {
        let MappedReader { stop, parts, .. } = self;
        let Parts {
            alloc,
            wire,
            contents,
        } = parts;
        if let Some(stop) = stop {
            drop(contents);
            return Err(fault_of(stop));
        }
        if let Some(number) = wire {
            drop(contents);
            return Err(MappedFault::Line(number, MappedKind::Shape));
        }
        let _count = lib.len();
        contents.close(alloc, lib)
    }
}
