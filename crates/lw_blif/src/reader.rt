// Reads a network's text line by line.
ghost use Rattle.std.specs.Prelude.{◌≡◌, ◌++◌, [], ◌∷◌, List, Err, IfOk, IfSome, IsSome, Some};
ghost use Rattle.lw_blif.specs.Given.{IsKeptOfSome};

use crate::command::command_of;
use crate::naming::first_word;
use crate::parts::Parts;
use crate::{BlifFault, BlifKind, Command, Parsed};
use lw_blif_text::Stop;
use lw_words::Line;
use std::alloc::Global;

impl Command {
    ghost use Rattle.lw_blif.specs.LineFaults.{ends};

    // Whether the command ends the reading.
    fn ends(self, first: bool) -> bool
        ensures { result ≡ ends first self }
    {
        match self {
            Command::End => true,
            Command::Model => !first,
            _ => false,
        }
    }
}

/// Reads a network's text line by line. After an error it answers the same to each later line, and
/// changes nothing more.
#[derive(Drop)]
pub struct Reader {
    begun: bool,
    ended: bool,
    stop: Option<Stop<BlifKind>>,
    parts: Parts,
    ghost kept: { ∥ IsKeptOfSome begun ended stop parts ∥₁ },
}

impl Reader {
    ghost use Rattle.lw_words.specs.Lines.{LogicalLine};
    ghost use Rattle.lw_blif.specs.LineFaults.{first_fault, lines_read};
    ghost use Rattle.lw_blif.specs.BlifNetworks.{IsBlifNetwork, IsModel};
    ghost use Rattle.lw_blif.specs.Standing.{StandsFor, Tells, Stopped, fault_of, stop_of};
    ghost use Rattle.lw_net.specs.Plain.{HasRisingDepths};

    // What a reader that stopped answers from then on.
    fn fault_of(stop: Stop<BlifKind>) -> BlifFault
        ensures { result ≡ fault_of stop }
    {
        match stop {
            Stop::Broken(number, kind) => BlifFault::Line(number, kind),
            Stop::Memory => BlifFault::Memory,
        }
    }

    /// A reader of a model, before its first line.
    pub fn new(alloc: Global) -> Self
        ensures { StandsFor result [] }
    {
        Reader {
            begun: false,
            ended: false,
            stop: None,
            parts: Parts::new(alloc),
        }
    }

    /// Reads a line. The answer is the first line that breaks a rule, and the first rule that it
    /// breaks; it is then that of each later line and of the end.
    pub fn line(&mut self, line: &Line) -> Result<(), BlifFault>
        ensures stands { (lines : List LogicalLine) → StandsFor self.old lines →
            StandsFor self.new (lines ++ line.now ∷ []) }
        ensures answer { (lines : List LogicalLine) → StandsFor self.old lines →
            Tells result (first_fault [] (lines_read (lines ++ line.now ∷ []))) }
        ensures stopped { Stopped result (stop_of self.new) }
        ensures again { IfSome (stop_of self.old) (λ stop. result ≡ Err (fault_of stop)) }
        ensures unchanged { IsSome (stop_of self.old) → self.new ≡ self.old }
    {
        if let Some(stop) = self.stop {
            return Err(Self::fault_of(stop));
        }
        if self.ended {
            return Ok(());
        }
        let first = !self.begun;
        self.begun = true;
        let asked = command_of(first_word(line));
        if asked.ends(first) {
            self.ended = true;
            return Ok(());
        }
        match self.parts.read(line, asked) {
            Ok(None) => Ok(()),
            Ok(Some(kind)) => {
                self.stop = Some(Stop::Broken(line.number, kind));
                Err(BlifFault::Line(line.number, kind))
            }
            Err(_) => {
                self.stop = Some(Stop::Memory);
                Err(BlifFault::Memory)
            }
        }
    }

    /// The text ends. The answer is its model, or the first line that breaks a rule with the first
    /// rule that it breaks, or else the fault of the network as a whole.
    pub fn end(self) -> Result<Parsed, BlifFault>
        ensures answer { (lines : List LogicalLine) → StandsFor self lines →
            IsBlifNetwork lines result }
        ensures again { IfSome (stop_of self) (λ stop. result ≡ Err (fault_of stop)) }
        ensures model { IfOk result IsModel }
        ensures depths { IfOk result (λ model. HasRisingDepths model.network) }
    {
        let Reader { stop, parts, .. } = self;
        if let Some(stop) = stop {
            drop(parts);
            return Err(Self::fault_of(stop));
        }
        parts.close()
    }
}
