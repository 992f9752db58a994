use crate::Words;
use std::marker::Model;

/// A logical line.
#[derive(Drop)]
pub struct Line {
    /// The number of its first physical line, from 1.
    pub number: u32,
    /// Some word had more than 4,095 bytes.
    pub long: bool,
    /// Its words, one or more: no word holds a blank or a line feed, and none but a first word `#@`
    /// holds `#`.
    pub words: Words,
}

impl Model for Line {
    ghost use Rattle.lw_words.specs.Lines.{LogicalLine};
    ghost use Rattle.lw_words.specs.Gathering.{IsLine};

    ghost Value = { LogicalLine };

    ghost view = { λ l. record { number = l.number; long = l.long; words = l.words } };

    ghost invariant = { λ l. IsLine l.words };
}
