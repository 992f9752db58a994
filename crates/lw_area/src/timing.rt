// How long parts of a run take. Nothing is promised of it.
use std::time::{Clock, Instant};

/// When a part of a run began, if the clock told.
#[derive(Clone, Copy)]
pub(crate) struct Began(Option<Instant>);

impl Began {
    /// Now.
    pub(crate) fn now<C: Clock>(clock: &C) -> Self {
        Began(Instant::now(clock).ok())
    }

    /// How many milliseconds it is ago.
    pub(crate) fn millis<C: Clock>(self, clock: &C) -> u128 {
        let Some(began) = self.0 else {
            return 0;
        };
        match began.elapsed(clock) {
            Ok(time) => time.as_millis(),
            Err(_) => 0,
        }
    }
}

/// How many milliseconds parts of a run took: to read the files, to list and link the forms of all
/// networks, and to find the netlist.
#[derive(Clone, Copy)]
pub struct Times {
    pub read: u128,
    pub joined: u128,
    pub mapped: u128,
}
