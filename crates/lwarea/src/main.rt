//! Maps a network to the cells of a library with little area.
#![tactic(auto)]

use lw_area::run;
use lw_system::{FileShelf, StdSink};
use std::process::ExitCode;
use std::{env, io};

fn words(rt: &HostRuntime) -> io::Result<Vec<String>> {
    let mut words = Vec::new(rt.alloc());
    for word in env::args(rt)?.skip(1) {
        words.push(word)?;
    }
    Ok(words)
}

fn main(rt: HostRuntime) -> ExitCode {
    let words = match words(&rt) {
        Ok(words) => words,
        Err(e) => {
            let out_of_memory = e.kind() == io::ErrorKind::OutOfMemory;
            return ExitCode::from(if out_of_memory { 8 } else { 70 });
        }
    };
    let mut shelf = FileShelf::new(&rt);
    let mut out = StdSink::new(rt.stdout());
    let mut err = StdSink::new(rt.stderr());
    ExitCode::from(run(rt.alloc(), &rt, &words, &mut shelf, &mut out, &mut err))
}
