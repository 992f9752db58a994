// The top call.
ghost use Rattle.std.specs.Prelude.{◌≡◌, ◌≤◌, ◌↔◌, List, Some, map, string_bytes, IsErr};
ghost use Rattle.lw_io.specs.declared.file.File.{File};
ghost use Rattle.lw_io.specs.Files.{bytes_of};
ghost use Rattle.lw_equal_top.specs.Words.{Comparison, request_of};
ghost use Rattle.lw_equal_top.specs.Promises.{AreEqualFiles, AsksToCompare, DifferAsWritten};
ghost use Rattle.lw_equal_top.specs.Promises.{IsTold};
ghost use Rattle.lw_equal_top.specs.Statuses.{answer_status, ending_status, file_status};
ghost use Rattle.lw_equal_top.specs.Statuses.{refusal_status};

use crate::fault::Refusal;
use crate::outcome::{Ending, serve};
use crate::telling::{tell_ending, tell_words};
use crate::words::request_of;
use lw_equal::Answer;
use lw_files::FileFault;
use lw_io::{Shelf, Sink};
use std::alloc::Global;

/// Does what the words ask for, and answers the exit status.
///
/// It reads the files that the words name, one after another and each once. The whole answer stands
/// before the first byte goes to `out`. Where there is no answer, and where counts are wanted, it
/// writes one line to `err`, whose faults change no status.
pub fn run<F: Shelf, O: Sink, E: Sink>(
    alloc: Global,
    words: &[String],
    shelf: &mut F,
    out: &mut O,
    err: &mut E,
) -> u8
    // At 0, over known files and where a comparison was asked for, the first two files say
    // networks, or netlists of the library's cells, that have the same inputs, outputs and latches,
    // and one value at each output and at whatever a latch reads, under every assignment of inputs
    // and latches' outputs. A control is compared where both latches of a name have one. Kinds and
    // initial values of latches are not compared, nor is a control that only one of both has.
    ensures equal { (files : List File) (c : Comparison) → F.files shelf.old ≡ Some files →
        AsksToCompare (map string_bytes words.now) c → result ≡ 0 →
        AreEqualFiles c (bytes_of files) }

    // At 1, over known files, both have the same inputs, outputs and latches, and the text that
    // went out names such a place, and an assignment under which the two have different values
    // there, each evaluated as it was read.
    ensures differ { (files : List File) → F.files shelf.old ≡ Some files → result ≡ 1 →
        DifferAsWritten (map string_bytes words.now) (bytes_of files) O.taken O.is_finished out.old
        out.new }

    // Words of no form are reported as such, whatever the files.
    ensures words { (result ≡ 11) ↔ IsErr (request_of (map string_bytes words.now)) }

    // What the status says is what happened: the answer, which is right, or a page went out; or the
    // stream failed, and a prefix of such a text went out; or there is the reason to refuse that
    // the line on `err` gives, and nothing went out. At 2 the answer names places, and at each
    // other place both have one value under every assignment.
    ensures told { IsTold (F.files shelf.old) (F.faults shelf.old) (F.faults shelf.new) O.taken
        O.is_finished O.faults out.old out.new E.taken E.faults err.old err.new
        (request_of (map string_bytes words.now)) result }

    // The files stay, and no count of faults falls.
    ensures files { F.files shelf.new ≡ F.files shelf.old }
    ensures read { F.faults shelf.old ≤ F.faults shelf.new }
    ensures written { O.faults out.old ≤ O.faults out.new }
    ensures said { E.faults err.old ≤ E.faults err.new }
{
    let request = match request_of(words) {
        Ok(request) => request,
        Err(fault) => {
            // Where `err` does not take the line, the status stays.
            let _ = tell_words(fault, err);
            return 11;
        }
    };
    let ending = serve(alloc, request, shelf, out);
    let _ = tell_ending(&request, &ending, err);
    status(&ending)
}

// The status of a file's fault: that of `lwmap`, but for 2, which is an answer here.
fn fault_status(fault: &FileFault) -> u8
    ensures { result ≡ file_status fault.now }
{
    match fault {
        FileFault::Unread => 12,
        fault => fault.status(),
    }
}

fn refusal_status(refusal: &Refusal) -> u8
    ensures { result ≡ refusal_status refusal.now }
{
    match refusal {
        Refusal::Library(fault) => fault_status(fault),
        Refusal::File(_, fault) => fault_status(fault),
        Refusal::Ports(_) => 9,
        Refusal::Memory => 8,
    }
}

fn answer_status(answer: &Answer) -> u8
    ensures { result ≡ answer_status answer.now }
{
    match answer {
        Answer::Equal => 0,
        Answer::Differ(_) => 1,
        Answer::Undecided(_) => 2,
    }
}

fn status(ending: &Ending) -> u8
    ensures { result ≡ ending_status ending.now }
{
    match ending {
        Ending::Told => 0,
        Ending::Answered(compared) => answer_status(&compared.outcome.answer),
        Ending::WriteFault => 7,
        Ending::Refused(refusal) => refusal_status(refusal),
    }
}
