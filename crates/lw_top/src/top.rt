// The top call.
ghost use Rattle.std.specs.Prelude.{◌≡◌, ◌≢◌, ◌≤◌, ◌⊎◌, ◌↔◌, ℕ, Some, None, List, map};
ghost use Rattle.std.specs.Prelude.{string_bytes, Result, Ok};
ghost use Rattle.lw_io.specs.declared.file.File.{File};
ghost use Rattle.lw_io.specs.Causes.{Rose};
ghost use Rattle.lw_io.specs.Files.{bytes_of};
ghost use Rattle.lw_files.specs.declared.fault.FileFault.{FileFault};
ghost use Rattle.lw_top.specs.declared.refusal.Which.{Which};
ghost use Rattle.lw_top.specs.Words.{Command, command_of};
ghost use Rattle.lw_top.specs.Answers.{IsAnswer, IsFileOf, IsReached, status_in, status_of};
ghost use Rattle.lw_files.specs.Reading.{Known};
ghost use Rattle.lw_top.specs.Mappings.{AsksForMapping, AsksForCheck, AsksForTables, IsMappingText};
ghost use Rattle.lw_top.specs.Mappings.{LacksOutput, IsCheckedMapping};
ghost use Rattle.lw_top.specs.Tabled.{AreTables};
ghost use Rattle.lw_top.specs.Traded.{AsksForTrade, IsTrade, LacksTradedOutput};
ghost use Rattle.lw_top.specs.Translated.{AsksForVerilog, AsksForMapped, IsVerilogText};
ghost use Rattle.lw_top.specs.Translated.{LacksVerilog, IsTextOfVerilog};
ghost use Rattle.lw_verilog.specs.declared.reason.NoVerilog.{NoVerilog};
ghost use Rattle.lw_top.specs.Outcome.{IsDone, IsCutShort, Meets, outcome_status};
ghost use Rattle.lw_top.specs.Telling.{Told, outcome_line, refusal_line};
ghost use Rattle.lw_top.specs.Complete.{IsComplete};
ghost use Rattle.lw_top.specs.declared.outcome.Outcome.{Outcome};
ghost use Rattle.lw_top.specs.declared.refusal.Refusal.{Refusal};

use crate::laws::answers_are_tables;
use crate::outcome::{Outcome, serve};
use crate::refusal::Refusal;
use crate::telling::tell;
use crate::words::command_of;
use lw_io::{Shelf, Sink};
use std::alloc::Global;

/// Does what the words ask for, and answers the exit status.
///
/// It reads the files that the words name, one after another and each once. The whole answer stands
/// before the first byte goes to `out`. At a status other than 0 it writes one line to `err`, whose
/// faults change no status.
pub fn run<F: Shelf, O: Sink, E: Sink>(
    alloc: Global,
    words: &Vec<String>,
    shelf: &mut F,
    out: &mut O,
    err: &mut E,
) -> u8
    // Nothing goes out before the whole answer stands.
    ensures untouched { result ≢ 0 → result ≢ 7 → out.new ≡ out.old }

    // At 0 the whole text went out: over known files it is the answer's.
    ensures done { result ≡ 0 → ((text : List ℕ) ×
        Known (F.files shelf.old) (IsAnswer (map string_bytes words.now.items)) (Ok text)
        × IsDone O.taken O.is_finished out.old out.new text) }

    // At 0, over known files and where a mapping was asked for, that text is of a netlist of the
    // library's cells, with the latches of the network's text. It gives each root, which is an
    // output or what a latch reads, the network's value for all values of the inputs and of the
    // latches' outputs. Each root arrives, counted from the inputs' arrivals, at the least time of
    // all covers of all trees that the command's rules derive for it.
    ensures mapping { (files : List File) → F.files shelf.old ≡ Some files →
        AsksForMapping (map string_bytes words.now.items) → result ≡ 0
        → ((text : List ℕ) × IsMappingText (map string_bytes words.now.items) (bytes_of files) text
        × IsDone O.taken O.is_finished out.old out.new text) }

    // At 6, over known files and where a mapping was asked for, no tree that the command's rules
    // derive for the root whose name is reported has a cover.
    ensures no_cover { (files : List File) → F.files shelf.old ≡ Some files →
        AsksForMapping (map string_bytes words.now.items) → result ≡ 6
        → ((name : List ℕ) × LacksOutput (map string_bytes words.now.items) (bytes_of files) name
        × Told E.taken E.faults err.old err.new
        (refusal_line (command_of (map string_bytes words.now.items)) (Refusal.NoCover name))) }

    // At 0, over known files and where a check was asked for, the mapped netlist is such a mapping
    // of the network, whoever wrote it.
    ensures checked { (files : List File) → F.files shelf.old ≡ Some files →
        AsksForCheck (map string_bytes words.now.items) → result ≡ 0
        → IsCheckedMapping (map string_bytes words.now.items) (bytes_of files) }

    // At 0, over known files and where lookup tables were asked for, that text is BLIF: a network
    // with the latches of the network's text, whose nodes have no more fan-ins than were asked for.
    // It gives each root the network's value under every assignment. Each root is as deep, wires
    // not counted, as the shallowest of all covers by tables of all trees that the command's rules
    // derive for it.
    ensures tables { (files : List File) → F.files shelf.old ≡ Some files →
        AsksForTables (map string_bytes words.now.items) → result ≡ 0
        → ((text : List ℕ) × AreTables (map string_bytes words.now.items) (bytes_of files) text
        × IsDone O.taken O.is_finished out.old out.new text) }

    // At 0, over known files and where the least area by a deadline was asked for, that text is of
    // a netlist of the library's cells, with the latches of the network's text. It gives each root
    // the network's value under every assignment. Each root arrives by the deadline, or at its
    // least time where that is later. It has the least area, in which each use of a shared part
    // counts, of all covers in time of all trees that the command's rules derive for it.
    ensures trading { (files : List File) → F.files shelf.old ≡ Some files →
        AsksForTrade (map string_bytes words.now.items) → result ≡ 0
        → ((text : List ℕ) × IsTrade (map string_bytes words.now.items) (bytes_of files) text
        × IsDone O.taken O.is_finished out.old out.new text) }

    // At 6, over known files and where it was asked for, the root whose name is reported has no
    // cover.
    ensures no_trade { (files : List File) → F.files shelf.old ≡ Some files →
        AsksForTrade (map string_bytes words.now.items) → result ≡ 6
        → ((name : List ℕ) × LacksTradedOutput (map string_bytes words.now.items)
        (bytes_of files) name × Told E.taken E.faults err.old err.new
        (refusal_line (command_of (map string_bytes words.now.items)) (Refusal.NoCover name))) }

    // At 0, over known files and where a mapped netlist was asked for in Verilog, that text is the
    // netlist's, which none of the tests refuses.
    ensures verilog { (files : List File) → F.files shelf.old ≡ Some files →
        AsksForVerilog (map string_bytes words.now.items) → result ≡ 0
        → ((text : List ℕ) × IsVerilogText (map string_bytes words.now.items) (bytes_of files) text
        × IsDone O.taken O.is_finished out.old out.new text) }

    // At 11, over known files and where it was asked for, the first test that the netlist fails is
    // reported.
    ensures no_verilog { (files : List File) → F.files shelf.old ≡ Some files →
        AsksForVerilog (map string_bytes words.now.items) → result ≡ 11
        → ((why : NoVerilog) × LacksVerilog (map string_bytes words.now.items) (bytes_of files) why
        × Told E.taken E.faults err.old err.new
        (refusal_line (command_of (map string_bytes words.now.items)) (Refusal.NoVerilog why))) }

    // At 0, over known files and where a netlist in Verilog was asked for as a mapped text, that
    // text is the netlist's, without latches, arrivals and certificate.
    ensures unverilog { (files : List File) → F.files shelf.old ≡ Some files →
        AsksForMapped (map string_bytes words.now.items) → result ≡ 0
        → ((text : List ℕ) × IsTextOfVerilog (map string_bytes words.now.items) (bytes_of files)
        text × IsDone O.taken O.is_finished out.old out.new text) }

    // At 7 the stream failed, and a prefix of the text that 0 would have written went out.
    ensures cut_short { result ≡ 7 →
        ((text : List ℕ) × Known (F.files shelf.old) (IsAnswer (map string_bytes words.now.items))
        (Ok text)
        × IsCutShort O.taken O.faults out.old out.new text) }

    // A file was not read because the shelf failed, or because known files lack it.
    ensures unread { result ≡ 2 → (Rose (F.faults shelf.old) (F.faults shelf.new)
        ⊎ ((files : List File) × (a : Result (List ℕ) Refusal) × (F.files shelf.old ≡ Some files) ×
        IsAnswer (map string_bytes words.now.items) (bytes_of files) a × (status_in a ≡ 2))) }

    // At 2 the line names a file of the command whose turn had come: over known files each file
    // that the command reads before it is there, and within its limit and its grammar.
    ensures blamed { result ≡ 2 → ((command : Command) × (w : Which) ×
        (command_of (map string_bytes words.now.items) ≡ Some command)
        × IsFileOf command w × ((files : List File) → F.files shelf.old ≡ Some files →
        IsReached command w (bytes_of files))
        × Told E.taken E.faults err.old err.new
        (refusal_line (Some command) (Refusal.Faulty w FileFault.Unread))) }

    // Words of no form are reported as such, whatever the files.
    ensures words { (result ≡ 1) ↔ (command_of (map string_bytes words.now.items) ≡ None) }

    // Over known files, whatever failed, a status other than 2, 7 and 8 is the answer's, and so is
    // the line on `err`. Where nothing failed each status is, unless memory runs out.
    ensures complete { (files : List File) → F.files shelf.old ≡ Some files
        → IsComplete (IsAnswer (map string_bytes words.now.items) (bytes_of files))
        (command_of (map string_bytes words.now.items))
        (Told E.taken E.faults err.old err.new) (Rose (F.faults shelf.old) (F.faults shelf.new))
        (Rose (O.faults out.old) (O.faults out.new)) result }

    // Some outcome has this status: it is what happened, and its line went to err, or a prefix
    // where err failed.
    ensures told { (o : Outcome) × (result ≡ outcome_status o)
        × Meets (F.files shelf.old) (F.faults shelf.old)
        (F.faults shelf.new) O.taken O.is_finished O.faults out.old out.new
        (IsAnswer (map string_bytes words.now.items)) o
        × Told E.taken E.faults err.old err.new
        (outcome_line (command_of (map string_bytes words.now.items)) o) }

    // The files stay, and no count of faults falls.
    ensures files { F.files shelf.new ≡ F.files shelf.old }
    ensures read { F.faults shelf.old ≤ F.faults shelf.new }
    ensures written { O.faults out.old ≤ O.faults out.new }
    ensures said { E.faults err.old ≤ E.faults err.new }
{
    answers_are_tables();
    let command = command_of(words);
    let outcome = serve(alloc, command, shelf, out);
    // Where `err` does not take the line, the status stays that of the outcome.
    let _ = tell(command, &outcome, err);
    status(&outcome)
}

// The exit status of a refusal, from 1 to 11.
fn status_of(refusal: &Refusal) -> u8
    ensures { result ≡ status_of refusal.now }
{
    match refusal {
        Refusal::Words => 1,
        Refusal::Faulty(_, fault) => fault.status(),
        Refusal::Forms | Refusal::Splits | Refusal::Points => 5,
        Refusal::NoCover(_) => 6,
        Refusal::Memory => 8,
        Refusal::No(_) => 9,
        Refusal::Verilog(..) | Refusal::Vector(_) => 10,
        Refusal::NoVerilog(_) => 11,
    }
}

// The exit status of an outcome: 0 if the answer was written, and 7 if it was cut short.
fn status(outcome: &Outcome) -> u8
    ensures { result ≡ outcome_status outcome.now }
{
    match outcome {
        Outcome::Done => 0,
        Outcome::WriteFault => 7,
        Outcome::Refused(refusal) => status_of(refusal),
    }
}
