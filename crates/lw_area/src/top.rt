// The top call.
ghost use Rattle.std.specs.Prelude.{◌≡◌, ◌≤◌, ◌↔◌, [], ℕ, List, map, string_bytes, IsErr};
ghost use Rattle.lw_io.specs.declared.file.File.{File};
ghost use Rattle.lw_io.specs.Causes.{Rose};
ghost use Rattle.lw_io.specs.Files.{bytes_of};
ghost use Rattle.lw_files.specs.Reading.{Known};
ghost use Rattle.lw_map.specs.declared.fault.MapFault.{MapFault};
ghost use Rattle.lw_top.specs.Outcome.{IsDone};
ghost use Rattle.lw_top.specs.Telling.{Told};
ghost use Rattle.lw_area.specs.declared.refusal.Refusal.{Refusal};
ghost use Rattle.lw_area.specs.declared.words.Deadline.{Deadline};
ghost use Rattle.lw_area.specs.Complete.{IsComplete};
ghost use Rattle.lw_area.specs.Outcomes.{IsTold};
ghost use Rattle.lw_area.specs.Promises.{AsksFor, IsFastestOf, IsRecoveryOf, LacksOutput};
ghost use Rattle.lw_area.specs.Refusals.{refusal_line};
ghost use Rattle.lw_area.specs.Words.{Task, asked_of};

use crate::outcome::serve;
use crate::telling::{tell_ending, tell_word};
use crate::words::asked_of;
use lw_io::{Shelf, Sink};
use std::alloc::Global;
use std::time::Clock;

/// Does what the words ask for, and answers the exit status.
///
/// It reads the files that the words name, one after another and each once. The whole answer stands
/// before the first byte goes to `out`. At a status other than 0 it writes one line to `err`, whose
/// faults change no status.
pub fn run<F: Shelf, O: Sink, E: Sink, C: Clock>(
    alloc: Global,
    clock: &C,
    words: &[String],
    shelf: &mut F,
    out: &mut O,
    err: &mut E,
) -> u8
    // At 0, over known files and where a netlist was asked for, the text of one went out. It gives
    // each root, which is an output or what a latch reads, the network's value under every
    // assignment. Each root arrives by its deadline. The area is at most that of the netlist of the
    // chosen matches, and the certificate, where one was asked for, is right. It is over a union of
    // the network with further ones and over links, which are pairs of forms of one value.
    ensures mapping { (files : List File) (task : Task) → F.files shelf.old ≡ Some files →
        AsksFor (map string_bytes words.now) task → result ≡ 0 → ((text : List ℕ)
        × IsRecoveryOf task (bytes_of files) text
        × IsDone O.taken O.is_finished out.old out.new text) }

    // With the deadline `each` that netlist is a mapping: each root arrives at the least time of
    // all covers of all trees that the rules and the links derive for it.
    ensures each { (files : List File) (task : Task) → F.files shelf.old ≡ Some files →
        AsksFor (map string_bytes words.now) task → task.settings.deadline ≡ Deadline.Each →
        result ≡ 0 → ((text : List ℕ) × IsFastestOf task (bytes_of files) text
        × IsDone O.taken O.is_finished out.old out.new text) }

    // At 6, over known files, no tree that the rules and the links derive for the root whose name
    // is reported has a cover.
    ensures no_cover { (files : List File) (task : Task) → F.files shelf.old ≡ Some files →
        AsksFor (map string_bytes words.now) task → result ≡ 6 → ((name : List ℕ) ×
        LacksOutput task (bytes_of files) name × Told E.taken E.faults err.old err.new
        (refusal_line task [] (Refusal.Unmapped (MapFault.NoCover name)))) }

    // Over known files, whatever failed, a status other than 2, 7 and 8 is that of an answer, and
    // so is the line on `err`. Where nothing failed each status is, unless memory runs out.
    ensures complete { (files : List File) (task : Task) → F.files shelf.old ≡ Some files →
        AsksFor (map string_bytes words.now) task → IsComplete task (bytes_of files)
        (Told E.taken E.faults err.old err.new) (Rose (F.faults shelf.old) (F.faults shelf.new))
        (Rose (O.faults out.old) (O.faults out.new)) result }

    // Words of no form are reported as such, whatever the files.
    ensures words { (result ≡ 1) ↔ IsErr (asked_of (map string_bytes words.now)) }

    // What the status says is what happened: the page or the text that was asked for went out; or
    // the stream failed, and a prefix of such a text went out; or there is the reason to refuse
    // that the line on `err` gives, and nothing went out.
    ensures told { IsTold (F.files shelf.old) (F.faults shelf.old) (F.faults shelf.new) O.taken
        O.is_finished O.faults out.old out.new E.taken E.faults err.old err.new
        (asked_of (map string_bytes words.now)) result }

    // The files stay, and no count of faults falls.
    ensures files { F.files shelf.new ≡ F.files shelf.old }
    ensures read { F.faults shelf.old ≤ F.faults shelf.new }
    ensures written { O.faults out.old ≤ O.faults out.new }
    ensures said { E.faults err.old ≤ E.faults err.new }
{
    let asked = match asked_of(words) {
        Ok(asked) => asked,
        Err(wrong) => {
            // Where `err` does not take the line, the status stays.
            let _ = tell_word(wrong, err);
            return 1;
        }
    };
    let ending = serve(alloc, clock, asked, shelf, out);
    let _ = tell_ending(&asked, &ending, err);
    ending.status()
}
