//! Laws over definitions: functions with empty bodies, whose clauses are the laws.
ghost use Rattle.std.specs.Prelude.{◌≡◌, ◌≢◌, ◌↔◌, ℕ, List, Result, Ok, Err, take, true};
ghost use Rattle.lw_genlib.specs.Cells.{CellParts};
ghost use Rattle.lw_netlist.specs.Netlists.{NetlistParts};
ghost use Rattle.lw_verilog.specs.declared.fault.VerilogFault.{VerilogFault};
ghost use Rattle.lw_verilog.specs.declared.fault.VerilogFault.TheVariants.{Memory};
ghost use Rattle.lw_verilog.specs.declared.kind.Kind.{Kind};
ghost use Rattle.lw_verilog.specs.Faults.{IsFaultAt, ReadsOrBreaks};
ghost use Rattle.lw_verilog.specs.Phrases.{Accepts, Derives, file, kinds_of};
ghost use Rattle.lw_verilog.specs.Readings.{FaultAt, Reading, is_done, nothing_read, read};
ghost use Rattle.lw_verilog.specs.Texts.{verilog_text};
ghost use Rattle.lw_verilog.specs.Tokens.{tokens};
ghost use Rattle.lw_verilog.specs.Verdicts.{AreSame, IsRead};
ghost use Rattle.lw_verilog.specs.Writable.{IsWritable};

/// A text has one meaning: it comes to one netlist, or to one fault. But for `Memory`, two outcomes
/// of the same text are one.
pub fn texts_have_one_meaning()
    ensures { (cells : List CellParts) (text : List ℕ) (a b : Result NetlistParts VerilogFault) →
        IsRead cells text a → IsRead cells text b → a ≢ Err Memory → b ≢ Err Memory → AreSame a b }
{}

/// What was written reads back: the text of a netlist comes to the netlist itself, where no test
/// refuses it, its names are of the format and differ, its gates stand by depth, and its outputs
/// are no more than memory holds.
pub fn written_texts_read_back()
    ensures { (cells : List CellParts) (n : NetlistParts) →
        IsWritable cells n → IsRead cells (verilog_text cells n) (Ok n) }
{}

/// The table of places and tokens is the grammar: it takes the tokens that the grammar derives, and
/// no others.
pub fn table_is_grammar()
    ensures { (tokens : List Kind) → (Accepts tokens) ↔ (Derives file tokens) }
{}

/// What is read without a fault up to the end of its module begins with tokens that the grammar
/// derives.
pub fn read_tokens_are_derived()
    ensures { (cells : List CellParts) (text : List ℕ) (r : Reading) →
        read cells nothing_read (tokens text) ≡ Ok r → is_done r.place ≡ true →
        (k : ℕ) × Derives file (take k (kinds_of (tokens text))) }
{}

/// What begins with tokens that the grammar derives is read to the end of its module, or one of
/// these tokens breaks a further rule.
pub fn derived_tokens_are_read()
    ensures { (cells : List CellParts) (text : List ℕ) (count : ℕ) →
        Derives file (take count (kinds_of (tokens text))) →
        ReadsOrBreaks cells (tokens text) count (read cells nothing_read (tokens text)) }
{}

/// A fault is that of a token before which some text of the grammar goes on. `Expected` is told
/// exactly if none goes on with the token, and a further rule only if some text does.
pub fn faults_have_their_tokens()
    ensures { (cells : List CellParts) (text : List ℕ) (fault : FaultAt) →
        read cells nothing_read (tokens text) ≡ Err fault →
        (n : ℕ) × IsFaultAt cells (tokens text) fault n }
{}
