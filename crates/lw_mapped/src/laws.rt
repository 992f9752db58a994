//! Laws over definitions: functions with empty bodies, whose clauses are the laws.
ghost use Rattle.std.specs.Prelude.{ℕ, ◌≢◌, ◌<◌, ◌≤◌, true, List, Option, Result, Ok, Err, length};
ghost use Rattle.lw_fixed.specs.declared.micro.Micro.{Micro};
ghost use Rattle.lw_words.specs.Lines.{LogicalLine, logical_lines};
ghost use Rattle.lw_pool.specs.declared.latch.Frame.{Frame};
ghost use Rattle.lw_genlib.specs.Cells.{CellParts, IsLibrary};
ghost use Rattle.lw_netlist.specs.Netlists.{NetlistParts, IsNetlist};
ghost use Rattle.lw_netlist.specs.Plain.{IsOver};
ghost use Rattle.lw_mapped.specs.declared.certificate.Certificate.{Certificate};
ghost use Rattle.lw_mapped.specs.declared.closing.Mapped.{Mapped};
ghost use Rattle.lw_mapped.specs.declared.fault.MappedFault.{MappedFault};
ghost use Rattle.lw_mapped.specs.declared.fault.MappedFault.TheVariants.{Memory};
ghost use Rattle.lw_mapped.specs.Alike.{AreSameMapped, AreSameOutcomes};
ghost use Rattle.lw_mapped.specs.Closings.{HasFewGates};
ghost use Rattle.lw_mapped.specs.Fitting.{IsMapped};
ghost use Rattle.lw_mapped.specs.Limits.{word_limit};
ghost use Rattle.lw_mapped.specs.Readable.{IsNamed, IsReadable, IsReadableCertificate, read_of};
ghost use Rattle.lw_mapped.specs.Standing.{word_count};
ghost use Rattle.lw_mapped.specs.Texts.{mapped_text};
ghost use Rattle.lw_mapped.specs.Unmapped.{IsUnmapped};
ghost use Rattle.lw_laws.specs.Graphs.{most_classes};

/// Lines have one meaning: they come to one netlist with one frame, the same starts and one
/// certificate, or to one fault. But for `Memory`, two outcomes of the same lines are one.
pub fn lines_have_one_meaning()
    ensures { (cells : List CellParts) (lines : List LogicalLine) (a b : Result Mapped MappedFault)
        → IsUnmapped cells lines a → IsUnmapped cells lines b → a ≢ Err Memory → b ≢ Err Memory →
        AreSameOutcomes a b }
{}

/// What was written reads back: the lines of a mapped text come to the netlist, the frame, the
/// starts and the certificate that it was written of, and to nothing else, where their names are of
/// the format and apart, and all else is within its limits.
pub fn written_texts_read_back()
    ensures back { (cells : List CellParts) (n : NetlistParts) (frame : Frame) (starts : List Micro)
        (certificate : Option Certificate) (mapped : Mapped) →
        IsReadable cells n frame starts certificate →
        AreSameMapped mapped (read_of n frame starts certificate) →
        IsUnmapped cells (logical_lines true (mapped_text cells n frame starts certificate))
        (Ok mapped) }
    ensures alone { (cells : List CellParts) (n : NetlistParts) (frame : Frame)
        (starts : List Micro) (certificate : Option Certificate)
        (result : Result Mapped MappedFault) → IsReadable cells n frame starts certificate →
        IsUnmapped cells (logical_lines true (mapped_text cells n frame starts certificate)) result
        → result ≢ Err Memory → AreSameOutcomes result (Ok (read_of n frame starts certificate)) }
{}

/// What lines come to, whatever reads them: a netlist of the library's cells, with few gates for
/// the words of the lines; a certificate with labels and classes within their limits; and a frame
/// and starts that fit the netlist. All fits where the list of labels has no places past the last
/// class. Those that it may have give no label, so that without them the same always fits.
pub fn read_netlists_are_kept()
    ensures netlist { (cells : List CellParts) (lines : List LogicalLine) (mapped : Mapped) →
        word_count lines < word_limit → IsUnmapped cells lines (Ok mapped) →
        IsNetlist mapped.netlist }
    ensures over { (cells : List CellParts) (lines : List LogicalLine) (mapped : Mapped) →
        IsUnmapped cells lines (Ok mapped) → IsOver cells mapped.netlist }
    ensures gates { (cells : List CellParts) (lines : List LogicalLine) (mapped : Mapped) →
        IsLibrary cells → IsUnmapped cells lines (Ok mapped) → HasFewGates lines mapped }
    ensures certificate { (cells : List CellParts) (lines : List LogicalLine) (mapped : Mapped) →
        IsUnmapped cells lines (Ok mapped) →
        IsReadableCertificate (length mapped.netlist.gates) mapped.cert }
    ensures fits { (cells : List CellParts) (lines : List LogicalLine) (mapped : Mapped) →
        IsUnmapped cells lines (Ok mapped) → length mapped.cert.labels ≤ most_classes →
        IsMapped mapped }
    ensures trimmed { (cells : List CellParts) (lines : List LogicalLine) (mapped : Mapped) →
        IsUnmapped cells lines (Ok mapped) → (same : Mapped) × AreSameMapped mapped same ×
        IsMapped same }
{}

/// What the lines of a text come to: a netlist whose model, nets and outputs have names of the
/// format. The names of the nets differ, and those of the outputs; a net with an output's name is
/// that output's; and the gates stand by depth.
pub fn read_netlists_have_names()
    ensures { (cells : List CellParts) (text : List ℕ) (mapped : Mapped) →
        IsUnmapped cells (logical_lines true text) (Ok mapped) → IsNamed mapped.netlist }
{}
