ghost use Rattle.std.specs.Prelude.{◌↔◌, IsTrue};
ghost use Rattle.lw_genlib.specs.Standing.{HasNoHash};

use lw_words::Line;

/// Whether no word of the line holds `#`, which a reader of a library asks of its lines. Only a
/// first word `#@` can: comments are no part of a `Line`. It is for callers of the library, who
/// read lines with marks; the lines that `lw_files` reads have none.
pub fn has_no_hash(line: &Line) -> bool
    ensures { IsTrue result ↔ HasNoHash line.now }
{
    line.words.get(0) != b"#@".as_slice()
}
