// Lines of words.
ghost use Rattle.std.specs.Prelude.{◌∷◌, ◌++◌, []};
ghost use Rattle.lw_fixed.specs.Printed.{decimal_text};
ghost use Rattle.lw_io.specs.Writers.{Writes};

use lw_fixed::{Micro, print};
use lw_io::{Sink, Writer};

// A space and a word.
pub(crate) fn put_word<S: Sink>(out: &mut Writer<'_, S>, word: &[u8])
    ensures { Writes S.taken S.faults out.old out.new (32 ∷ word.now) }
{
    out.put(b" ");
    out.put(word);
}

// A space and a time or an area, which ends a line.
pub(crate) fn put_last<S: Sink>(out: &mut Writer<'_, S>, value: Micro)
    ensures { Writes S.taken S.faults out.old out.new (32 ∷ decimal_text value.0 ++ 10 ∷ []) }
{
    let mut text = [0; 21];
    let count = print(value, &mut text);
    put_word(out, &text[..count]);
    out.put(b"\n");
}
