// Words that a reader knows.
ghost use Rattle.std.specs.Prelude.{◌≡◌};
ghost use Rattle.std.specs.Str.{bytes_eq};
ghost use Rattle.lw_words.specs.Words.{is_ignored_word};

/// Whether a word is this one.
pub fn is(word: &[u8], text: &[u8]) -> bool
    ensures { result ≡ bytes_eq word.now text.now }
{
    word == text
}

/// Whether a word is a command of BLIF that says nothing of a network's function or arrivals.
#[tactic(auto, unfolding(crate::specs::Words::is_ignored_word))]
pub fn is_ignored(word: &[u8]) -> bool
    ensures { result ≡ is_ignored_word word.now }
{
    is(word, b".area")
        || is(word, b".delay")
        || is(word, b".wire_load_slope")
        || is(word, b".wire")
        || is(word, b".output_required")
        || is(word, b".default_output_required")
        || is(word, b".input_drive")
        || is(word, b".default_input_drive")
        || is(word, b".output_load")
        || is(word, b".default_output_load")
        || is(word, b".max_input_load")
        || is(word, b".default_max_input_load")
        || is(word, b".cycle")
        || is(word, b".clock_event")
}
