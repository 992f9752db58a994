// The words of a request.
ghost use Rattle.std.specs.Prelude.{◌≡◌, Some, None, map, string_bytes, option_map};
ghost use Rattle.lw_equal_top.specs.Words.{is_file_word, first_dashed, is_numeral, number_of};
ghost use Rattle.lw_equal_top.specs.Words.{of_files, with_counts, with_number, with_tries};
ghost use Rattle.lw_equal_top.specs.Words.{behind_library, with_library, request_of};
ghost use Rattle.lw_equal_top.specs.Requests.{asked};

use crate::request::{Comparison, Request, WordFault};
use lw_fixed::are_digits;

fn is_file_word(word: &str) -> bool
    ensures { result ≡ is_file_word word.now }
{
    !word.starts_with("-")
}

// The first word that names no file.
fn first_dashed(words: &[String]) -> Option<&str>
    ensures { option_map (λ word. word.now) result ≡ first_dashed (map string_bytes words.now) }
{
    'words: for word in words {
        if !is_file_word(word.as_str()) {
            return Some(word.as_str());
        }
    }
    None
}

// One digit or more, and nothing else.
fn is_numeral(word: &str) -> bool
    ensures { result ≡ is_numeral word.now }
{
    1 <= word.len() && are_digits(word.as_bytes())
}

// A decimal numeral below 2^32.
fn number_of(word: &str) -> Option<u32>
    ensures { result ≡ number_of word.now }
{
    if !is_numeral(word) {
        return None;
    }
    match word.parse::<u32>() {
        Ok(number) => Some(number),
        Err(_) => None,
    }
}

// The most conflicts, where the words do not say.
const USUAL_TRIES: u32 = 1000;

// Two files or more.
fn of_files<'a>(
    library: Option<&'a str>,
    tries: u32,
    counted: bool,
    files: &'a [String],
) -> Result<Request<'a>, WordFault<'a>>
    ensures { asked result ≡ of_files (option_map (λ word. word.now) library.entry) tries counted
        (map string_bytes files.now) }
{
    if let Some(word) = first_dashed(files) {
        return Err(WordFault::Dashed(word));
    }
    if files.len() < 2 {
        return Err(WordFault::Few);
    }
    Ok(Request::Comparing(Comparison {
        library,
        tries,
        counted,
        files,
    }))
}

// `[-s] IN1 IN2 [MORE ..]`.
fn with_counts<'a>(
    library: Option<&'a str>,
    tries: u32,
    words: &'a [String],
) -> Result<Request<'a>, WordFault<'a>>
    ensures { asked result ≡ with_counts (option_map (λ word. word.now) library.entry) tries
        (map string_bytes words.now) }
{
    match words {
        [option, rest @ ..] if option.as_str() == "-s" => of_files(library, tries, true, rest),
        _ => of_files(library, tries, false, words),
    }
}

// `CONFLICTS [-s] IN1 IN2 [MORE ..]`.
fn with_number<'a>(
    library: Option<&'a str>,
    words: &'a [String],
) -> Result<Request<'a>, WordFault<'a>>
    ensures { asked result ≡ with_number (option_map (λ word. word.now) library.entry)
        (map string_bytes words.now) }
{
    match words {
        [word, rest @ ..] => match number_of(word.as_str()) {
            Some(tries) => with_counts(library, tries, rest),
            None => Err(WordFault::Numeral(word.as_str())),
        },
        _ => Err(WordFault::Few),
    }
}

// `[-n CONFLICTS] [-s] IN1 IN2 [MORE ..]`.
fn with_tries<'a>(
    library: Option<&'a str>,
    words: &'a [String],
) -> Result<Request<'a>, WordFault<'a>>
    ensures { asked result ≡ with_tries (option_map (λ word. word.now) library.entry)
        (map string_bytes words.now) }
{
    match words {
        [option, rest @ ..] if option.as_str() == "-n" => with_number(library, rest),
        _ => with_counts(library, USUAL_TRIES, words),
    }
}

// `LIB [-n CONFLICTS] [-s] IN1 IN2 [MORE ..]`.
fn behind_library(words: &[String]) -> Result<Request<'_>, WordFault<'_>>
    ensures { asked result ≡ behind_library (map string_bytes words.now) }
{
    match words {
        [word, rest @ ..] => {
            if !is_file_word(word.as_str()) {
                return Err(WordFault::Dashed(word.as_str()));
            }
            with_tries(Some(word.as_str()), rest)
        }
        _ => Err(WordFault::Few),
    }
}

// `[-l LIB] [-n CONFLICTS] [-s] IN1 IN2 [MORE ..]`.
fn with_library(words: &[String]) -> Result<Request<'_>, WordFault<'_>>
    ensures { asked result ≡ with_library (map string_bytes words.now) }
{
    match words {
        [option, rest @ ..] if option.as_str() == "-l" => behind_library(rest),
        _ => with_tries(None, words),
    }
}

/// What the words ask for: `-h`, `-v`, or a comparison. An error says what is wrong with them.
pub fn request_of(words: &[String]) -> Result<Request<'_>, WordFault<'_>>
    ensures { asked result ≡ request_of (map string_bytes words.now) }
{
    match words {
        [option] if option.as_str() == "-h" => Ok(Request::Help),
        [option] if option.as_str() == "-v" => Ok(Request::Version),
        _ => with_library(words),
    }
}
