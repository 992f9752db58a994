// The words of the command line.
ghost use Rattle.std.specs.Prelude.{◌≡◌, ◌<◌, ◌≤◌, ◌+◌, map, string_bytes, option_map, length};
ghost use Rattle.lw_top.specs.Words.{width_of, is_file_word};
ghost use Rattle.lw_area.specs.Words.{effort_of, is_digit, percent_of, deadline_of, no_option};
ghost use Rattle.lw_area.specs.Words.{set_by, has_value, set_or_missing, option_of, is_each};
ghost use Rattle.lw_area.specs.Words.{first_dashed, networks_of, files_of, task_of, checked_of};
ghost use Rattle.lw_area.specs.Words.{files_behind, options_of, only_word, checking_first};
ghost use Rattle.lw_area.specs.Words.{asked_of};
ghost use Rattle.lw_area.specs.Plain.{plain_settings, plain_task, plain_wrong, set_result};
ghost use Rattle.lw_area.specs.Plain.{begun_result, task_result, asked_result};

use lw_assoc::Mode;
use lw_fixed::{Micro, read};
use lw_map::Options;
use lw_recover::Effort;

/// By when outputs have to arrive, and never before their own least times.
#[derive(Clone, Copy)]
pub enum Deadline {
    /// All by the greatest least time.
    Greatest,
    /// Each by its own least time.
    Each,
    /// All by this part of the greatest least time, in percent.
    Percent(u32),
    /// All by this time.
    At(Micro),
}

/// What the options say.
#[derive(Clone, Copy)]
pub struct Settings {
    pub options: Options,
    /// Whether forms of equal value are linked.
    pub linked: bool,
    pub certified: bool,
    /// Whether it is said how many pairs were found.
    pub counted: bool,
    /// None for none: the netlist that labels choose.
    pub effort: Option<Effort>,
    pub deadline: Deadline,
}

/// What is asked for: the library, the network, and further networks.
#[derive(Clone, Copy)]
pub struct Task<'a> {
    pub settings: Settings,
    pub library: &'a str,
    pub network: &'a str,
    pub more: &'a [String],
}

/// A netlist, the verdict on one in a file, or a page.
#[derive(Clone, Copy)]
pub enum Asked<'a> {
    Usage,
    Version,
    Mapping(Task<'a>),
    Checking(Task<'a>, &'a str),
}

/// What is refused about a word.
#[derive(Clone, Copy)]
pub enum Wrong {
    Missing,
    Unknown,
    Width,
    Trial,
    Time,
    Certified,
    Late,
}

/// A word that is wrong: none where words are missing.
#[derive(Clone, Copy)]
pub struct WrongWord<'a> {
    pub word: &'a str,
    pub why: Wrong,
}

/// Options, and the words behind them.
#[derive(Clone, Copy)]
struct Begun<'a> {
    settings: Settings,
    rest: &'a [String],
}

// One of the words `2` to `8`.
fn width_of(word: &str) -> Option<u8>
    ensures { result ≡ width_of word.now }
{
    match word.as_bytes() {
        [digit] if b'2' <= *digit && *digit <= b'8' => Some(*digit - b'0'),
        _ => None,
    }
}

// One of the words `0` to `3`.
fn effort_of(word: &str) -> Option<Option<Effort>>
    ensures { result ≡ effort_of word.now }
{
    match word {
        "0" => Some(None),
        "1" => Some(Some(Effort::Passes)),
        "2" => Some(Some(Effort::Curves)),
        "3" => Some(Some(Effort::Chance)),
        _ => None,
    }
}

fn is_digit(byte: u8) -> bool
    ensures { result ≡ is_digit byte }
{
    b'0' <= byte && byte <= b'9'
}

// `N%`, for N from 100 to 999.
fn percent_of(word: &str) -> Option<u32>
    ensures { result ≡ percent_of word.now }
{
    match word.as_bytes() {
        [a, b, c, sign]
            if is_digit(*a) && is_digit(*b) && is_digit(*c) && b'1' <= *a && *sign == b'%' => {
            let (hundreds, tens) = (u32::from(*a - b'0') * 100, u32::from(*b - b'0') * 10);
            Some(hundreds + (tens + u32::from(*c - b'0')))
        }
        _ => None,
    }
}

// What each time is below.
const TIME_UNITS: u64 = 1_000_000;

// `max`, `each`, `100%` to `999%`, or a decimal below 1000000.
fn deadline_of(word: &str) -> Option<Deadline>
    ensures { result ≡ deadline_of word.now }
{
    if word == "max" {
        return Some(Deadline::Greatest);
    }
    if word == "each" {
        return Some(Deadline::Each);
    }
    if let Some(percent) = percent_of(word) {
        return Some(Deadline::Percent(percent));
    }
    match read(word.as_bytes(), TIME_UNITS) {
        Ok(time) => Some(Deadline::At(time)),
        Err(_) => None,
    }
}

fn refuse(word: &str, why: Wrong) -> WrongWord<'_>
    ensures { plain_wrong result ≡ record { word = word.now; why = why } }
{
    WrongWord { word, why }
}

impl Settings {
    // Reads an option with its value. Where a netlist is checked there is one.
    fn set<'a>(
        mut self,
        checked: bool,
        option: &'a str,
        value: &'a str,
    ) -> Result<Settings, WrongWord<'a>>
        ensures { set_result result ≡ set_by checked (plain_settings self) option.now value.now }
    {
        match option {
            "-w" => match width_of(value) {
                Some(width) => self.options.width = width,
                None => return Err(refuse(value, Wrong::Width)),
            },
            "-e" if !checked => match effort_of(value) {
                Some(effort) => self.effort = effort,
                None => return Err(refuse(value, Wrong::Trial)),
            },
            "-t" if !checked => match deadline_of(value) {
                Some(deadline) => self.deadline = deadline,
                None => return Err(refuse(value, Wrong::Time)),
            },
            _ => return Err(refuse(option, Wrong::Unknown)),
        }
        Ok(self)
    }

    // Reads an option that does not stand alone, with its value if it is there.
    fn set_or_missing<'a>(
        self,
        checked: bool,
        option: &'a str,
        words: &'a [String],
    ) -> Result<Begun<'a>, WrongWord<'a>>
        ensures { begun_result result ≡ set_or_missing checked (plain_settings self) option.now
            (map string_bytes words.now) }
    {
        match words {
            [value, rest @ ..] => {
                let settings = self.set(checked, option, value.as_str())?;
                Ok(Begun { settings, rest })
            }
            [] if has_value(checked, option) => Err(refuse(option, Wrong::Missing)),
            [] => Err(refuse(option, Wrong::Unknown)),
        }
    }

    // Reads one option, behind which these words stand. Where a netlist is checked there are fewer.
    fn read<'a>(
        mut self,
        checked: bool,
        option: &'a str,
        words: &'a [String],
    ) -> Result<Begun<'a>, WrongWord<'a>>
        ensures { begun_result result ≡ option_of checked (plain_settings self) option.now
            (map string_bytes words.now) }
    {
        match option {
            "-i" => self.options.mode = Mode::Idempotent,
            "-n" => self.linked = false,
            "-c" if !checked => self.certified = true,
            "-s" if !checked => self.counted = true,
            _ => return self.set_or_missing(checked, option, words),
        }
        Ok(Begun {
            settings: self,
            rest: words,
        })
    }
}

// Whether an option wants a value.
fn has_value(checked: bool, option: &str) -> bool
    ensures { result ≡ has_value checked option.now }
{
    match option {
        "-w" => true,
        "-e" | "-t" => !checked,
        _ => false,
    }
}

fn is_each(deadline: Deadline) -> bool
    ensures { result ≡ is_each deadline }
{
    match deadline {
        Deadline::Each => true,
        _ => false,
    }
}

fn is_file_word(word: &str) -> bool
    ensures { result ≡ is_file_word word.now }
{
    !word.starts_with("-")
}

// The first word that is an option's.
fn first_dashed(words: &[String]) -> Option<&str>
    ensures { option_map (λ word. word.now) result ≡ first_dashed (map string_bytes words.now) }
{
    'words: for word in words {
        if !is_file_word(word.as_str()) {
            return Some(word.as_str());
        }
    }
    None
}

// The network and further ones, behind the library.
fn networks_of<'a>(
    settings: Settings,
    library: &'a str,
    words: &'a [String],
) -> Result<Task<'a>, WrongWord<'a>>
    ensures { task_result result ≡ networks_of (plain_settings settings) library.now
        (map string_bytes words.now) }
{
    let [network, more @ ..] = words else {
        return Err(refuse("", Wrong::Missing));
    };
    match first_dashed(words) {
        Some(word) => Err(refuse(word, Wrong::Late)),
        None => Ok(Task {
            settings,
            library,
            network: network.as_str(),
            more,
        }),
    }
}

// The library, the network and further ones. The library's word is no option, as options end there.
fn files_of<'a>(settings: Settings, words: &'a [String]) -> Result<Task<'a>, WrongWord<'a>>
    ensures { task_result result ≡ files_of (plain_settings settings)
        (map string_bytes words.now) }
{
    match words {
        [library, networks @ ..] => networks_of(settings, library.as_str(), networks),
        [] => Err(refuse("", Wrong::Missing)),
    }
}

// The files, behind all options.
fn task_of<'a>(settings: Settings, words: &'a [String]) -> Result<Asked<'a>, WrongWord<'a>>
    ensures { asked_result result ≡ task_of (plain_settings settings)
        (map string_bytes words.now) }
{
    if settings.certified && !is_each(settings.deadline) {
        return Err(refuse("-c", Wrong::Certified));
    }
    Ok(Asked::Mapping(files_of(settings, words)?))
}

// The same, and behind them the netlist that is checked.
fn checked_of<'a>(settings: Settings, words: &'a [String]) -> Result<Asked<'a>, WrongWord<'a>>
    ensures { asked_result result ≡ checked_of (plain_settings settings)
        (map string_bytes words.now) }
{
    let [files @ .., mapped] = words else {
        return Err(refuse("", Wrong::Missing));
    };
    let task = files_of(settings, files)?;
    if !is_file_word(mapped.as_str()) {
        return Err(refuse(mapped.as_str(), Wrong::Late));
    }
    Ok(Asked::Checking(task, mapped.as_str()))
}

// The one or the other.
fn files_behind<'a>(
    checked: bool,
    settings: Settings,
    words: &'a [String],
) -> Result<Asked<'a>, WrongWord<'a>>
    ensures { asked_result result ≡ files_behind checked (plain_settings settings)
        (map string_bytes words.now) }
{
    if checked {
        checked_of(settings, words)
    } else {
        task_of(settings, words)
    }
}

// The settings where no option is given.
fn no_option() -> Settings
    ensures { plain_settings result ≡ no_option }
{
    Settings {
        options: Options {
            width: 6,
            mode: Mode::Plain,
        },
        linked: true,
        certified: false,
        counted: false,
        effort: Some(Effort::Curves),
        deadline: Deadline::Greatest,
    }
}

// Options, and then the files.
fn options_of(words: &[String], checked: bool) -> Result<Asked<'_>, WrongWord<'_>>
    ensures { asked_result result ≡ options_of (length words.now) checked no_option
        (map string_bytes words.now) }
{
    let mut settings = no_option();
    let mut rest = words;
    for _ in 0..words.len() {
        match rest {
            [option, more @ ..] if !is_file_word(option.as_str()) => {
                let begun = settings.read(checked, option.as_str(), more)?;
                settings = begun.settings;
                rest = begun.rest;
            }
            _ => break,
        }
    }
    files_behind(checked, settings, rest)
}

// Whether there is this word alone.
fn is_only(words: &[String], wanted: &str) -> bool
    ensures { result ≡ only_word (map string_bytes words.now) wanted.now }
{
    match words {
        [word] => word.as_str() == wanted,
        _ => false,
    }
}

// Options and files, behind `-k` where a netlist is checked.
fn checking_first(words: &[String]) -> Result<Asked<'_>, WrongWord<'_>>
    ensures { asked_result result ≡ checking_first (map string_bytes words.now) }
{
    match words {
        [first, rest @ ..] if first.as_str() == "-k" => options_of(rest, true),
        _ => options_of(words, false),
    }
}

/// What the words ask for.
pub fn asked_of(words: &[String]) -> Result<Asked<'_>, WrongWord<'_>>
    ensures { asked_result result ≡ asked_of (map string_bytes words.now) }
{
    if is_only(words, "-h") {
        return Ok(Asked::Usage);
    }
    if is_only(words, "-v") {
        return Ok(Asked::Version);
    }
    checking_first(words)
}
