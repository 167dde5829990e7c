//! The options of a verb.
ghost use Rattle.std.specs.Prelude.{◌≡◌, ◌==◌, ◌+◌, ◌≤◌, ◌∷◌, List, None, Some, Ok, Err, IsSome, MatchResult, drop, length, map, position, string_bytes};
ghost use Rattle.lasso_parts.specs.Texts.{Text};
ghost use Rattle.lasso_columns.specs.Rows.{word_of};
ghost use Rattle.lasso_codes.specs.Arguments.{IsWithin, argument_text, fed_null, is_binary, meaning_of, no_value, not_number, number_of, options_of, setting_of, takes_binary, takes_null, takes_workers, unset, value_of, workers_of, asked_after, ReadsValue, ReadsWord};

use crate::arguments::{ArgumentError, Command, Request, Settings, Verb};
use crate::numbers::parse_number;
use lasso_input::MAX_WORKERS;
use memchr::memchr;

// An option that takes a value: a number, or the word of a null.
#[derive(Clone, Copy, Debug, PartialEq, Eq)]
enum Setting {
    Limit,
    Top,
    Null,
    Workers,
}

// What a word among the options means.
#[derive(Clone, Copy, Debug, PartialEq, Eq)]
enum Meaning {
    // Shows the verb's help.
    AsksHelp,
    // Writes codes as bytes.
    IsBinary,
    // Shows no progress line.
    IsQuiet,
    // Lets in only lines that are UTF-8.
    IsUtf8Only,
    // A setting whose value is the next word.
    Wants(Setting),
    // A setting whose value follows the `=` at this position.
    Has(Setting, usize),
    // It is not an option of the verb.
    Nothing,
}

// What was read so far: the settings, the null, and the setting whose value is the next word.
#[derive(Clone, Copy)]
struct Reading<'a> {
    settings: Settings,
    null: Option<&'a [u8]>,
    wanted: Option<(Setting, &'a str)>,
}

/// Parses the words as options of the verb.
///
/// # Errors
/// The first word that is wrong, and why.
pub fn options_of(verb: Verb, words: &[String]) -> Result<Request<'_>, ArgumentError<'_>>
    ensures { MatchResult result
        (λ asked. options_of verb unset None None (map string_bytes words.now) ≡ Ok (asked.command, word_of asked.null))
        (λ error. options_of verb unset None None (map string_bytes words.now) ≡ Err (argument_text error)) }
{
    let mut reading = Reading {
        settings: Settings {
            limit: usize::MAX,
            top: usize::MAX,
            binary: false,
            only_utf8: false,
            workers: 1,
            quiet: false,
        },
        null: None,
        wanted: None,
    };
    for word in words {
        match read_word(verb, reading, word.as_str()) {
            Ok(Some(next)) => reading = next,
            Ok(None) => {
                return Ok(Request {
                    command: Command::VerbHelp(verb),
                    null: None,
                });
            }
            Err(error) => return Err(error),
        }
    }
    match reading.wanted {
        Some((setting, word)) => Err(no_value(setting, word)),
        None => Ok(Request {
            command: Command::Run(verb, reading.settings),
            null: reading.null,
        }),
    }
}

// The error of a setting without a value.
fn no_value<'a>(setting: Setting, word: &'a str) -> ArgumentError<'a>
    ensures { argument_text result ≡ no_value setting word.now }
{
    match setting {
        Setting::Limit | Setting::Top | Setting::Workers => ArgumentError::NoNumber(word),
        Setting::Null => ArgumentError::NoWord(word),
    }
}

// Reads one more word. Returns `None` if it is `--help`.
fn read_word<'a>(
    verb: Verb,
    mut reading: Reading<'a>,
    word: &'a str,
) -> Result<Option<Reading<'a>>, ArgumentError<'a>>
    ensures { (words : List Text) → ReadsWord verb (asked_after verb reading.entry (word.now ∷ words)) words result }
{
    if let Some((setting, _)) = reading.wanted {
        return with_value(reading, setting, word, 0);
    }
    match meaning_of(verb, word) {
        Meaning::AsksHelp => return Ok(None),
        Meaning::IsBinary => reading.settings.binary = true,
        Meaning::IsQuiet => reading.settings.quiet = true,
        Meaning::IsUtf8Only => reading.settings.only_utf8 = true,
        Meaning::Wants(setting) => reading.wanted = Some((setting, word)),
        Meaning::Has(setting, at) => return with_value(reading, setting, word, at + 1),
        Meaning::Nothing => return Err(ArgumentError::NotOption(word)),
    }
    Ok(Some(reading))
}

// The meaning of the word as an option of the verb.
fn meaning_of(verb: Verb, word: &str) -> Meaning
    ensures value { result ≡ meaning_of verb word.now }
    ensures at { IsWithin result word.now }
{
    if word == "--help" {
        return Meaning::AsksHelp;
    }
    if word == "--quiet" {
        return Meaning::IsQuiet;
    }
    if is_binary(verb, word) {
        return Meaning::IsBinary;
    }
    if word == "--utf8" {
        return Meaning::IsUtf8Only;
    }
    let bytes = word.as_bytes();
    match memchr(b'=', bytes) {
        Some(at) => match setting_of(verb, &bytes[..at]) {
            Some(setting) => Meaning::Has(setting, at),
            None => Meaning::Nothing,
        },
        None => match setting_of(verb, bytes) {
            Some(setting) => Meaning::Wants(setting),
            None => Meaning::Nothing,
        },
    }
}

// Whether the word is `--binary`, and the verb has that option.
fn is_binary(verb: Verb, word: &str) -> bool
    ensures { result ≡ is_binary verb word.now }
{
    word == "--binary" && takes_binary(verb)
}

// The verb's setting of this name.
fn setting_of(verb: Verb, name: &[u8]) -> Option<Setting>
    ensures { result ≡ setting_of verb name.now }
{
    if name == b"--limit".as_slice() {
        Some(Setting::Limit)
    } else if name == b"--top".as_slice() && verb == Verb::Counts {
        Some(Setting::Top)
    } else if name == b"--null".as_slice() && takes_null(verb) {
        Some(Setting::Null)
    } else if name == b"--workers".as_slice() && takes_workers(verb) {
        Some(Setting::Workers)
    } else {
        None
    }
}

// Whether the verb has the option `--null`.
fn takes_null(verb: Verb) -> bool
    ensures { result ≡ takes_null verb }
{
    matches!(verb, Verb::Decode | Verb::Encode)
}

// Whether the verb has the option `--binary`.
fn takes_binary(verb: Verb) -> bool
    ensures { result ≡ takes_binary verb }
{
    !matches!(verb, Verb::Counts | Verb::Decode | Verb::Distinct)
}

// Whether the verb has the option `--workers`.
fn takes_workers(verb: Verb) -> bool
    ensures { result ≡ takes_workers verb }
{
    matches!(verb, Verb::Counts | Verb::Encode)
}

// Reads the value of the setting, which is the word from the position `from` on.
fn with_value<'a>(
    reading: Reading<'a>,
    setting: Setting,
    word: &'a str,
    from: usize,
) -> Result<Option<Reading<'a>>, ArgumentError<'a>>
    requires { from ≤ length word.now }
    ensures { ReadsValue (value_of reading.entry.settings (word_of reading.entry.null) setting (drop from word.now) word.now) result }
{
    let value = &word.as_bytes()[from..];
    let mut null = reading.null;
    let mut settings = reading.settings;
    match setting {
        Setting::Limit => settings.limit = number_in(value, word)?,
        Setting::Top => settings.top = number_in(value, word)?,
        Setting::Workers => settings.workers = workers_in(number_in(value, word)?)?,
        Setting::Null => null = Some(null_in(value)?),
    }
    Ok(Some(Reading {
        settings,
        null,
        wanted: None,
    }))
}

// Parses the value as a number.
fn number_in<'a>(value: &[u8], word: &'a str) -> Result<usize, ArgumentError<'a>>
    ensures { MatchResult result
        (λ number. number_of value.now ≡ Some number)
        (λ error. (number_of value.now ≡ None) × (argument_text error ≡ not_number word.now)) }
{
    match parse_number(value) {
        Some(number) => Ok(number),
        None => Err(ArgumentError::NotNumber(word)),
    }
}

// Returns the value if it may be the word of a null: if it has no line feed, as lines have none.
fn null_in(value: &[u8]) -> Result<&[u8], ArgumentError<'static>>
    ensures { MatchResult result
        (λ word. (word.now ≡ value.now) × (position (λ b. b == 10) value.now ≡ None))
        (λ error. IsSome (position (λ b. b == 10) value.now) × (argument_text error ≡ fed_null)) }
{
    match memchr(b'\n', value) {
        Some(_) => Err(ArgumentError::FedNull),
        None => Ok(value),
    }
}

// Returns `count` if it is a number of workers: 1 to 64.
fn workers_in(count: usize) -> Result<usize, ArgumentError<'static>>
    ensures { MatchResult result
        (λ workers. workers_of count ≡ Ok workers)
        (λ error. workers_of count ≡ Err (argument_text error)) }
{
    if count == 0 {
        return Err(ArgumentError::NoWorkers);
    }
    if count > MAX_WORKERS {
        return Err(ArgumentError::PastWorkers(count));
    }
    Ok(count)
}
