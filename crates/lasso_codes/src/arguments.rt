//! The program's arguments: a verb and its options.
ghost use Rattle.std.specs.Prelude.{◌≡◌, Some, Ok, Err, MatchResult, map, string_bytes};
ghost use Rattle.std.specs.Fmt.{WritesOnOk};
ghost use Rattle.lasso_columns.specs.Rows.{word_of};
ghost use Rattle.lasso_codes.specs.Arguments.{argument_text, begins_with_dash, command_of, name_of, not_option, verb_of};

use crate::options::options_of;
use crate::shown::Shown;
use std::fmt;

/// The verbs: what the program does with its input.
#[derive(Clone, Copy, Debug, PartialEq, Eq)]
pub enum Verb {
    /// Counts the lines.
    Counts,
    /// Decodes columns into their lines.
    Decode,
    /// Writes the dictionary of columns.
    Dictionary,
    /// Lists the distinct lines.
    Distinct,
    /// Encodes the lines as a column.
    Encode,
    /// Joins a dictionary and columns by its codes into one column.
    Join,
    /// Merges columns into one.
    Merge,
    /// Writes the entries of columns by the codes of a dictionary.
    Recode,
}

/// All verbs.
pub const VERBS: [Verb; 8] = [
    Verb::Counts,
    Verb::Decode,
    Verb::Dictionary,
    Verb::Distinct,
    Verb::Encode,
    Verb::Join,
    Verb::Merge,
    Verb::Recode,
];

impl Verb {
    /// The word that names the verb.
    pub fn name(&self) -> &'static str
        ensures { result.now ≡ name_of self.now }
    {
        match self {
            Verb::Counts => "counts",
            Verb::Decode => "decode",
            Verb::Dictionary => "dictionary",
            Verb::Distinct => "distinct",
            Verb::Encode => "encode",
            Verb::Join => "join",
            Verb::Merge => "merge",
            Verb::Recode => "recode",
        }
    }
}

/// The values of a verb's options.
#[derive(Clone, Copy, Debug, PartialEq, Eq)]
pub struct Settings {
    /// The most bytes that the interner's buckets may take.
    pub limit: usize,
    /// The most lines that `counts` writes.
    pub top: usize,
    /// Whether codes are written as four bytes each.
    pub binary: bool,
    /// Whether a line that is not UTF-8 is refused.
    pub only_utf8: bool,
    /// How many threads share the work, from 1 to 64.
    pub workers: usize,
    /// Whether no progress line is shown.
    pub quiet: bool,
}

/// The command that the arguments name.
#[derive(Clone, Copy, Debug, PartialEq, Eq)]
pub enum Command {
    /// The program's help.
    Help,
    /// A verb's help.
    VerbHelp(Verb),
    /// The program's version.
    Version,
    /// A verb, with its settings.
    Run(Verb, Settings),
}

/// A command, and the word of `--null`.
#[derive(Clone, Copy, Debug, PartialEq, Eq)]
pub struct Request<'a> {
    /// The command.
    pub command: Command,
    /// The text of a null, if one is given.
    pub null: Option<&'a [u8]>,
}

/// Why the arguments are refused, with the word that is wrong.
#[derive(Clone, Copy, Debug, PartialEq, Eq)]
pub enum ArgumentError<'a> {
    /// There are no arguments.
    NoVerb,
    /// The first word is neither a verb nor `--help` or `--version`.
    NotVerb(&'a str),
    /// The word is not an option of the verb. It may be a file's name.
    NotOption(&'a str),
    /// The option is the last word: its number is missing.
    NoNumber(&'a str),
    /// The option is the last word: the word after it is missing.
    NoWord(&'a str),
    /// The value is not a number, or is not below 2^64.
    NotNumber(&'a str),
    /// The word of a null has a line feed.
    FedNull,
    /// The number of workers is 0.
    NoWorkers,
    /// The number of workers is this one, which is more than 64.
    PastWorkers(usize),
    /// A word is not UTF-8.
    NotText,
}

impl fmt::Display for ArgumentError<'_> {
    ghost output = { λ error. Some (argument_text error) };

    fn fmt<W: fmt::Write>(&self, f: &mut fmt::Formatter<W>) -> fmt::Result {
        match self {
            ArgumentError::NoVerb => write!(f, "no verb (see lasso_codes --help)"),
            ArgumentError::NotVerb(word) => write!(f, "{}: no such verb", Shown(*word)),
            ArgumentError::NotOption(word) => write_not_option(f, *word),
            ArgumentError::NoNumber(word) => write!(f, "{}: a number is missing", Shown(*word)),
            ArgumentError::NoWord(word) => write!(f, "{}: a word is missing", Shown(*word)),
            ArgumentError::NotNumber(word) => {
                write!(f, "{}: not a number below 2^64", Shown(*word))
            }
            ArgumentError::FedNull => write!(f, "--null: a null has no line feed"),
            ArgumentError::NoWorkers => write!(f, "--workers: 0 is below 1"),
            ArgumentError::PastWorkers(count) => write!(f, "--workers: {count} is past 64"),
            ArgumentError::NotText => write!(f, "an argument is not UTF-8"),
        }
    }
}

// Writes that the word is no option. If it doesn't look like one, it also says where the input comes from.
fn write_not_option<W: fmt::Write>(f: &mut fmt::Formatter<W>, word: &str) -> fmt::Result
    ensures { WritesOnOk W.write_str_gives f.old result (not_option word.now) f.new }
{
    let word = Shown(word);
    if begins_with_dash(word.0) {
        write!(f, "{word}: not an option of this verb")
    } else {
        write!(
            f,
            "{word}: not an option of this verb, which reads standard input (< {word})"
        )
    }
}

// Whether the word begins with a dash, as options do.
fn begins_with_dash(word: &str) -> bool
    ensures { result ≡ begins_with_dash word.now }
{
    match word.as_bytes() {
        [b'-', ..] => true,
        _ => false,
    }
}

/// Parses the arguments: `--help`, `--version`, or a verb and its options.
///
/// Words after `--help` and `--version` are not read. If an option is given twice, the last one counts. The
/// defaults are no limit, all lines, no null, codes as text, one worker, and a progress line.
///
/// # Errors
/// The first word that is wrong, and why.
pub fn command_of(words: &[String]) -> Result<Request<'_>, ArgumentError<'_>>
    ensures { MatchResult result
        (λ asked. command_of (map string_bytes words.now) ≡ Ok (asked.command, word_of asked.null))
        (λ error. command_of (map string_bytes words.now) ≡ Err (argument_text error)) }
{
    if words.is_empty() {
        return Err(ArgumentError::NoVerb);
    }
    let word = words[0].as_str();
    if word == "--help" {
        return Ok(Request {
            command: Command::Help,
            null: None,
        });
    }
    if word == "--version" {
        return Ok(Request {
            command: Command::Version,
            null: None,
        });
    }
    match verb_of(word) {
        Some(verb) => options_of(verb, &words[1..]),
        None => Err(ArgumentError::NotVerb(word)),
    }
}

// The verb of this name.
fn verb_of(word: &str) -> Option<Verb>
    ensures { result ≡ verb_of word.now }
{
    match word {
        "counts" => Some(Verb::Counts),
        "decode" => Some(Verb::Decode),
        "dictionary" => Some(Verb::Dictionary),
        "distinct" => Some(Verb::Distinct),
        "encode" => Some(Verb::Encode),
        "join" => Some(Verb::Join),
        "merge" => Some(Verb::Merge),
        "recode" => Some(Verb::Recode),
        _ => None,
    }
}
