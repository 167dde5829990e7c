//! What `--help` and `--version` print.
ghost use Rattle.std.specs.Prelude.{◌≡◌, map, string_bytes};
ghost use Rattle.lasso_lines.specs.Help.{page_of};

// The text of `lasso_lines --help`.
const HELP: &str = "\
usage: lasso_lines [--limit N] [--workers N] < INPUT > OUTPUT

Writes each line after the number of its text, counted from 0 in the order in
which texts first come, and at the end how many texts there are and how many
bytes their buckets take. Lines are UTF-8.

  --limit N    the most bytes that the buckets may take, below 2^64
  --workers N  intern by 1 to 64 threads, and write only the distinct lines, in
               the order of their bytes

lasso_lines --version prints the version.
";

// The text of `lasso_lines --version`.
const VERSION: &str = "lasso_lines 0.1.0\n";

/// What `--help` and `--version` ask for.
#[derive(Clone, Copy, Debug, PartialEq, Eq)]
pub enum Page {
    /// The help text.
    Help,
    /// The version.
    Version,
}

impl Page {
    /// What it prints.
    pub fn text(self) -> &'static str {
        match self {
            Page::Help => HELP,
            Page::Version => VERSION,
        }
    }
}

/// What the words ask for if they are `--help` or `--version` alone. `None` for other words.
pub fn page_of(words: &[String]) -> Option<Page>
    ensures { result ≡ page_of (map string_bytes words.now) }
{
    match words {
        [word] if word.as_str() == "--help" => Some(Page::Help),
        [word] if word.as_str() == "--version" => Some(Page::Version),
        _ => None,
    }
}
