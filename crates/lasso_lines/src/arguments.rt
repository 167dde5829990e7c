//! Parses the program's arguments.
ghost use Rattle.std.specs.Prelude.{◌≡◌, Some, None, map, string_bytes, OnErr, IfOk, IfErr, option_map};
ghost use Rattle.std.specs.Result.{result_ok};
ghost use Rattle.lasso_lines.specs.Arguments.{settings_of, limited, worked, both};

use crate::fault::RunFault;
use lasso_input::{MAX_WORKERS, parse_digits};

/// The settings that the arguments give.
#[derive(Clone, Copy, Debug, PartialEq, Eq)]
pub struct Settings {
    /// The most bytes that the interner's buckets may take. `usize::MAX` without `--limit`.
    pub limit: usize,
    /// The number of workers, 1 to 64. `None` without `--workers`: one thread interns the lines.
    pub workers: Option<usize>,
}

/// Parses the arguments: `--limit N` and `--workers N`, each at most once, in either order. N has 1 to 20
/// digits. It is below 2^64 for the limit, and 1 to 64 for the workers. Without `--limit` the limit is
/// `usize::MAX`; without `--workers` there are no workers. Returns `Usage` for any other arguments.
pub fn arguments(words: &[String]) -> Result<Settings, RunFault>
    ensures value { option_map (λ s. (s.limit, s.workers)) (result_ok result) ≡ settings_of (map string_bytes words.now) }
    ensures usage { IfErr result (λ fault. fault ≡ RunFault.Usage) }
{
    let settings = match words {
        [] => Some(Settings {
            limit: usize::MAX,
            workers: None,
        }),
        [flag, number] if flag.as_str() == "--limit" => limited(number.as_str()),
        [flag, number] if flag.as_str() == "--workers" => worked(usize::MAX, number.as_str()),
        [one, limit, other, workers]
            if one.as_str() == "--limit" && other.as_str() == "--workers" => {
            both(limit.as_str(), workers.as_str())
        }
        [one, workers, other, limit]
            if one.as_str() == "--workers" && other.as_str() == "--limit" => {
            both(limit.as_str(), workers.as_str())
        }
        _ => None,
    };
    settings.ok_or(RunFault::Usage)
}

// The settings of a limit alone. `None` if the word is not a number below 2^64.
fn limited(limit: &str) -> Option<Settings>
    ensures { option_map (λ s. (s.limit, s.workers)) result ≡ limited limit.now }
{
    let limit = parse_digits(limit.as_bytes())?;
    Some(Settings {
        limit,
        workers: None,
    })
}

// The settings of this limit and a word for the workers. `None` if the word is not a number from 1 to 64.
fn worked(limit: usize, workers: &str) -> Option<Settings>
    ensures { option_map (λ s. (s.limit, s.workers)) result ≡ worked limit workers.now }
{
    let workers = parse_digits(workers.as_bytes())?;
    if workers == 0 || workers > MAX_WORKERS {
        return None;
    }
    Some(Settings {
        limit,
        workers: Some(workers),
    })
}

// The settings of a word for the limit and a word for the workers. `None` if either is wrong.
fn both(limit: &str, workers: &str) -> Option<Settings>
    ensures { option_map (λ s. (s.limit, s.workers)) result ≡ both limit.now workers.now }
{
    worked(parse_digits(limit.as_bytes())?, workers)
}
