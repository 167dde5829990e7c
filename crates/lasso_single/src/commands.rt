//! Commands of a `Rodeo`, their replies, and runs of many. It is for callers alone: no interner runs them.
ghost use Rattle.std.specs.Prelude.{◌≡◌, ◌+◌, ◌*◌, ◌<◌, ◌≤◌, map, option_map, IfErr, IfOk, OnOk, length};
ghost use Rattle.lasso_parts.specs.declared.util.LassoErrorKind.TheVariants.{FailedAllocation};
ghost use Rattle.lasso_single.specs.Command.{intern_reply, done_reply, resolves_to, replies_to, run_of, StaysThrifty};
ghost use Rattle.lasso_single.specs.Filling.{extend};
ghost use Rattle.lasso_single.specs.Interner.{most_copied};

use crate::rodeo::Rodeo;
use lasso_parts::keys::Key;
use lasso_parts::util::{LassoError, LassoErrorKind, LassoResult, MemoryLimits};
use std::alloc::{Allocator, Global};
use std::hash::BuildHasher;

/// One call of a `Rodeo`, with its arguments.
#[derive(Drop)]
pub enum Command<'a, K: Key, S: BuildHasher, A: Allocator> {
    /// Interns a text, which is copied if it is new.
    Intern(&'a str),
    /// Interns a text, which is kept as it is.
    InternStatic(&'static str),
    /// Looks a text up.
    Get(&'a str),
    /// Whether the text is present.
    Contains(&'a str),
    /// Whether the key stands for a text.
    ContainsKey(K),
    /// The key's text.
    TryResolve(K),
    /// The number of texts.
    Len,
    /// The bytes that all buckets take.
    Usage,
    /// The most bytes that they may take.
    MaxUsage,
    /// Sets the most bytes that they may take.
    SetLimit(MemoryLimits),
    /// Forgets every text, and keeps the first bucket and the doubled ones.
    Clear,
    /// Interns one text after another, up to the first refusal.
    Extend(&'a [&'a str]),
    /// Copies the texts of another interner over those here.
    CloneFrom(&'a Rodeo<K, S, A>),
}

/// What a command returns.
#[derive(Drop)]
pub enum Reply<K> {
    /// The key of an interned text.
    Key(K),
    /// The command was refused.
    Refused(LassoError),
    /// The key of a present text.
    Found(Option<K>),
    /// Yes or no.
    Flag(bool),
    /// A copy of the key's text, if it has one.
    Text(Option<String>),
    /// A number of texts or of bytes.
    Number(usize),
    /// The command was done.
    Done,
}

/// Runs the commands in order, and returns one reply for each. A refused command's reply is its error, and
/// the run goes on. Room for all replies is reserved first: if that fails (`FailedAllocation`), nothing
/// changes; an empty list of commands never fails. Afterwards the buckets take at most the first bucket and
/// eight times the most bytes that were copied in between two clears. If nothing was ever cleared, they take
/// at most the first bucket and four times the bytes copied in.
///
/// ```rust
/// let mut rodeo: SpurRodeo = Rodeo::new(rt.alloc())?;
/// let commands = [Command::Intern("red"), Command::Clear];
/// let replies = run_commands(rt.alloc(), &mut rodeo, commands.as_slice())?;
/// assert!(rt; replies.len() == 2);
/// assert!(rt; matches!(&replies[0], Reply::Key(_)));
/// assert!(rt; matches!(&replies[1], Reply::Done));
/// ```
pub fn run_commands<K: Key, S: BuildHasher + Clone, A: Allocator + Clone>(
    alloc: Global,
    rodeo: &mut Rodeo<K, S, A>,
    commands: &[Command<'_, K, S, A>],
) -> LassoResult<Vec<Reply<K>>>
    ensures run { IfOk result (λ replies. run_of K.key_at K.number rodeo.old commands.now replies.items rodeo.new) }
    ensures refused { IfErr result (λ error. (error ≡ FailedAllocation) × (0 < length commands.now) × (rodeo.new ≡ rodeo.old)) }
    ensures bound { OnOk result (rodeo.new.account.usage ≤ rodeo.old.first + 8 * most_copied rodeo.new) }
    ensures waste { OnOk result (StaysThrifty commands.now rodeo.old rodeo.new) }
{
    let mut replies = Vec::with_capacity(alloc, commands.len())?;
    for command in commands {
        let reply = run_command(alloc, rodeo, command);
        replies.push_reserved(reply);
    }
    // The interner's own bounds on waste hold after the last command too.
    let _usage = rodeo.current_memory_usage();
    Ok(replies)
}

// Carries one command out.
fn run_command<K: Key, S: BuildHasher + Clone, A: Allocator + Clone>(
    alloc: Global,
    rodeo: &mut Rodeo<K, S, A>,
    command: &Command<'_, K, S, A>,
) -> Reply<K>
    ensures { replies_to K.key_at K.number rodeo.old command.now result rodeo.new }
{
    match command {
        Command::Intern(text) => interned(rodeo.try_get_or_intern(*text)),
        Command::InternStatic(text) => interned(rodeo.try_get_or_intern_static(*text)),
        Command::Get(text) => Reply::Found(rodeo.get(*text)),
        Command::Contains(text) => Reply::Flag(rodeo.contains(*text)),
        Command::ContainsKey(key) => Reply::Flag(rodeo.contains_key(*key)),
        Command::TryResolve(key) => resolved(alloc, rodeo.try_resolve(*key)),
        Command::Len => Reply::Number(rodeo.len()),
        Command::Usage => Reply::Number(rodeo.current_memory_usage()),
        Command::MaxUsage => Reply::Number(rodeo.max_memory_usage()),
        Command::SetLimit(limits) => {
            rodeo.set_memory_limits(*limits);
            Reply::Done
        }
        Command::Clear => {
            rodeo.clear();
            Reply::Done
        }
        Command::Extend(texts) => done(intern_each(rodeo, *texts)),
        Command::CloneFrom(source) => done(rodeo.try_clone_from(*source)),
    }
}

// The reply to a call that interns one text.
fn interned<K>(outcome: LassoResult<K>) -> Reply<K>
    ensures { result ≡ intern_reply outcome }
{
    match outcome {
        Ok(key) => Reply::Key(key),
        Err(error) => Reply::Refused(error),
    }
}

// The reply to a call that returns only whether it was refused.
fn done<K>(outcome: LassoResult<()>) -> Reply<K>
    ensures { result ≡ done_reply outcome }
{
    match outcome {
        Ok(()) => Reply::Done,
        Err(error) => Reply::Refused(error),
    }
}

// The reply to a look-up of a key's text, with a copy of it.
fn resolved<K>(alloc: Global, text: Option<&str>) -> Reply<K>
    ensures { resolves_to (option_map (λ t. t.now) text.entry) result }
{
    let Some(text) = text else {
        return Reply::Text(None);
    };
    match String::from_str(alloc, text) {
        Ok(copy) => Reply::Text(Some(copy)),
        Err(_) => Reply::Refused(LassoError::new(LassoErrorKind::FailedAllocation)),
    }
}

// Interns each text, up to the first refusal.
fn intern_each<K: Key, S: BuildHasher, A: Allocator + Clone>(
    rodeo: &mut Rodeo<K, S, A>,
    texts: &[&str],
) -> LassoResult<()>
    ensures { extend K.key_at rodeo.old (map (λ t. t.now) texts.now) result rodeo.new }
{
    for text in texts {
        rodeo.try_get_or_intern(*text)?;
    }
    Ok(())
}
