//! What a step asks to add to the log: a change that takes no bytes, bytes of a bucket, or a bucket. Used by the log's steps.
ghost use Rattle.std.specs.Prelude.{◌≡◌, MatchOption};
ghost use Rattle.lasso_log.specs.Events.{event_of, ready};
ghost use Rattle.lasso_log.specs.Exchanges.{IsInCell};
ghost use Rattle.lasso_log.specs.Proposals.{note_proposed};

use crate::chunks::Chunk;
use crate::chunks::facts::hand_in;
use crate::chunks::rule::NoGain;
use crate::log::book::note::{Change, Note};
use crate::log::book::rule::{Add, LogRule, StoredText};
use crate::log::pass::ticket::Ticket;
use boxcar::slot::Written;
use boxcar::tag::Tag;
use lasso_parts::keys::Key;
use logbook::{Offer, Plain, Seen};

/// A change that a pass asks for. `position` is that of an appended text.
#[derive(Drop)]
pub struct Proposal<'a, K: Key> {
    pub change: Change<'a>,
    pub position: u64,
    pub number: &'a Tag,
    pub ticket: &'a Ticket<K>,
    pub next: &'a Ticket<K>,
}

impl<'a, K: Key> Plain<Proposal<'a, K>, Note, u64> for Add<K> {
    ghost use Rattle.std.specs.Prelude.{Some};
    ghost use Rattle.lasso_log.specs.Proposals.{note_proposed};

    ghost ask = { λ w. note_proposed w };

    ghost state = { λ w. Some 0 };
}

/// Bytes of a bucket that a pass asks for. `site` says where the bucket is, and `used` how many bytes of it were taken.
#[derive(Drop)]
pub struct BytesAsked<'a, K: Key> {
    pub bucket: u64,
    pub bytes: u64,
    pub size: u64,
    pub used: u64,
    pub site: &'a Tag,
    pub number: &'a Tag,
    pub ticket: &'a Ticket<K>,
    pub next: &'a Ticket<K>,
}

impl<'a, K: Key> Plain<BytesAsked<'a, K>, Note, u64> for Add<K> {
    ghost use Rattle.std.specs.Prelude.{None};
    ghost use Rattle.lasso_log.specs.Proposals.{note_of_bytes};

    ghost ask = { λ a. note_of_bytes a };

    ghost state = { λ a. None };
}

/// A bucket that a pass asks for, of which `bytes` bytes are taken. `site` says where it is.
#[derive(Drop)]
pub struct BucketAsked<'a, K: Key> {
    pub size: u64,
    pub bytes: u64,
    pub site: &'a Tag,
    pub number: &'a Tag,
    pub ticket: &'a Ticket<K>,
    pub next: &'a Ticket<K>,
}

impl<'a, K: Key> Plain<BucketAsked<'a, K>, Note, u64> for Add<K> {
    ghost use Rattle.std.specs.Prelude.{None};
    ghost use Rattle.lasso_log.specs.Proposals.{note_of_bucket};

    ghost ask = { λ a. note_of_bucket a };

    ghost state = { λ a. None };
}

/// What shows that the cell of an appended text is filled with it: its chunk's fact and its own.
pub type CellProof = (Written<Chunk<StoredText>>, Written<StoredText>);

/// The update of a proposal, which hands in what shows that an appended text is in its cell.
pub fn offered<K: Key>(
    seen: Seen<Note, u64, LogRule<K>>,
    proposal: Proposal<'_, K>,
    cell_proof: Option<CellProof>,
) -> Offer<Note, u64, LogRule<K>, NoGain>
    requires cell_proof { MatchOption cell_proof (Unit {0})
        (λ f. IsInCell seen.names (event_of proposal.change) proposal.position f.0.of f.0.value.items f.1.of f.1.value) }
    ensures offer { (result.names ≡ seen.names) × (result.ask ≡ note_proposed proposal.entry) × (result.state ≡ ready cell_proof) }
{
    match cell_proof {
        Some((chunk, item)) => hand_in::<_, _, _, _, Proposal<'_, K>, Add<K>>(
            &seen, &chunk, &item, &proposal,
        ),
        None => seen.plain::<NoGain, Proposal<'_, K>, Add<K>>(&proposal),
    }
}
