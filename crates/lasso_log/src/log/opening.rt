//! The opening of a log. Used by the makers of interners.
ghost use Rattle.std.specs.Prelude.{◌≡◌, ◌≢◌, ◌+◌, ◌<◌, [], ◌∷◌, ◌++◌, length, IfOk, IfErr, OnOk, OnErr, IfSome, IfNone};
ghost use base.Fml.{Incl};
ghost use Rattle.lasso_parts.specs.declared.util.LassoErrorKind.TheVariants.{FailedAllocation};
ghost use Rattle.lasso_parts.specs.Texts.{IsDistinct, Fits};
ghost use Rattle.lasso_log.specs.Eras.{life};
ghost use Rattle.lasso_log.specs.History.{opened};
ghost use Rattle.lasso_log.specs.LentBuckets.{LentBucket};
ghost use Rattle.lasso_log.specs.NewBuckets.{TakesNext, IsSharedAs};
ghost use Rattle.lasso_log.specs.Openings.{OpeningView, opening_with};
ghost use Rattle.lasso_log.specs.SharedBuckets.{SharedView};
ghost use Rattle.lasso_log.specs.Views.{InternerId, SpineView};

mod new_book;

use crate::chunks::facts::Lines;
use crate::chunks::{Chunk, Chunks};
use crate::log::book::rule::StoredText;
use crate::log::buckets::SharedBucket;
use crate::log::memory::TextMemory;
use crate::log::opening::new_book::{First, NewBook};
use crate::log::shared_log::Log;
use crate::log::spine::Spine;
use crate::shared_memory::era::Era;
use crate::shared_memory::holding::Holdings;
use crate::shared_memory::new_bucket::NewBucket;
use crate::shared_memory::piece::Piece;
use lasso_lock::locks::TaggedMutex;
use lasso_parts::keys::Key;
use lasso_parts::util::LassoResult;
use std::alloc::{AllocError, Global};
use std::marker::Model;

/// What an interner opens with, apart from its texts: the bytes of its first bucket, and the most bytes that
/// all buckets may take.
#[derive(Clone, Copy)]
pub struct Opened {
    pub size: u64,
    pub limit: u64,
}

/// The texts that an interner opens with, in the order of their keys, and the bucket that the copied ones of them are in.
/// Their cells are filled before there is a log. A contract sees the texts and the bucket.
#[derive(Drop)]
pub struct OpeningTexts {
    memory: TextMemory,
    len: u64,
    // Both show that the cells are filled, and have no bytes. The book takes `lines`; its first note records `known`.
    lines: Lines<StoredText, Chunk<StoredText>>,
    known: Lines<StoredText, Chunk<StoredText>>,
    bucket: NewBucket,
}

impl Model for OpeningTexts {
    ghost use Rattle.lasso_log.specs.Openings.{OpeningView, opening_view_coded};
    ghost use Rattle.lasso_log.specs.Parts.{AreOpeningTexts};

    ghost Value = { OpeningView };

    ghost coded = { opening_view_coded };

    ghost view = { λ t. record { texts = t.lines.texts; bucket = t.bucket } };

    ghost invariant = { λ t. AreOpeningTexts t.memory t.lines.names t.lines.texts t.known.names t.known.texts t.len t.bucket };
}

impl OpeningTexts {
    /// No text, and an empty bucket of `size` bytes, at least one. It fails only out of memory
    /// (`FailedAllocation`).
    pub fn new(alloc: Global, size: usize) -> LassoResult<OpeningTexts>
        requires { size ≢ 0 }
        ensures texts { IfOk result (λ t. t.texts ≡ []) }
        ensures bucket { IfOk result (λ t. (t.bucket.size ≡ size) × (t.bucket.used ≡ 0)) }
        ensures refused { IfErr result (λ error. error ≡ FailedAllocation) }
    {
        let chunks = Chunks::new(alloc, Piece::from_static(""))?;
        let mut holdings = Holdings::new(alloc);
        let made = NewBucket::with_capacity(alloc, chunks.era(), &mut holdings, size);
        let bucket = match made {
            Ok(bucket) => bucket,
            Err(error) => {
                holdings.close(&chunks.end());
                return Err(error);
            }
        };
        let holdings = TaggedMutex::new(holdings, chunks.era());
        let lines = chunks.lines();
        let known = chunks.lines();
        Ok(OpeningTexts {
            memory: TextMemory { chunks, holdings },
            len: 0,
            lines,
            known,
            bucket,
        })
    }

    /// Copies a text after the ones copied before. It returns `None` only if the text does not fit, and
    /// changes nothing then.
    pub fn copy_in(&mut self, text: &str) -> Option<Piece>
        ensures piece { IfSome result (λ p. (p.text ≡ text.now) × (p.until ≡ life self.old.bucket.site.era)) }
        ensures texts { self.new.texts ≡ self.old.texts }
        ensures bucket { IfSome result (λ p. TakesNext self.old.bucket self.new.bucket (length text.now)) }
        ensures none { IfNone result ((self.new.bucket ≡ self.old.bucket) × (self.old.bucket.size < self.old.bucket.used + length text.now)) }
    {
        let range = self.bucket.reserve(text.len())?;
        Some(range.fill(self.memory.chunks.era(), text))
    }

    /// Appends a text, which must stay where it is as long as the era. It fails only out of memory, which it
    /// also returns for position 2^64 - 1. Nothing changes then.
    pub fn push(&mut self, alloc: Global, text: Piece) -> Result<(), AllocError>
        requires { Incl (life self.old.bucket.site.era) text.until }
        ensures texts { OnOk result (self.new.texts ≡ self.old.texts ++ text.text ∷ []) }
        ensures bucket { self.new.bucket ≡ self.old.bucket }
        ensures err { OnErr result (self.new.texts ≡ self.old.texts) }
    {
        if self.len == u64::MAX {
            return Err(AllocError);
        }
        self.memory.chunks.make_chunk(alloc, self.len)?;
        // Nobody else has the chunks, so the cell is free.
        let Ok((chunk, item)) = self.memory.chunks.try_fill(self.len, text) else {
            return Err(AllocError);
        };
        self.lines.push(&chunk, &item);
        self.known.push(&chunk, &item);
        self.len += 1;
        Ok(())
    }
}

/// What a new log comes with: its spine, and its first bucket.
#[derive(Drop)]
pub struct NewLog<K: Key> {
    pub log: Log<K>,
    pub spine: Spine<K>,
    pub bucket: SharedBucket<K>,
}

impl<K: Key> Log<K> {
    /// The log of a new interner that has no text, and its spine. The first bucket's size is not 0. It fails
    /// only out of memory (`FailedAllocation`).
    pub fn open(alloc: Global, first: Opened) -> LassoResult<(Log<K>, Spine<K>)>
        requires { first.size ≢ 0 }
        // On success it opens with no text, one empty bucket and this limit. The spine has seen no event, nor any turn, and keeps no cell.
        ensures opening { IfOk result (λ r. r.0.opening ≡ opened [] first.size 0 first.limit) }
        ensures spine { IfOk result (λ r. (r.1.of ≡ r.0) × (r.1.notes ≡ []) × (r.1.kept ≡ 0)) }
        ensures turns { IfOk result (λ r. (r.1.turns.of ≡ r.0) × (r.1.turns.notes ≡ []) × (r.1.turns.count ≡ 1)) }

        // On failure memory ran out.
        ensures refused { IfErr result (λ error. error ≡ FailedAllocation) }
    {
        let texts = OpeningTexts::new(alloc, first.size as usize)?;
        let NewLog {
            log,
            spine,
            bucket: _,
        } = Log::open_with(texts, first.limit);
        Ok((log, spine))
    }

    /// The log of a new interner that has these texts, which are distinct and fit the keys, and their bucket.
    /// It never fails, takes no memory, and does not wait.
    pub fn open_with(texts: OpeningTexts, limit: u64) -> NewLog<K>
        requires distinct { IsDistinct texts.texts }
        requires fits { Fits K.key_at (length texts.texts) }
        requires bucket { texts.bucket.size ≢ 0 }
        ensures opening { result.log.opening ≡ opening_with texts limit }
        ensures spine { (result.spine.of ≡ result.log) × (result.spine.notes ≡ []) × (result.spine.kept ≡ 0) }
        ensures turns { (result.spine.turns.of ≡ result.log) × (result.spine.turns.notes ≡ []) × (result.spine.turns.count ≡ 1) }
        ensures bucket { IsSharedAs result.log 0 texts.bucket texts.bucket.used result.bucket }
    {
        let NewBucket {
            ptr,
            size,
            taken,
            site,
            right,
        } = texts.bucket;
        let (size, base) = (size as u64, taken as u64);
        let (lines, known) = (texts.lines, texts.known);
        let first = First {
            size,
            used: base,
            limit,
            site: &site,
            known: &known,
        };
        let book = NewBook::open(&first, lines, right);
        let spine = book.spine(&first, texts.len);
        let bucket = SharedBucket {
            word: book.bucket,
            ptr,
            size,
            base,
            position: 0,
            site,
            seen: book.seen.again(),
        };
        let log = Log {
            padding_before: [0; 8],
            head: book.head,
            padding_after: [0; 8],
            turns: book.turns,
            memory: texts.memory,
            first: texts.len,
            seen: book.seen,
        };
        NewLog { log, spine, bucket }
    }
}
