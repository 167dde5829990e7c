//! The step that adds a bucket to a history, and hands in the right to its bytes that are not taken. Used by the spine.
ghost use Rattle.std.specs.Prelude.{◌≡◌, ◌≢◌, ◌+◌, ◌<◌, ◌≤◌, ◌^◌, ◌∷◌, [], Some, IfSome, IsNone};
ghost use Rattle.lasso_log.specs.Bids.{IsSameBid, IsTried, Serves};
ghost use Rattle.lasso_log.specs.Buckets.{bucket_size};
ghost use Rattle.lasso_log.specs.Charges.{IsTurnedBy};
ghost use Rattle.lasso_log.specs.History.{Charge};
ghost use Rattle.lasso_log.specs.LentBuckets.{LentBucket};
ghost use Rattle.lasso_log.specs.NewBuckets.{IsSharedAs};
ghost use Rattle.lasso_log.specs.Notes.{Since, state};
ghost use Rattle.lasso_log.specs.SharedBuckets.{SharedView, IsNoteOf};
ghost use Rattle.lasso_log.specs.Chunks.{era_named};
ghost use Rattle.lasso_log.specs.Turns.{NoneHasRoom};
ghost use Rattle.lasso_log.specs.Views.{PassView, InternerId, TurnsView, IsSamePass};

use crate::chunks::rule::BytesTaken;
use crate::chunks::taking::add_bucket;
use crate::log::book::note::Note;
use crate::log::book::proposals::BucketAsked;
use crate::log::book::rule::{Add, LogRule, Shared};
use crate::log::buckets::SharedBucket;
use crate::log::pass::Pass;
use crate::log::shared_log::Log;
use crate::log::spine::turns::Turns;
use crate::shared_memory::new_bucket::NewBucket;
use lasso_parts::keys::Key;
use logbook::{Offer, Pen, Seen};

/// What a pass needs to add a bucket: the log that it has seen, the offer, and its ticket's pen.
#[derive(Drop)]
struct Bid<K: Key> {
    seen: Seen<Note, u64, LogRule<K>>,
    offer: Offer<Note, u64, LogRule<K>, BytesTaken<Shared<K>>>,
    pen: Pen,
}

impl<K: Key> Log<K> {
    // Adds the offered note if the turn word has this value, and returns whether it did. If not, the returned bid is still
    // good. The contract alone reads `before` and `given`: the offer was made for these two states.
    fn offer_once(
        &self,
        turns: u64,
        before: &Seen<Note, u64, LogRule<K>>,
        given: &Seen<Note, u64, LogRule<K>>,
        bid: Bid<K>,
    ) -> (Bid<K>, bool)
        requires of { bid.seen.book ≡ self.now.book }
        requires sum { turns + 1 < 2 ^ 64 }
        requires bid { Serves K.key_at before.now.log given.now.log turns bid }
        ensures same { IsSameBid bid result.0 }
        ensures done { IsTried K.key_at before.now.log given.now.log turns bid result.1 result.0 }
    {
        let Bid {
            mut seen,
            mut offer,
            mut pen,
        } = bid;
        let found = self
            .turns
            .compare_exchange::<Add<K>, BytesTaken<Shared<K>>>(
                turns,
                turns + 1,
                &mut seen,
                &mut offer,
                &mut pen,
            );
        (Bid { seen, offer, pen }, found == turns)
    }

    /// Adds a bucket by one exchange of the turn word. The book has the right to its bytes that are not taken
    /// from then on. None of the buckets that the turns know has room for the bytes that are taken. It returns
    /// `None` if the turn word has another value than theirs, and adds no event then.
    pub(super) fn add_new(
        &self,
        turns: &Turns<K>,
        bucket: NewBucket,
        pass: &mut Pass<K>,
    ) -> Option<SharedBucket<K>>
        requires of { (pass.old.of ≡ self.now) × (turns.now.of ≡ self.now) }
        requires era { bucket.site.era ≡ era_named self.now.chunks }
        requires some { bucket.used ≢ 0 }
        requires room { NoneHasRoom (state self.now.opening pass.old.notes) turns.now.count bucket.used }
        requires size { bucket_size turns.now.doubling turns.now.usage turns.now.limit bucket.used ≡ Some bucket.size }
        requires within { turns.now.usage + bucket.size ≤ turns.now.limit }
        requires more { (turns.now.turns + 1 < 2 ^ 64) × (turns.now.count + 2 < 2 ^ 64) }
        ensures same { IsSamePass pass.new pass.old }
        ensures event { IfSome result (λ b. Since pass.old.number pass.old.notes pass.new.notes (Charge bucket.size bucket.used ∷ [])) }
        ensures note { IfSome result (λ b. IsNoteOf pass.old.number pass.new.notes (Charge bucket.size bucket.used) bucket.site) }
        ensures bucket { IfSome result (IsSharedAs self.now turns.now.count bucket 0) }
        ensures turns { IfSome result (λ b. IsTurnedBy K.key_at self.now.opening pass.new.notes turns.now bucket) }
        ensures busy { IsNone result → pass.new ≡ pass.old }
    {
        let NewBucket {
            ptr,
            size,
            taken,
            site,
            right,
        } = bucket;
        let next = self.next_ticket(pass);
        let mut seen = self.seen.again();
        seen.learn(&turns.seen);
        seen.learn(&pass.seen);
        let given = seen.again();
        pass.ticket.set(taken as u64);
        let about = BucketAsked {
            size: size as u64,
            bytes: taken as u64,
            site: &site,
            number: &pass.number,
            ticket: &pass.ticket,
            next: &next,
        };
        let offer = add_bucket::<_, _, _, _, BucketAsked<'_, K>, Add<K>>(&seen, &about, right);
        let pen = std::mem::replace(&mut pass.ticket.pen, seen.no_pen());
        let before = pass.seen.again();
        let bid = Bid { seen, offer, pen };
        let (tried, done) = self.offer_once(turns.turns, &before, &given, bid);
        let Bid {
            seen: after,
            offer: _,
            pen,
        } = tried;
        if done {
            let word = pass.ticket.use_up(next);
            pass.seen = after;
            return Some(SharedBucket {
                word,
                ptr,
                size: size as u64,
                base: 0,
                position: turns.count,
                site,
                seen: pass.seen.again(),
            });
        }
        pass.ticket.take_back(pen);
        None
    }
}
