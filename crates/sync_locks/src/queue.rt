//! Looks into lists of holders and of places: which of them are for a lock, and where a new waiter goes.

ghost use Rattle.std.specs.Prelude.{◌≡◌, ℕ, ◌<◌, ◌≤◌, ◌==◌, true, false, not, length, MatchOption};
ghost use Rattle.std.specs.List.{AllWithin, HoldsAt, count_by};
ghost use Rattle.std.specs.List.Sorted.{IsPartitionedBy, IsPartitionPoint};
ghost use Rattle.sync_locks.specs.Inside.Queues as queues;

use crate::asked::Asked;
use crate::holder::Holder;
use crate::pieces::Pieces;
use crate::ranking::is_before;
use base_types::Shared;
use sharing::SharedList;
use tree_types::{LockId, Rank};

// Whether the request at a place is for a lock.
fn is_for(asked: &SharedList<Asked>, place: usize, lock: &LockId) -> bool
    ensures { result ≡ queues.is_for lock.now.text asked.now place }
{
    match asked.get(place) {
        None => false,
        Some(asked) => asked.lock.text == lock.text,
    }
}

// How many of these hold a lock.
pub(crate) fn count_for(asked: &SharedList<Asked>, holders: &[Holder], lock: &LockId) -> u64
    ensures { result ≡ count_by (λ (h : Holder). queues.is_for lock.now.text asked.now h.place) holders.now }
{
    let mut count = 0u64;
    for holder in holders {
        if is_for(asked, holder.place as usize, lock) {
            count += 1;
        }
    }
    count
}

// Which of those that wait is the first for a lock.
pub(crate) fn first_for(
    asked: &SharedList<Asked>,
    waiting: &Pieces<u32>,
    lock: &LockId,
) -> Option<usize>
    ensures { MatchOption result
        (AllWithin (λ p. queues.is_for lock.now.text asked.now p ≡ false) waiting.now 0 (length waiting.now))
        (λ turn. (turn < length waiting.now)
        × HoldsAt (λ p. queues.is_for lock.now.text asked.now p ≡ true) waiting.now turn
        × AllWithin (λ p. queues.is_for lock.now.text asked.now p ≡ false) waiting.now 0 turn) }
{
    for turn in 0..waiting.len() {
        let place = waiting.get(turn).unwrap();
        if is_for(asked, place as usize, lock) {
            return Some(turn);
        }
    }
    None
}

// Which of these stands at a place.
pub(crate) fn position_of(holders: &[Holder], place: usize) -> Option<usize>
    ensures { MatchOption result
        (AllWithin (λ (h : Holder). (h.place == place) ≡ false) holders.now 0 (length holders.now))
        (λ i. (i < length holders.now) × HoldsAt (λ (h : Holder). (h.place == place) ≡ true) holders.now i) }
{
    for i in 0..holders.len() {
        if holders[i].place as usize == place {
            return Some(i);
        }
    }
    None
}

// Whether a rank goes before that of the request at a place.
fn overtakes(rank: &Shared<Rank>, asked: &SharedList<Asked>, place: usize) -> bool
    ensures { result ≡ queues.overtakes rank.now asked.now place }
{
    match asked.get(place) {
        None => false,
        Some(asked) => is_before(rank.value(), asked.rank.value()),
    }
}

// The turn of a new waiter, before all that rank behind it.
pub(crate) fn turn_for(
    asked: &SharedList<Asked>,
    waiting: &Pieces<u32>,
    rank: &Shared<Rank>,
) -> usize
    ensures bound { result ≤ length waiting.now }
    ensures parted { IsPartitionedBy (λ p. not (queues.overtakes rank.now asked.now p)) waiting.now
        → IsPartitionPoint (λ p. not (queues.overtakes rank.now asked.now p) ≡ true)
        (λ p. not (queues.overtakes rank.now asked.now p) ≡ false) waiting.now result }
{
    let mut low = 0;
    let mut high = waiting.len();
    while low < high {
        let middle = low + (high - low) / 2;
        let place = waiting.get(middle).unwrap();
        if overtakes(rank, asked, place as usize) {
            high = middle;
        } else {
            low = middle + 1;
        }
    }
    low
}
