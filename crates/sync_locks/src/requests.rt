//! The requests of a book, and the looks for some of them.

ghost use Rattle.std.specs.Prelude.{◌≡◌, ◌<◌, ◌≤◌, length, List, [], ◌∷◌, ◌++◌, IfOk, OnOk, OnErr, MatchOption, option_map, Some, true, false, nat_lt, slice_get, slice_set};
ghost use Rattle.std.specs.List.{find, list_any};
ghost use Rattle.books.specs.declared.Request.{Request};
ghost use Rattle.books.specs.Books as books;
ghost use Rattle.books.specs.Laws as laws;
ghost use Rattle.buckets.specs.Buckets.{buckets};
ghost use Rattle.sync_locks.specs.Book.{state_in, is_held, is_of_workflow, is_where, is_held_where, has_many_holders, may_hold, key_by, standing_of};
ghost use Rattle.sync_locks.specs.Book as book;
ghost use Rattle.sync_locks.specs.Inside.Holders.{is_there, holding_with};
ghost use Rattle.sync_locks.specs.Inside.Queues as queues;
ghost use Rattle.sync_locks.specs.Inside.Rows as rows;
ghost use Rattle.sync_locks.specs.Inside.Tables.{places_of};

use crate::asked::Asked;
use crate::bucket::bucket_of;
use crate::holder::{Holder, holder_at};
use crate::pieces::Pieces;
use crate::question::PathTest;
use crate::queue::{count_for, first_for, position_of, turn_for};
use base_types::{Memory, Text, TryCopy};
use books::{LockState, laws};
use buckets::BUCKETS;
use sharing::{Row, SharedList};
use std::alloc::Global;
use std::marker::Model;
use tree_types::{HolderKey, LockId, Path};

// So many holders at most are looked at one by one, which costs less than to look for one request.
const FEW: usize = 32;

// How many states and places a piece of their lists has at most: somewhat less than a thousand bytes.
const STATES: usize = 960;

const WAITING: usize = 240;

// The places of the requests whose keys belong to one bucket, in order.
type Bucket = Row<u64>;

// The requests in order of filing, their places by keys, those that hold a lock, in any order, and the places of those that
// wait, in the order in which they go. Copies share all but those that hold, of which they move eight bytes each.
#[derive(Drop)]
pub(crate) struct Requests {
    asked: SharedList<Asked>,
    states: Pieces<LockState>,
    table: SharedList<Bucket>,
    holding: Vec<Holder>,
    waiting: Pieces<u32>,
}

impl Model for Requests {
    ghost use Rattle.std.specs.Prelude.{List};
    ghost use Rattle.books.specs.declared.Request.{Request};
    ghost use Rattle.sync_locks.specs.Inside.Rows.{requests_in};
    ghost use Rattle.sync_locks.specs.Inside.Holders.{IsStored};

    ghost Value = { List Request };

    ghost view = { λ all. requests_in all.asked all.states };

    ghost invariant = { λ all. IsStored all.asked all.states all.table all.holding.items all.waiting };
}

impl Requests {
    pub(crate) fn new(alloc: Global) -> Result<Requests, Memory>
        ensures { IfOk result (λ all. all ≡ []) }
    {
        let empty = Row::new(alloc)?;
        Ok(Requests {
            asked: SharedList::new(alloc)?,
            states: Pieces::new(alloc, STATES)?,
            table: SharedList::filled(alloc, empty, BUCKETS)?,
            holding: Vec::new(alloc),
            waiting: Pieces::new(alloc, WAITING)?,
        })
    }

    // The same requests, which share what was asked for.
    pub(crate) fn share(&self) -> Result<Requests, Memory>
        ensures { IfOk result (λ all. all ≡ self.now) }
    {
        Ok(Requests {
            asked: self.asked.share()?,
            states: self.states.share()?,
            table: self.table.share()?,
            holding: copied(&self.holding)?,
            waiting: self.waiting.share()?,
        })
    }

    // Adds a request at the end.
    pub(crate) fn add(&mut self, asked: Asked, state: LockState) -> Result<(), Memory>
        ensures ok { OnOk result (self.new ≡ self.old ++ rows.request_of asked state ∷ []) }
        ensures err { OnErr result (self.new ≡ self.old) }
    {
        laws::orders_ranks();
        let place = short(self.len())?;
        let key = bucket_of(&asked.key.workflow, &asked.key.path);
        let turn = turn_for(&self.asked, &self.waiting, &asked.rank);
        let bucket = self.bucket(key).copy()?;
        let table = with_place(&self.table, key, bucket, place)?;
        let all = with_asked(&self.asked, asked)?;
        let states = self.states.with(place as usize, state)?;
        let new = Holder {
            place,
            bucket: key as u32,
        };
        let waiting = waiting_with(&self.waiting, state, turn, place)?;
        hold_new(&mut self.holding, state, new)?;
        self.asked = all;
        self.states = states;
        self.table = table;
        self.waiting = waiting;
        Ok(())
    }

    fn len(&self) -> usize
        ensures { result ≡ length self.now }
    {
        self.states.len()
    }

    fn bucket(&self, bucket: usize) -> &Bucket
        requires { bucket < buckets }
        ensures { result.now ≡ places_of bucket self.now }
    {
        self.table.get(bucket).unwrap()
    }

    fn asked(&self, place: usize) -> &Asked
        requires { place < length self.now }
        ensures { Some result.now ≡ option_map rows.asked_of (slice_get self.now place) }
    {
        self.asked.get(place).unwrap()
    }

    fn state(&self, place: usize) -> LockState
        requires { place < length self.now }
        ensures { Some result ≡ option_map rows.state_of (slice_get self.now place) }
    {
        self.states.get(place).unwrap()
    }

    // Whether the request at a place is of the key of these parts.
    pub(crate) fn is_by(&self, place: usize, workflow: &Text, path: &Path) -> bool
        ensures { result ≡ rows.is_at (laws.is_of (key_by workflow.now path.now)) self.now place }
    {
        match self.asked.get(place) {
            None => false,
            Some(asked) => asked.is_by(workflow, path),
        }
    }

    // The first place in a bucket whose request is of the key of these parts.
    fn find_in(&self, bucket: &Bucket, workflow: &Text, path: &Path) -> Option<usize>
        ensures { result ≡ find (rows.is_at (laws.is_of (key_by workflow.now path.now)) self.now) bucket.now }
    {
        for i in 0..bucket.len() {
            let place = *bucket.get(i).unwrap() as usize;
            if self.is_by(place, workflow, path) {
                return Some(place);
            }
        }
        None
    }

    // Where the request of the key of these parts stands.
    pub(crate) fn find(&self, workflow: &Text, path: &Path) -> Option<usize>
        ensures { result ≡ book.place (laws.is_of (key_by workflow.now path.now)) self.now }
    {
        self.find_in(self.bucket(bucket_of(workflow, path)), workflow, path)
    }

    // How the request of a key stands.
    pub(crate) fn state_in(&self, key: &HolderKey) -> Option<LockState>
        ensures { result ≡ state_in key.now self.now }
    {
        match self.find(&key.workflow, &key.path) {
            None => None,
            Some(place) => Some(self.state(place)),
        }
    }

    // Whether one of these has this bucket, and its request is of the key of these parts.
    fn is_among(&self, holders: &[Holder], bucket: usize, workflow: &Text, path: &Path) -> bool
        ensures { result ≡ list_any (is_there bucket (laws.is_of (key_by workflow.now path.now)) self.now) holders.now }
    {
        for holder in holders {
            if holder.bucket as usize == bucket
                && self.is_by(holder.place as usize, workflow, path)
            {
                return true;
            }
        }
        false
    }

    // Whether more requests hold their locks than are looked at one by one.
    pub(crate) fn has_many_holders(&self) -> bool
        ensures { result ≡ has_many_holders self.now }
    {
        self.holding.len() > FEW
    }

    // Whether the request of the key of these parts holds its lock. Where few hold, these alone are looked at.
    pub(crate) fn holds(&self, workflow: &Text, path: &Path) -> bool
        requires { laws.KeysDiffer self.now }
        ensures { result ≡ is_held (key_by workflow.now path.now) self.now }
    {
        if !self.has_many_holders() {
            let bucket = bucket_of(workflow, path);
            return self.is_among(self.holding.as_slice(), bucket, workflow, path);
        }
        match self.find(workflow, path) {
            None => false,
            Some(place) => matches!(self.state(place), LockState::Holding),
        }
    }

    // Whether the request of one of these is of a workflow.
    fn has_of(&self, holders: &[Holder], workflow: &Text) -> bool
        ensures { result ≡ list_any (λ (h : Holder). rows.is_at (is_of_workflow workflow.now) self.now h.place) holders.now }
    {
        for holder in holders {
            if self.is_of(holder.place as usize, workflow) {
                return true;
            }
        }
        false
    }

    // Whether the request at a place is of a workflow.
    fn is_of(&self, place: usize, workflow: &Text) -> bool
        ensures { result ≡ rows.is_at (is_of_workflow workflow.now) self.now place }
    {
        match self.asked.get(place) {
            None => false,
            Some(asked) => *workflow == asked.key.workflow,
        }
    }

    // Whether a request of a workflow holds its lock, or more hold than are looked at.
    pub(crate) fn may_hold(&self, workflow: &Text) -> bool
        ensures { result ≡ may_hold workflow.now self.now }
    {
        self.has_many_holders() || self.has_of(self.holding.as_slice(), workflow)
    }

    // The path of the request at a place, where this is of a workflow and the path passes.
    fn path_where<T: PathTest>(&self, place: usize, workflow: &Text, test: &T) -> Option<&Path>
        ensures { MatchOption result
            (rows.is_at (is_where workflow.now (T.accepts test.now)) self.now place ≡ false)
            (λ path. (r : Request) × (slice_get self.now place ≡ Some r) × (r.key ≡ key_by workflow.now path.now)
            × (T.accepts test.now path.now ≡ true)) }
    {
        match self.asked.get(place) {
            None => None,
            Some(asked) => {
                if *workflow != asked.key.workflow {
                    return None;
                }
                if test.accepts(&asked.key.path) {
                    Some(&asked.key.path)
                } else {
                    None
                }
            }
        }
    }

    // A path of a workflow that passes and holds its lock. All that hold are looked at.
    pub(crate) fn find_held<T: PathTest>(&self, workflow: &Text, test: &T) -> Option<&Path>
        requires { laws.KeysDiffer self.now }
        ensures { MatchOption result
            (is_held_where workflow.now (T.accepts test.now) self.now ≡ false)
            (λ path. (is_held (key_by workflow.now path.now) self.now ≡ true) × (T.accepts test.now path.now ≡ true)) }
    {
        for holder in &self.holding {
            if let Some(path) = self.path_where(holder.place as usize, workflow, test) {
                return Some(path);
            }
        }
        None
    }

    // Which lock the key of these parts asked for, and how its request stands.
    pub(crate) fn standing_of(&self, workflow: &Text, path: &Path) -> Option<(&LockId, LockState)>
        ensures { option_map (λ s. (s.0.now, s.1)) result ≡ standing_of (key_by workflow.now path.now) self.now }
    {
        match self.find(workflow, path) {
            None => None,
            Some(place) => Some((&self.asked(place).lock, self.state(place))),
        }
    }

    // How many hold a lock.
    pub(crate) fn holders_of(&self, lock: &LockId) -> u64
        ensures { result ≡ books.holders lock.now.text self.now }
    {
        count_for(&self.asked, self.holding.as_slice(), lock)
    }

    // Releases the lock that a request holds, which goes to the first of its waiters, if there is one.
    pub(crate) fn release(&mut self, place: usize) -> Result<(), Memory>
        requires { option_map rows.state_of (slice_get self.old place) ≡ Some LockState.Holding }
        ensures ok { OnOk result ((r : Request) → slice_get self.old place ≡ Some r
            → self.new ≡ laws.passed_on r.lock.text (slice_set self.old place (books.released r))) }
        ensures err { OnErr result (self.new ≡ self.old) }
    {
        laws::orders_ranks();
        let held = position_of(self.holding.as_slice(), place).unwrap();
        let next = first_for(&self.asked, &self.waiting, &self.asked(place).lock);
        match next {
            None => {
                let states = self.states.with_set(place, LockState::Released)?;
                self.holding.remove(held);
                self.states = states;
            }
            Some(turn) => {
                let first = self.waiting.get(turn).unwrap();
                let waiting = self.waiting.without(turn)?;
                let freed = self.states.with_set(place, LockState::Released)?;
                let states = freed.with_set(first as usize, LockState::Holding)?;
                // The new holder takes the place of the old one.
                self.holding[held] = holder_at(&self.asked, first);
                self.states = states;
                self.waiting = waiting;
            }
        }
        Ok(())
    }

    // Where the request of a key stands, if it holds its lock.
    pub(crate) fn holder_of(&self, key: &HolderKey) -> Option<usize>
        ensures { MatchOption result
            (¬ (state_in key.now self.now ≡ Some LockState.Holding))
            (λ i. (book.place (laws.is_of key.now) self.now ≡ Some i)
            × (state_in key.now self.now ≡ Some LockState.Holding)) }
    {
        match self.find(&key.workflow, &key.path) {
            None => None,
            Some(place) => {
                if matches!(self.state(place), LockState::Holding) {
                    Some(place)
                } else {
                    None
                }
            }
        }
    }
}

// The same items. A clone of a vector takes its items one by one, which was a fifth of what a book's copy costs; this moves
// them at once. There is room for one more: a copy is made to file a request in it, which moves nothing again.
fn copied<T: Copy>(items: &Vec<T>) -> Result<Vec<T>, Memory>
    ensures { IfOk result (λ copy. copy.items ≡ items.now.items) }
{
    let room = items.len().saturating_add(1);
    let mut copy = Vec::with_capacity(*items.allocator(), room)?;
    copy.extend_from_slice(items.as_slice())?;
    Ok(copy)
}

// The same place in 32 bits. There is no memory for requests whose places do not fit.
fn short(place: usize) -> Result<u32, Memory>
    ensures { IfOk result (λ short. short ≡ place) }
{
    match u32::try_from(place) {
        Ok(place) => Ok(place),
        Err(_) => Err(Memory),
    }
}

// The table with one place more at the end of a bucket.
fn with_place(
    table: &SharedList<Bucket>,
    key: usize,
    bucket: Bucket,
    place: u32,
) -> Result<SharedList<Bucket>, Memory>
    requires { key < length table.now }
    ensures { IfOk result (λ t. t ≡ slice_set table.now key (bucket ++ place ∷ [])) }
{
    let mut bucket = bucket;
    bucket.push(place as u64)?;
    let mut table = table.share()?;
    table.set(key, bucket)?;
    Ok(table)
}

fn with_asked(all: &SharedList<Asked>, asked: Asked) -> Result<SharedList<Asked>, Memory>
    ensures { IfOk result (λ a. a ≡ all.now ++ asked ∷ []) }
{
    let mut all = all.share()?;
    all.push(asked)?;
    Ok(all)
}

// Lists a new request behind all holders, if it holds.
fn hold_new(holding: &mut Vec<Holder>, state: LockState, new: Holder) -> Result<(), Memory>
    ensures ok { OnOk result (holding.new.items ≡ holding_with state new holding.old.items) }
    ensures err { OnErr result (holding.new.items ≡ holding.old.items) }
{
    match state {
        LockState::Holding => holding.push(new)?,
        LockState::Waiting | LockState::Released => {}
    }
    Ok(())
}

// Those that wait, and a new request at its turn among them, if it waits.
fn waiting_with(
    waiting: &Pieces<u32>,
    state: LockState,
    turn: usize,
    place: u32,
) -> Result<Pieces<u32>, Memory>
    requires { turn ≤ length waiting.now }
    ensures { IfOk result (λ new. new ≡ queues.waiting_with state place turn waiting.now) }
{
    match state {
        LockState::Waiting => waiting.with(turn, place),
        LockState::Holding | LockState::Released => waiting.share(),
    }
}

// How a new request stands.
pub(crate) fn new_state(holders: u64, limit: u64) -> LockState
    ensures { result ≡ rows.state_by (nat_lt holders limit) }
{
    if holders < limit {
        LockState::Holding
    } else {
        LockState::Waiting
    }
}
