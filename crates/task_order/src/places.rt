//! Sets of places, a bit for each.

ghost use Rattle.std.specs.Prelude.{◌≡◌, ◌==◌, ◌||◌, ◌↔◌, ℕ, ◌<◌, ◌≤◌, ◌+◌, ◌*◌, ◌/◌, false, length, vec_len, IfOk, IsTrue};
ghost use Rattle.std.specs.List.{All, list_any};
ghost use Rattle.task_order.specs.Orders.{row, AreWithin, Reaches, IsOrder};
ghost use Rattle.task_order.specs.Inside.Rows.{has, bits_of, HoldReached};

use base_types::{List, Memory};
use std::alloc::Global;

// The places of a word.
const WORD: usize = 64;

/// A set of places.
#[derive(Drop)]
pub(crate) struct Places {
    words: Vec<u64>,
}

impl Places {
    // No place, with room for those below a size.
    fn none(alloc: Global, size: usize) -> Result<Places, Memory>
        ensures long { IfOk result (λ set. vec_len set.words ≡ size / 64 + 1) }
        ensures none { IfOk result (λ set. (p : ℕ) → has set.words.items p ≡ false) }
    {
        let mut words = Vec::new(alloc);
        for _ in 0..size / WORD + 1 {
            words.push(0)?;
        }
        Ok(Places { words })
    }

    pub(crate) fn has(&self, place: usize) -> bool
        ensures { result ≡ has self.now.words.items place }
    {
        let word = place / WORD;
        word < self.words.len() && (self.words[word] >> (place % WORD)) & 1 == 1
    }

    fn add(&mut self, place: usize)
        requires { place / 64 < vec_len self.old.words }
        ensures long { vec_len self.new.words ≡ vec_len self.old.words }
        ensures added { (p : ℕ) → has self.new.words.items p ≡ ((p == place) || has self.old.words.items p) }
    {
        let word = place / WORD;
        self.words[word] |= 1 << (place % WORD);
    }

    // Adds the places of another set.
    fn add_all(&mut self, other: &Places)
        requires { vec_len self.old.words ≡ vec_len other.now.words }
        ensures long { vec_len self.new.words ≡ vec_len self.old.words }
        ensures added { (p : ℕ) →
            has self.new.words.items p ≡ (has self.old.words.items p || has other.now.words.items p) }
    {
        for i in 0..self.words.len() {
            self.words[i] |= other.words[i];
        }
    }
}

// The places of a row, and those that stand in their rows.
fn gathered(alloc: Global, rows: &[Places], waits: &[usize]) -> Result<Places, Memory>
    requires within { All (λ d. d < length rows.now) waits.now }
    requires long { All (λ set. vec_len set.words ≡ length rows.now / 64 + 1) rows.now }
    ensures long { IfOk result (λ set. vec_len set.words ≡ length rows.now / 64 + 1) }
    ensures gathers { IfOk result (λ set. (p : ℕ) → has set.words.items p
        ≡ list_any (λ d. (p == d) || has (bits_of rows.now d) p) waits.now) }
{
    let mut set = Places::none(alloc, rows.len())?;
    for i in 0..waits.len() {
        set.add_all(&rows[waits[i]]);
        set.add(waits[i]);
    }
    Ok(set)
}

fn empty_rows(alloc: Global, size: usize) -> Result<Vec<Places>, Memory>
    ensures size { IfOk result (λ rows. vec_len rows ≡ size) }
    ensures long { IfOk result (λ rows. All (λ set. vec_len set.words ≡ size / 64 + 1) rows.items) }
{
    let mut rows = Vec::with_capacity(alloc, size)?;
    for _ in 0..size {
        rows.push(Places::none(alloc, size)?)?;
    }
    Ok(rows)
}

/// For each place those that it reaches, where the places stand in this order.
pub(crate) fn places_waited_for(
    alloc: Global,
    waits: &[List<usize>],
    order: &[usize],
) -> Result<Vec<Places>, Memory>
    requires within { AreWithin waits.now }
    requires order { IsOrder waits.now order.now }
    ensures { IfOk result (λ rows. HoldReached waits.now rows.items) }
{
    let mut rows = empty_rows(alloc, waits.len())?;
    for k in 0..order.len() {
        let place = order[k];
        let set = gathered(alloc, rows.as_slice(), waits[place].as_slice())?;
        rows[place] = set;
    }
    Ok(rows)
}
