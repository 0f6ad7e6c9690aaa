//! The tasks that neither are one of them nor stand behind it.

ghost use Rattle.std.specs.Prelude.{◌≡◌, ◌<◌, vec_len, length, replicate, false, slice_get, IfOk};
ghost use Rattle.std.specs.List.{All, list_all};
ghost use Rattle.dag_stays.specs.Unmoved as spec;
ghost use Rattle.dag_stays.specs.Unmoved.{AreApart};

use base_types::{List, Memory};
use std::alloc::Global;

/// Whether there is a mark on a position.
pub(crate) fn is_marked(marks: &[bool], place: usize) -> bool
    ensures { result ≡ spec.is_marked marks.now place }
{
    match marks.get(place) {
        Some(mark) => *mark,
        None => false,
    }
}

/// Whether there are marks on all these positions.
pub(crate) fn all_marked(marks: &[bool], places: &[usize]) -> bool
    ensures { result ≡ list_all (spec.is_marked marks.now) places.now }
{
    for i in 0..places.len() {
        if !is_marked(marks, places[i]) {
            return false;
        }
    }
    true
}

fn no_marks(alloc: Global, count: usize) -> Result<Vec<bool>, Memory>
    ensures long { IfOk result (λ marks. vec_len marks ≡ count) }
    ensures none { IfOk result (λ marks. marks.items ≡ replicate count false) }
{
    let mut marks = Vec::with_capacity(alloc, count)?;
    for _ in 0..count {
        marks.push(false)?;
    }
    Ok(marks)
}

// A mark on the task at position `i`, if it is not this one and what it waits for is marked.
fn mark_one(marks: &mut Vec<bool>, rows: &[List<usize>], j: usize, i: usize)
    requires long { vec_len marks.old ≡ length rows.now }
    requires place { i < length rows.now }
    requires apart { AreApart rows.now j marks.old.items }
    ensures long { vec_len marks.new ≡ length rows.now }
    ensures apart { AreApart rows.now j marks.new.items }
{
    if i == j {
        return;
    }
    if !all_marked(marks.as_slice(), rows[i].as_slice()) {
        return;
    }
    marks[i] = true;
}

/// Marks on the tasks that neither are the one at position `j` nor stand behind it, where each is gone through behind those
/// that it waits for.
pub(crate) fn unmoved(
    alloc: Global,
    rows: &[List<usize>],
    order: &[usize],
    j: usize,
) -> Result<List<bool>, Memory>
    requires within { All (λ p. p < length rows.now) order.now }
    ensures { IfOk result (λ marks. AreApart rows.now j marks) }
{
    let mut marks = no_marks(alloc, rows.len())?;
    for k in 0..order.len() {
        mark_one(&mut marks, rows, j, order[k]);
    }
    Ok(List::from_vec(marks))
}
