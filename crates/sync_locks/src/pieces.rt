//! Lists in pieces that copies share.

ghost use Rattle.std.specs.Prelude.{◌≡◌, ◌<◌, ◌≤◌, ◌++◌, ◌∷◌, [], length, List, ℕ, IfOk, OnOk, slice_get, slice_set};
ghost use Rattle.std.specs.List.{insert, remove};
ghost use Rattle.sync_locks.specs.Inside.Pieces.{joined, put, taken, changed};

use base_types::Memory;
use std::alloc::Global;
use std::marker::Model;
use std::sync::Arc;

type Piece<T> = Arc<Vec<T>>;

// A list of small items in pieces that copies share: a change copies one piece, and the list of the pieces.
#[derive(Drop)]
pub(crate) struct Pieces<T> {
    pieces: Arc<Vec<Piece<T>>>,
    len: usize,
    // How many items a piece has at most. Pieces of a thousand bytes at most are found again at once by the allocator.
    room: usize,
}

impl<T> Model for Pieces<T> {
    ghost use Rattle.std.specs.Prelude.{◌≡◌, List, length};
    ghost use Rattle.sync_locks.specs.Inside.Pieces.{joined};

    ghost Value = { List T };

    ghost view = { λ list. joined list.pieces.value.items };

    ghost invariant = { λ list. list.len ≡ length (joined list.pieces.value.items) };
}

impl<T: Copy> Pieces<T> {
    // The empty list, whose pieces will have so many items at most.
    pub(crate) fn new(alloc: Global, room: usize) -> Result<Pieces<T>, Memory>
        ensures { IfOk result (λ list. list ≡ []) }
    {
        Ok(Pieces {
            pieces: Arc::new(alloc, Vec::new(alloc))?,
            len: 0,
            room,
        })
    }

    // The same list.
    pub(crate) fn share(&self) -> Result<Pieces<T>, Memory>
        ensures { IfOk result (λ list. list ≡ self.now) }
    {
        Ok(Pieces {
            pieces: Arc::try_clone(&self.pieces)?,
            len: self.len,
            room: self.room,
        })
    }

    pub(crate) fn len(&self) -> usize
        ensures { result ≡ length self.now }
    {
        self.len
    }

    // The item at a position.
    pub(crate) fn get(&self, position: usize) -> Option<T>
        ensures { result ≡ slice_get self.now position }
    {
        let mut left = position;
        for piece in &*self.pieces {
            let items = piece.as_slice();
            if left < items.len() {
                return Some(items[left]);
            }
            left -= items.len();
        }
        None
    }

    // With an item at a position, before those from there on.
    pub(crate) fn with(&self, position: usize, item: T) -> Result<Pieces<T>, Memory>
        requires { position ≤ length self.now }
        ensures { IfOk result (λ list. list ≡ insert self.now position item) }
    {
        let Some(len) = self.len.checked_add(1) else {
            return Err(Memory);
        };
        let alloc = *self.pieces.allocator();
        let mut pieces = Vec::with_capacity(alloc, self.pieces.len().saturating_add(1))?;
        let mut left = Some(position);
        for piece in &*self.pieces {
            left = add_piece_with(&mut pieces, piece, left, item, self.room)?;
        }
        add_last(&mut pieces, left, item)?;
        Ok(Pieces {
            pieces: Arc::new(alloc, pieces)?,
            len,
            room: self.room,
        })
    }

    // Without the item at a position.
    pub(crate) fn without(&self, position: usize) -> Result<Pieces<T>, Memory>
        requires { position < length self.now }
        ensures { IfOk result (λ list. list ≡ remove self.now position) }
    {
        let alloc = *self.pieces.allocator();
        let mut pieces = Vec::with_capacity(alloc, self.pieces.len())?;
        let mut left = Some(position);
        for piece in &*self.pieces {
            left = add_piece_without(&mut pieces, piece, left)?;
        }
        Ok(Pieces {
            pieces: Arc::new(alloc, pieces)?,
            len: self.len - 1,
            room: self.room,
        })
    }

    // With an item in the place of the one at a position.
    pub(crate) fn with_set(&self, position: usize, item: T) -> Result<Pieces<T>, Memory>
        requires { position < length self.now }
        ensures { IfOk result (λ list. list ≡ slice_set self.now position item) }
    {
        let alloc = *self.pieces.allocator();
        let mut pieces = Vec::with_capacity(alloc, self.pieces.len())?;
        let mut left = Some(position);
        for piece in &*self.pieces {
            left = add_piece_set(&mut pieces, piece, left, item)?;
        }
        Ok(Pieces {
            pieces: Arc::new(alloc, pieces)?,
            len: self.len,
            room: self.room,
        })
    }
}

fn piece_of<T: Copy>(alloc: Global, items: &[T]) -> Result<Piece<T>, Memory>
    ensures { IfOk result (λ piece. piece.value.items ≡ items.now) }
{
    let mut piece = Vec::with_capacity(alloc, items.len())?;
    piece.extend_from_slice(items)?;
    Ok(Arc::new(alloc, piece)?)
}

fn piece_with<T: Copy>(
    alloc: Global,
    items: &[T],
    position: usize,
    item: T,
) -> Result<Piece<T>, Memory>
    requires { position ≤ length items.now }
    ensures { IfOk result (λ piece. piece.value.items ≡ insert items.now position item) }
{
    let mut piece = Vec::with_capacity(alloc, items.len().saturating_add(1))?;
    piece.extend_from_slice(items)?;
    piece.insert(position, item)?;
    Ok(Arc::new(alloc, piece)?)
}

fn piece_without<T: Copy>(alloc: Global, items: &[T], position: usize) -> Result<Piece<T>, Memory>
    requires { position < length items.now }
    ensures { IfOk result (λ piece. piece.value.items ≡ remove items.now position) }
{
    let mut piece = Vec::with_capacity(alloc, items.len())?;
    piece.extend_from_slice(items)?;
    piece.remove(position);
    Ok(Arc::new(alloc, piece)?)
}

fn piece_set<T: Copy>(
    alloc: Global,
    items: &[T],
    position: usize,
    item: T,
) -> Result<Piece<T>, Memory>
    requires { position < length items.now }
    ensures { IfOk result (λ piece. piece.value.items ≡ slice_set items.now position item) }
{
    let mut piece = Vec::with_capacity(alloc, items.len())?;
    piece.extend_from_slice(items)?;
    piece[position] = item;
    Ok(Arc::new(alloc, piece)?)
}

// Adds the items with one at a position, in two halves where they fill a piece.
fn add_with<T: Copy>(
    pieces: &mut Vec<Piece<T>>,
    items: &[T],
    position: usize,
    item: T,
    room: usize,
) -> Result<(), Memory>
    requires { position ≤ length items.now }
    ensures { OnOk result (joined pieces.new.items ≡ joined pieces.old.items ++ insert items.now position item) }
{
    let alloc = *pieces.allocator();
    if items.len() < room {
        pieces.push(piece_with(alloc, items, position, item)?)?;
        return Ok(());
    }
    let half = items.len() / 2;
    let (front, back) = items.split_at(half);
    if position <= half {
        pieces.push(piece_with(alloc, front, position, item)?)?;
        pieces.push(piece_of(alloc, back)?)?;
    } else {
        pieces.push(piece_of(alloc, front)?)?;
        pieces.push(piece_with(alloc, back, position - half, item)?)?;
    }
    Ok(())
}

// Adds the items without the one at a position, if others are left.
fn add_without<T: Copy>(
    pieces: &mut Vec<Piece<T>>,
    items: &[T],
    position: usize,
) -> Result<(), Memory>
    requires { position < length items.now }
    ensures { OnOk result (joined pieces.new.items ≡ joined pieces.old.items ++ remove items.now position) }
{
    if items.len() == 1 {
        return Ok(());
    }
    let alloc = *pieces.allocator();
    pieces.push(piece_without(alloc, items, position)?)?;
    Ok(())
}

fn add_set<T: Copy>(
    pieces: &mut Vec<Piece<T>>,
    items: &[T],
    position: usize,
    item: T,
) -> Result<(), Memory>
    requires { position < length items.now }
    ensures { OnOk result (joined pieces.new.items ≡ joined pieces.old.items ++ slice_set items.now position item) }
{
    let alloc = *pieces.allocator();
    pieces.push(piece_set(alloc, items, position, item)?)?;
    Ok(())
}

fn add_shared<T: Copy>(pieces: &mut Vec<Piece<T>>, piece: &Piece<T>) -> Result<(), Memory>
    ensures { OnOk result (joined pieces.new.items ≡ joined pieces.old.items ++ piece.now.value.items) }
{
    pieces.push(Arc::try_clone(piece)?)?;
    Ok(())
}

// Adds a piece, with the item in it where its position is there. It gives what is left of the position behind the piece.
fn add_piece_with<T: Copy>(
    pieces: &mut Vec<Piece<T>>,
    piece: &Piece<T>,
    left: Option<usize>,
    item: T,
    room: usize,
) -> Result<Option<usize>, Memory>
    ensures { IfOk result (λ behind. (more : List T) →
        joined pieces.new.items ++ put more behind item
        ≡ joined pieces.old.items ++ put (piece.now.value.items ++ more) left item) }
{
    let items = piece.as_slice();
    match left {
        None => {
            add_shared(pieces, piece)?;
            Ok(None)
        }
        Some(position) => {
            if position <= items.len() {
                add_with(pieces, items, position, item, room)?;
                Ok(None)
            } else {
                add_shared(pieces, piece)?;
                Ok(Some(position - items.len()))
            }
        }
    }
}

// Adds the item as a piece of its own, where its position was in none of the others.
fn add_last<T: Copy>(pieces: &mut Vec<Piece<T>>, left: Option<usize>, item: T) -> Result<(), Memory>
    ensures { OnOk result (joined pieces.new.items ≡ joined pieces.old.items ++ put [] left item) }
{
    match left {
        None => Ok(()),
        Some(_) => add_with(pieces, &[], 0, item, 1),
    }
}

// Adds a piece, without the item whose position is there. It gives what is left of the position behind the piece.
fn add_piece_without<T: Copy>(
    pieces: &mut Vec<Piece<T>>,
    piece: &Piece<T>,
    left: Option<usize>,
) -> Result<Option<usize>, Memory>
    ensures { IfOk result (λ behind. (more : List T) →
        joined pieces.new.items ++ taken more behind
        ≡ joined pieces.old.items ++ taken (piece.now.value.items ++ more) left) }
{
    let items = piece.as_slice();
    match left {
        None => {
            add_shared(pieces, piece)?;
            Ok(None)
        }
        Some(position) => {
            if position < items.len() {
                add_without(pieces, items, position)?;
                Ok(None)
            } else {
                add_shared(pieces, piece)?;
                Ok(Some(position - items.len()))
            }
        }
    }
}

// Adds a piece, with an item in the place of the one whose position is there. It gives what is left of the position behind the
// piece.
fn add_piece_set<T: Copy>(
    pieces: &mut Vec<Piece<T>>,
    piece: &Piece<T>,
    left: Option<usize>,
    item: T,
) -> Result<Option<usize>, Memory>
    ensures { IfOk result (λ behind. (more : List T) →
        joined pieces.new.items ++ changed more behind item
        ≡ joined pieces.old.items ++ changed (piece.now.value.items ++ more) left item) }
{
    let items = piece.as_slice();
    match left {
        None => {
            add_shared(pieces, piece)?;
            Ok(None)
        }
        Some(position) => {
            if position < items.len() {
                add_set(pieces, items, position, item)?;
                Ok(None)
            } else {
                add_shared(pieces, piece)?;
                Ok(Some(position - items.len()))
            }
        }
    }
}
