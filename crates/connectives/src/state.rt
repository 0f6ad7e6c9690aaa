//! What is open at a place of a text.

use base_types::Memory;
use std::alloc::Global;
use std::marker::Model;

/// What a byte is to the connectives.
#[derive(Clone, Copy, Debug, PartialEq, Eq)]
pub enum Kind {
    Blank,
    Bang,
    Opening,
    Closing,
    Ampersand,
    Bar,
    Other,
}

/// What stands in a parenthesis before an operand: a pending `||`, a pending `&&`, how many `!` and `(` could be opened
/// at first, and how many can be now, behind the operand's own `!`.
#[derive(Drop)]
pub struct Level<D> {
    pub sum: Option<D>,
    pub product: Option<D>,
    pub begun: u8,
    pub room: u8,
}

/// Levels, seen with the innermost first.
#[derive(Drop)]
pub struct Levels<D> {
    // The innermost last.
    levels: Vec<Level<D>>,
}

impl<D> Model for Levels<D> {
    ghost use Rattle.std.specs.Prelude.{List as Seq, reverse};
    ghost use Rattle.connectives.specs.declared.state.Level.{Level as OneLevel};

    ghost Value = { Seq (OneLevel D) };

    ghost view = { λ a. reverse a.levels.items };
}

impl<D> Levels<D> {
    ghost use Rattle.std.specs.Prelude.{◌≡◌, ◌∷◌, [], IfOk, MatchOption};

    /// No level.
    pub fn new(alloc: Global) -> Self
        ensures { result ≡ [] }
    {
        Levels {
            levels: Vec::new(alloc),
        }
    }

    /// These, within one level more.
    pub fn with(self, level: Level<D>) -> Result<Self, Memory>
    where
        D: Drop,
        ensures { IfOk result (λ levels. levels ≡ level ∷ self) }
    {
        let mut levels = self.levels;
        levels.push(level)?;
        Ok(Levels { levels })
    }

    /// Takes the innermost level out.
    pub fn pop(&mut self) -> Option<Level<D>>
        ensures { MatchOption result (self.old ≡ []) (λ level. self.old ≡ level ∷ self.new) }
    {
        self.levels.pop()
    }
}

/// The innermost level, and those around it.
#[derive(Drop)]
pub struct Around<D> {
    pub level: Level<D>,
    pub outer: Levels<D>,
}

/// What stands before a place behind an operand.
#[derive(Drop)]
pub struct Behind<D> {
    /// What the last `&&`s join.
    pub last: D,
    pub sum: Option<D>,
    pub outer: Levels<D>,
    pub room: u8,
}

/// What is open at a place, where `I` is what is open inside an operand.
#[derive(Drop)]
pub enum State<D, I> {
    /// An operand is to come.
    Wants(Around<D>),
    Within(I, Around<D>),
    /// Behind an operand.
    Done(Behind<D>),
    /// Behind one `&`.
    HalfAnd(Behind<D>),
    /// Behind one `|`.
    HalfOr(Behind<D>),
}

/// What a byte makes of an operand that has begun.
#[derive(Drop)]
pub enum Next<D, I> {
    /// The operand goes on.
    Inside(I),
    /// It ends with this byte.
    Ended(D),
    /// It ended before this byte.
    Before(D),
    /// No operand goes on so.
    Stuck,
}
