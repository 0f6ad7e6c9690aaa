//! The reading of a text, byte by byte: what is open after it, or that no text of the grammar begins so.

ghost use Rattle.std.specs.Prelude.{◌≡◌, ◌-◌, IfOk, IfErr, Some, None};
ghost use Rattle.std.specs.Prelude.{◌==◌, if◌then◌else◌};
ghost use Rattle.connectives.specs.declared.state.State.TheVariants as state;
ghost use Rattle.connectives.specs.Reading.{kind, negate, times, plus, past_operand, add_not as add_not_state, open_level as open_level_state, close_level as close_level_state, begun, on_wants, on_done, on_next, after_and, after_or, step, whole_behind, stopped, final, start, read as read_from, place};

use crate::bytes::kind_at;
use crate::state::{Around, Behind, Kind, Level, Levels, Next, State};
use crate::{Draft, Operand};
use base_types::Memory;
use base_types::limits::MOST_LEVELS;
use std::alloc::Global;

#[tactic(auto, using(crate::proofs::Negations::one_less, crate::proofs::Negations::none_left))]
fn negate_times<D: Draft>(operand: D, count: u8) -> Result<D, Memory>
    ensures { IfOk result (λ draft. draft ≡ negate D.joins count operand) }
{
    let mut operand = operand;
    for _ in 0..count {
        operand = operand.negated()?;
    }
    Ok(operand)
}

// Behind a whole operand, its `!` are closed, and a pending `&&` takes it.
fn join<D: Draft>(operand: D, product: Option<D>, begun: u8, room: u8) -> Result<D, Memory>
    ensures { IfOk result (λ draft. draft ≡ times D.joins product (negate D.joins (begun - room) operand)) }
{
    let operand = negate_times(operand, begun.saturating_sub(room))?;
    match product {
        None => Ok(operand),
        Some(left) => left.all_of(operand),
    }
}

fn add<D: Draft>(sum: Option<D>, last: D) -> Result<D, Memory>
    ensures { IfOk result (λ draft. draft ≡ plus D.joins sum last) }
{
    match sum {
        None => Ok(last),
        Some(left) => left.any_of(last),
    }
}

fn behind_operand<D: Draft>(operand: D, around: Around<D>) -> Result<Behind<D>, Memory>
    ensures { IfOk result (λ behind. behind ≡ past_operand D.joins operand around) }
{
    let Around { level, outer } = around;
    let Level {
        sum,
        product,
        begun,
        room,
    } = level;
    let last = join(operand, product, begun, room)?;
    Ok(Behind {
        last,
        sum,
        outer,
        room: begun,
    })
}

fn add_not<D: Drop, I>(around: Around<D>) -> Option<State<D, I>>
    ensures { result ≡ add_not_state around.level.room around.level around.outer }
{
    let Around { level, outer } = around;
    let Level {
        sum,
        product,
        begun,
        room,
    } = level;
    if room == 0 {
        return None;
    }
    let level = Level {
        sum,
        product,
        begun,
        room: room - 1,
    };
    Some(State::Wants(Around { level, outer }))
}

fn open_level<D: Drop, I: Drop>(around: Around<D>) -> Result<Option<State<D, I>>, Memory>
    ensures { IfOk result (λ next. next ≡ open_level_state around.level.room around.level around.outer) }
{
    let Around { level, outer } = around;
    if level.room == 0 {
        return Ok(None);
    }
    let room = level.room - 1;
    Ok(Some(State::Wants(Around {
        level: Level {
            sum: None,
            product: None,
            begun: room,
            room,
        },
        outer: outer.with(level)?,
    })))
}

fn close_level<D: Draft, I: Drop>(behind: Behind<D>) -> Result<Option<State<D, I>>, Memory>
    ensures { IfOk result (λ next. next ≡ close_level_state D.joins behind.last behind.sum behind.outer) }
{
    let Behind {
        last,
        sum,
        outer,
        ..
    } = behind;
    let mut outer = outer;
    match outer.pop() {
        None => Ok(None),
        Some(level) => {
            let operand = add(sum, last)?;
            let behind = behind_operand(operand, Around { level, outer })?;
            Ok(Some(State::Done(behind)))
        }
    }
}

fn after_operand<D: Draft, I: Drop>(
    kind: Kind,
    behind: Behind<D>,
) -> Result<Option<State<D, I>>, Memory>
    ensures { IfOk result (λ next. next ≡ on_done D.joins kind behind) }
{
    match kind {
        Kind::Blank => Ok(Some(State::Done(behind))),
        Kind::Closing => close_level(behind),
        Kind::Ampersand => Ok(Some(State::HalfAnd(behind))),
        Kind::Bar => Ok(Some(State::HalfOr(behind))),
        Kind::Bang | Kind::Opening | Kind::Other => Ok(None),
    }
}

fn before_operand<D: Draft, I: Operand<D>>(
    alloc: Global,
    byte: u8,
    around: Around<D>,
) -> Result<Option<State<D, I>>, Memory>
    ensures { IfOk result (λ next. next ≡ on_wants I.machine (kind byte) byte around) }
{
    match kind_at(byte) {
        Kind::Blank => Ok(Some(State::Wants(around))),
        Kind::Bang => Ok(add_not(around)),
        Kind::Opening => open_level(around),
        Kind::Closing | Kind::Ampersand | Kind::Bar => Ok(None),
        Kind::Other => match I::begin(alloc, byte)? {
            None => Ok(None),
            Some(inner) => Ok(Some(State::Within(inner, around))),
        },
    }
}

fn in_operand<D: Draft, I: Operand<D>>(
    alloc: Global,
    byte: u8,
    inner: I,
    around: Around<D>,
) -> Result<Option<State<D, I>>, Memory>
    ensures { IfOk result (λ next. next ≡ on_next D.joins (I.machine.go_on inner byte) byte around) }
{
    match inner.go_on(alloc, byte)? {
        Next::Inside(inner) => Ok(Some(State::Within(inner, around))),
        Next::Ended(operand) => Ok(Some(State::Done(behind_operand(operand, around)?))),
        Next::Before(operand) => {
            let behind = behind_operand(operand, around)?;
            after_operand(kind_at(byte), behind)
        }
        Next::Stuck => Ok(None),
    }
}

fn after_ampersand<D: Drop, I: Drop>(byte: u8, behind: Behind<D>) -> Option<State<D, I>>
    ensures { result ≡ (if byte == 38 then Some (state.Wants (after_and behind)) else None) }
{
    if byte != b'&' {
        return None;
    }
    let Behind {
        last,
        sum,
        outer,
        room,
    } = behind;
    let level = Level {
        sum,
        product: Some(last),
        begun: room,
        room,
    };
    Some(State::Wants(Around { level, outer }))
}

fn after_bar<D: Draft, I: Drop>(byte: u8, behind: Behind<D>) -> Result<Option<State<D, I>>, Memory>
    ensures { IfOk result (λ next. next ≡ (if byte == 124 then Some (state.Wants (after_or D.joins behind)) else None)) }
{
    if byte != b'|' {
        return Ok(None);
    }
    let Behind {
        last,
        sum,
        outer,
        room,
    } = behind;
    let level = Level {
        sum: Some(add(sum, last)?),
        product: None,
        begun: room,
        room,
    };
    Ok(Some(State::Wants(Around { level, outer })))
}

// What a byte makes of a state: nothing where no text of the grammar goes on so.
fn next<D: Draft, I: Operand<D>>(
    alloc: Global,
    state: State<D, I>,
    byte: u8,
) -> Result<Option<State<D, I>>, Memory>
    ensures { IfOk result (λ next. next ≡ step D.joins I.machine state byte) }
{
    match state {
        State::Wants(around) => before_operand(alloc, byte, around),
        State::Within(inner, around) => in_operand(alloc, byte, inner, around),
        State::Done(behind) => after_operand(kind_at(byte), behind),
        State::HalfAnd(behind) => Ok(after_ampersand(byte, behind)),
        State::HalfOr(behind) => after_bar(byte, behind),
    }
}

// What the text before a place says, where it is whole.
fn whole<D: Draft>(behind: Behind<D>) -> Result<Option<D>, Memory>
    ensures { IfOk result (λ draft. draft ≡ whole_behind D.joins behind) }
{
    let Behind {
        last,
        sum,
        outer,
        ..
    } = behind;
    let mut outer = outer;
    match outer.pop() {
        Some(_) => Ok(None),
        None => Ok(Some(add(sum, last)?)),
    }
}

fn finish<D: Draft, I: Operand<D>>(alloc: Global, state: State<D, I>) -> Result<Option<D>, Memory>
    ensures { IfOk result (λ draft. draft ≡ final D.joins I.machine state) }
{
    match state {
        State::Within(inner, around) => match inner.stop(alloc)? {
            None => Ok(None),
            Some(operand) => whole(behind_operand(operand, around)?),
        },
        State::Done(behind) => whole(behind),
        State::Wants(_) | State::HalfAnd(_) | State::HalfOr(_) => Ok(None),
    }
}

fn beginning<D, I>(alloc: Global) -> State<D, I>
    ensures { result ≡ start }
{
    State::Wants(Around {
        level: Level {
            sum: None,
            product: None,
            begun: MOST_LEVELS as u8,
            room: MOST_LEVELS as u8,
        },
        outer: Levels::new(alloc),
    })
}

/// What a text says, or the place of its fault.
pub fn read<D: Draft, I: Operand<D>>(alloc: Global, text: &[u8]) -> Result<Result<D, usize>, Memory>
    // What is read is what reading finds in the text.
    ensures ok { IfOk result (λ found.
        IfOk found (λ draft. read_from D.joins I.machine start text.now ≡ Some draft)) }
    // Where reading finds nothing, the place at which it stops.
    ensures bad { IfOk result (λ found. IfErr found (λ at.
        (read_from D.joins I.machine start text.now ≡ None) ×
        (at ≡ place D.joins I.machine start text.now))) }
{
    let mut state: State<D, I> = beginning(alloc);
    for (place, byte) in text.iter().enumerate() {
        match next(alloc, state, *byte)? {
            Some(following) => state = following,
            None => return Ok(Err(place)),
        }
    }
    match finish(alloc, state)? {
        Some(draft) => Ok(Ok(draft)),
        None => Ok(Err(text.len())),
    }
}
