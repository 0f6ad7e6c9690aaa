//! Single calls at a store under a turn: each waits for the turn and is made while the worker has it.
//!
//! `law` is there for the contracts alone.

ghost use Rattle.std.specs.Prelude.{◌≡◌, ◌<◌, ◌^◌, length, None, Some, IfOk};
ghost use Rattle.tree_types.specs.declared.entry.Entry.TheVariants.{Tick};
ghost use Rattle.history.specs.History.{event, Extends, clock_of, version_at};
ghost use Rattle.object_store.specs.Answers.{GetGives, CreateGives, WriteGives, TickGives, Adds, IsOf};
ghost use Rattle.object_store.specs.Entries.{MakesObject, ChangesObject};
ghost use Rattle.object_store.specs.LawfulHistories.{IsLawful};
ghost use Rattle.store_client.specs.Calls.{WillBeJustified, TickWillBeJustified};
ghost use Rattle.store_client.specs.Inside.InTurn.{CreatedAt, WroteAt, TickedAt};
ghost use Rattle.store_client.specs.Under.{seen_of, LawIs};

use crate::held::Held;
use io_edge::Outage;
use object_store::{Content, Snapshot, StoreRefused};
use std::sync::Wait;
use store_turn::{Seat, Turn};
use tree_types::{Entry, Key};

pub(crate) fn get<T: Content, O: Outage, R: Wait>(
    rt: &R,
    turn: &Turn<Held<T, O>>,
    seat: &mut Seat<Held<T, O>>,
    law: &T::Law,
    key: &Key,
) -> Result<Snapshot<T>, StoreRefused>
    requires of_turn { seat.old.turn ≡ turn.now.name }
    requires law { LawIs seat.old law.now }
    ensures of_turn { seat.new.turn ≡ turn.now.name }
    ensures share { seat.new.share ≡ seat.old.share }
    ensures law { LawIs seat.new law.now }
    ensures later { Extends (seen_of seat.new) (seen_of seat.old) }
    ensures lawful { IsLawful T.begins T.justified law.now (seen_of seat.new) }
    ensures fits { length seat.new.seen < 2 ^ 64 }
    ensures of { IfOk result (λ s. IsOf T.apply s (seen_of seat.new)) }
    ensures answer { GetGives key.now (clock_of (seen_of seat.new))
        (version_at T.apply (seen_of seat.new) key.now) result }
{
    let _ = law;
    turn.with_turn(
        rt,
        seat,
        |held: &mut Held<T, O>| -> Result<Snapshot<T>, StoreRefused>
            ensures answer { GetGives key.entry.now
                (clock_of held.old.store.history)
                (version_at T.apply held.old.store.history key.entry.now) result }
            ensures of { IfOk result (λ s. IsOf T.apply s held.new.store.history) }
            ensures same { held.new.store.history ≡ held.old.store.history }
            ensures law { held.new.law ≡ held.old.law }
            ensures lawful { IsLawful
                T.begins T.justified held.new.law held.new.store.history }
        { held.get(key) },
    )
}

pub(crate) fn create<T: Content, O: Outage, R: Wait>(
    rt: &R,
    turn: &Turn<Held<T, O>>,
    seat: &mut Seat<Held<T, O>>,
    law: &T::Law,
    key: Key,
    content: T,
    change: Entry,
) -> Result<Snapshot<T>, StoreRefused>
    requires of_turn { seat.old.turn ≡ turn.now.name }
    requires law { LawIs seat.old law.now }
    requires entry { MakesObject change key }
    requires makes { T.makes key change content }
    requires justified { WillBeJustified T.begins T.justified law.now
        T.apply (seen_of seat.old) key 0 (event change (Some content)) }
    ensures of_turn { seat.new.turn ≡ turn.now.name }
    ensures share { seat.new.share ≡ seat.old.share }
    ensures law { LawIs seat.new law.now }
    ensures later { Extends (seen_of seat.new) (seen_of seat.old) }
    ensures lawful { IsLawful T.begins T.justified law.now (seen_of seat.new) }
    ensures fits { length seat.new.seen < 2 ^ 64 }
    ensures of { IfOk result (λ s. IsOf T.apply s (seen_of seat.new)) }
    ensures created { CreatedAt T.apply key content (event change (Some content))
        (seen_of seat.old) result (seen_of seat.new) }
{
    let _ = law;
    turn.with_turn(
        rt,
        seat,
        |held: &mut Held<T, O>| -> Result<Snapshot<T>, StoreRefused>
            requires entry { MakesObject change key }
            requires makes { T.makes key change content }
            requires justified { WillBeJustified T.begins T.justified held.old.law
                T.apply held.old.store.history key 0 (event change (Some content)) }
            ensures answer { CreateGives key content
                (clock_of held.old.store.history)
                (version_at T.apply held.old.store.history key) result }
            ensures of { IfOk result (λ s. IsOf T.apply s held.new.store.history) }
            ensures adds { Adds held.old.store.history
                (event change (Some content)) result held.new.store.history }
            ensures law { held.new.law ≡ held.old.law }
            ensures lawful { IsLawful
                T.begins T.justified held.new.law held.new.store.history }
        { held.create(key, content, change) },
    )
}

pub(crate) fn write<T: Content, O: Outage, R: Wait>(
    rt: &R,
    turn: &Turn<Held<T, O>>,
    seat: &mut Seat<Held<T, O>>,
    law: &T::Law,
    from: &Snapshot<T>,
    next: T,
    change: Entry,
) -> Result<Snapshot<T>, StoreRefused>
    requires of_turn { seat.old.turn ≡ turn.now.name }
    requires law { LawIs seat.old law.now }
    requires of { IsOf T.apply from.now (seen_of seat.old) }
    requires entry { ChangesObject change from.now.key }
    requires leads { T.apply from.now.content change ≡ Some next }
    requires justified { WillBeJustified T.begins T.justified law.now
        T.apply (seen_of seat.old) from.now.key from.now.version (event change None) }
    ensures of_turn { seat.new.turn ≡ turn.now.name }
    ensures share { seat.new.share ≡ seat.old.share }
    ensures law { LawIs seat.new law.now }
    ensures later { Extends (seen_of seat.new) (seen_of seat.old) }
    ensures lawful { IsLawful T.begins T.justified law.now (seen_of seat.new) }
    ensures fits { length seat.new.seen < 2 ^ 64 }
    ensures of { IfOk result (λ s. IsOf T.apply s (seen_of seat.new)) }
    ensures wrote { WroteAt T.apply from.now next (event change None)
        (seen_of seat.old) result (seen_of seat.new) }
{
    let _ = law;
    turn.with_turn(
        rt,
        seat,
        |held: &mut Held<T, O>| -> Result<Snapshot<T>, StoreRefused>
            requires of { IsOf T.apply from.now held.old.store.history }
            requires entry { ChangesObject change from.now.key }
            requires leads { T.apply from.now.content change ≡ Some next }
            requires justified { WillBeJustified T.begins T.justified held.old.law
                T.apply held.old.store.history from.now.key from.now.version (event change None) }
            ensures answer { WriteGives from.entry.now next
                (clock_of held.old.store.history)
                (version_at T.apply held.old.store.history from.entry.now.key) result }
            ensures of { IfOk result (λ s. IsOf T.apply s held.new.store.history) }
            ensures adds { Adds held.old.store.history
                (event change None) result held.new.store.history }
            ensures law { held.new.law ≡ held.old.law }
            ensures lawful { IsLawful
                T.begins T.justified held.new.law held.new.store.history }
        { held.write(from, next, change) },
    )
}

pub(crate) fn tick<T: Content, O: Outage, R: Wait>(
    rt: &R,
    turn: &Turn<Held<T, O>>,
    seat: &mut Seat<Held<T, O>>,
    law: &T::Law,
    to: u64,
) -> Result<(), StoreRefused>
    requires of_turn { seat.old.turn ≡ turn.now.name }
    requires law { LawIs seat.old law.now }
    requires justified { TickWillBeJustified T.begins T.justified law.now
        (seen_of seat.old) to }
    ensures of_turn { seat.new.turn ≡ turn.now.name }
    ensures share { seat.new.share ≡ seat.old.share }
    ensures law { LawIs seat.new law.now }
    ensures later { Extends (seen_of seat.new) (seen_of seat.old) }
    ensures lawful { IsLawful T.begins T.justified law.now (seen_of seat.new) }
    ensures fits { length seat.new.seen < 2 ^ 64 }
    ensures ticked { TickedAt to (seen_of seat.old) result (seen_of seat.new) }
{
    let _ = law;
    turn.with_turn(
        rt,
        seat,
        |held: &mut Held<T, O>| -> Result<(), StoreRefused>
            requires justified { TickWillBeJustified T.begins T.justified held.old.law
                held.old.store.history to }
            ensures answer { TickGives to (clock_of held.old.store.history) result }
            ensures adds { Adds held.old.store.history
                (event (Tick to) None) result held.new.store.history }
            ensures law { held.new.law ≡ held.old.law }
            ensures lawful { IsLawful
                T.begins T.justified held.new.law held.new.store.history }
        { held.tick(to) },
    )
}
