//! The table in which the value stands: its words, its slot, and the seats.
ghost use Rattle.std.specs.Prelude.{◌≡◌, ◌≤◌, Some, [], IfOk};
ghost use Rattle.store_turn.specs.Lists.{StartsWith};
ghost use Rattle.store_turn.specs.Tickets.{whole_share};
ghost use Rattle.store_turn.specs.Steps.{first_view, half, other_half, joined};
ghost use Rattle.store_turn.specs.Inside.Turns.{Rests};

use crate::grows::Grows;
use crate::rule::{Both, Halves, Recall, TurnRule, View};
use atomic_table::Table;
use base_types::Memory;
use std::alloc::Global;
use std::snapshot::Snapshot;

pub(crate) type RuledTable<T> = Table<
    T,
    View<<T as Grows>::Item, <T as Grows>::Base>,
    Snapshot<T>,
    TurnRule<T>,
    Global,
>;

pub(crate) type TableSeat<T> = atomic_table::Seat<T, View<<T as Grows>::Item, <T as Grows>::Base>>;

/// A table with the three words and the slot of a turn.
#[derive(Drop)]
pub(crate) struct TurnTable<T: Grows> {
    pub(crate) table: RuledTable<T>,
    ghost sized: { (table.shared.table_id.words ≡ 3) × (table.shared.table_id.slots ≡ 1) },
}

impl<T: Grows> TurnTable<T> {
    pub(crate) fn new(alloc: Global, value: T) -> Result<(TurnTable<T>, TableSeat<T>), Memory>
        ensures same_table { IfOk result (λ made. made.1.table_id ≡ made.0.table.shared.table_id) }
        ensures rests { IfOk result (λ made. Rests made.1.me) }
        ensures seen { IfOk result (λ made.
            made.1.me.0 ≡ first_view (T.list value) (T.base value)) }
    {
        let entries = value.len();
        let key = Snapshot::of(&value);
        let mut slots = Vec::with_capacity(alloc, 1)?;
        slots.push_reserved(value);
        match Table::new(alloc, &[entries, 0, 0], slots, &key) {
            Ok((table, seat)) => Ok((TurnTable { table }, seat)),
            Err(_) => Err(Memory),
        }
    }

    pub(crate) fn split(&self, seat: &mut TableSeat<T>) -> TableSeat<T>
        requires of { seat.old.table_id ≡ self.now.table.shared.table_id }
        requires share { 2 ≤ seat.old.me.0.share }
        requires rests { Rests seat.old.me }
        ensures of { seat.new.table_id ≡ self.now.table.shared.table_id }
        ensures other_of { result.table_id ≡ self.now.table.shared.table_id }
        ensures half { seat.new.me ≡ (half seat.old.me.0, []) }
        ensures other_half { result.me ≡ (other_half seat.old.me.0, []) }
    {
        self.table.shared.split_seat::<Halves>(seat)
    }

    pub(crate) fn join(&self, seat: &mut TableSeat<T>, other: TableSeat<T>)
        requires of { seat.old.table_id ≡ self.now.table.shared.table_id }
        requires other_of { other.table_id ≡ self.now.table.shared.table_id }
        requires rests { Rests seat.old.me }
        requires other_rests { Rests other.me }
        ensures of { seat.new.table_id ≡ self.now.table.shared.table_id }
        ensures both { seat.new.me ≡ (joined seat.old.me.0 other.me.0, []) }
        ensures rests { Rests seat.new.me }
        ensures begins { StartsWith seat.new.me.0.seen seat.old.me.0.seen }
        ensures begins_other { StartsWith seat.new.me.0.seen other.me.0.seen }
    {
        self.table.shared.join_seat::<Both>(seat, other);
        self.table.shared.load::<Recall>(seat, 0);
    }

    pub(crate) fn close(self, seat: TableSeat<T>) -> T
        requires of { seat.table_id ≡ self.table.shared.table_id }
        requires whole { seat.me.0.share ≡ whole_share }
        requires rests { Rests seat.me }
        ensures seen { T.list result ≡ seat.me.0.seen }
        ensures base { seat.me.0.base ≡ Some (T.base result) }
    {
        let TurnTable { table } = self;
        let mut closed = table.close_with(seat);
        let value = closed.take(0);
        closed.free();
        value
    }
}
