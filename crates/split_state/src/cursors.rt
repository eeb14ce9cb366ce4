ghost use Rattle.std.specs.Prelude.{◌≡◌, ℕ, ◌≤◌, [], true, false, IfOk, max};
ghost use Rattle.split_state.specs.CursorRule.{publisher, worker, stepped};

use crate::rule::CursorRule;
use crate::seat_view::{CursorSeat, SeatView};
use crate::steps::{Another, Draws, Enters, Raises, Sees};
use atomic_table::Table;
use std::alloc::{AllocError, Global};
use std::marker::Model;

// The words of the table.
const EXECUTE: usize = 0;

const VALIDATE: usize = 1;

const DONE: usize = 2;

/// The words execute, validate and done of a batch (the counters of Block-STM's scheduler). Each step is one atomic exchange. Contracts
/// see which table they are.
#[derive(Drop)]
pub struct Cursors {
    table: Table<(), SeatView, u64, CursorRule, Global>,
}

impl Model for Cursors {
    ghost use Rattle.std.specs.Prelude.{◌≡◌};
    ghost use Rattle.atomic_table.specs.Seated.{TableId, table_id_coded};

    ghost Value = { TableId };

    ghost coded = { table_id_coded };

    ghost view = { λ c. c.table.shared.table_id };

    ghost invariant = { λ c. (c.table.shared.table_id.words ≡ 3) × (c.table.shared.table_id.slots ≡ 0) };
}

impl Cursors {
    /// Cursors for a batch of so many messages, none of which is done or to be validated, and the one seat that may raise done. The first
    /// message to be executed is the one at this index. It fails only where memory runs out.
    pub fn new(
        alloc: Global,
        first: u64,
        messages: u64,
    ) -> Result<(Cursors, CursorSeat), AllocError>
        ensures seat { IfOk result (λ made. made.1.table_id ≡ made.0) }
        ensures publisher { IfOk result (λ made. made.1.me ≡ (publisher messages, [])) }
    {
        let (table, seat) = Table::of_words(alloc, &[first, messages, 0], &messages)?;
        Ok((Cursors { table }, seat))
    }

    /// A seat for a worker, which knows what this one does.
    pub fn another(&self, seat: &mut CursorSeat) -> CursorSeat
        requires { seat.old.table_id ≡ self.now }
        ensures same { (seat.new.table_id ≡ self.now) × (seat.new.me ≡ seat.old.me) }
        ensures other { (result.table_id ≡ self.now) × (result.me ≡ (worker seat.old.me.0, [])) }
    {
        self.table.shared.split_seat::<Another>(seat)
    }

    /// A seat for a worker that has none, and how many messages are done.
    pub fn enter(&self) -> (u64, CursorSeat)
        ensures place { (result.1.table_id ≡ self.now) × (result.1.me.1 ≡ []) }
        ensures seen { (result.1.me.0.seen ≡ result.0) × (result.0 ≤ result.1.me.0.messages) }
        ensures worker { result.1.me.0.publishes ≡ false }
    {
        self.table.shared.load_new_seat::<Enters>(DONE)
    }

    /// The last value of done, once no thread has the cursors any more. It is what the seat that publishes saw, and at least what
    /// another saw.
    pub fn close(self, seat: CursorSeat) -> u64
        requires { seat.table_id ≡ self }
        ensures within { result ≤ seat.me.0.messages }
        ensures above { seat.me.0.seen ≤ result }
        ensures published { seat.me.0.publishes ≡ true → result ≡ seat.me.0.seen }
    {
        let closed = self.table.close_with(seat);
        let done = closed.word(DONE);
        closed.free();
        done
    }

    /// Draws the message to execute next: adds one to execute, and returns what it was. A number that isn't below the number of messages
    /// names none.
    pub fn draw_execute(&self, seat: &mut CursorSeat) -> u64
        requires { seat.old.table_id ≡ self.now }
        ensures { (seat.new.table_id ≡ self.now) × (seat.new.me ≡ (stepped seat.old.me.0.seen seat.old.me.0 EXECUTE 1 result, seat.old.me.1)) }
    {
        self.table.shared.fetch_add::<Draws>(seat, EXECUTE, 1)
    }

    /// Draws the message to validate next: adds one to validate, and returns what it was.
    pub fn draw_validate(&self, seat: &mut CursorSeat) -> u64
        requires { seat.old.table_id ≡ self.now }
        ensures { (seat.new.table_id ≡ self.now) × (seat.new.me ≡ (stepped seat.old.me.0.seen seat.old.me.0 VALIDATE 1 result, seat.old.me.1)) }
    {
        self.table.shared.fetch_add::<Draws>(seat, VALIDATE, 1)
    }

    /// Has execution go on at this message, where it is already behind it.
    pub fn lower_execute(&self, seat: &mut CursorSeat, index: u64)
        requires { seat.old.table_id ≡ self.now }
        ensures { (seat.new.table_id ≡ self.now) × ((found : ℕ) × (seat.new.me ≡ (stepped seat.old.me.0.seen seat.old.me.0 EXECUTE index found, seat.old.me.1))) }
    {
        self.table.shared.fetch_min::<Draws>(seat, EXECUTE, index);
    }

    /// Has validation go on at this message, where it is already behind it.
    pub fn lower_validate(&self, seat: &mut CursorSeat, index: u64)
        requires { seat.old.table_id ≡ self.now }
        ensures { (seat.new.table_id ≡ self.now) × ((found : ℕ) × (seat.new.me ≡ (stepped seat.old.me.0.seen seat.old.me.0 VALIDATE index found, seat.old.me.1))) }
    {
        self.table.shared.fetch_min::<Draws>(seat, VALIDATE, index);
    }

    /// The message that is executed next, as far as can be seen now. No answer rests on it.
    pub fn next_to_execute(&self) -> u64 {
        self.table.shared.peek(EXECUTE)
    }

    /// The message that is validated next, as far as can be seen now; where none is to be, a number that names none. No answer rests on it.
    pub fn next_to_validate(&self) -> u64 {
        self.table.shared.peek(VALIDATE)
    }

    /// No message is to be validated until validation is lowered again: validate is raised to this number of messages.
    pub fn end_validation(&self, seat: &mut CursorSeat, messages: u64)
        requires { seat.old.table_id ≡ self.now }
        ensures { (seat.new.table_id ≡ self.now) × ((found : ℕ) × (seat.new.me ≡ (stepped seat.old.me.0.seen seat.old.me.0 VALIDATE messages found, seat.old.me.1))) }
    {
        self.table
            .shared
            .fetch_max::<Draws>(seat, VALIDATE, messages);
    }

    /// How many messages are done: no fewer than the seat saw before.
    pub fn done(&self, seat: &mut CursorSeat) -> u64
        requires { seat.old.table_id ≡ self.now }
        ensures place { seat.new.table_id ≡ self.now }
        ensures rises { seat.old.me.0.seen ≤ result }
        ensures within { result ≤ seat.old.me.0.messages }
        ensures seen { seat.new.me ≡ (stepped result seat.old.me.0 DONE 0 result, seat.old.me.1) }
    {
        self.table.shared.load::<Sees>(seat, DONE)
    }

    /// Raises done to so many messages, where it is less. Only the seat that publishes may.
    pub fn raise(&self, seat: &mut CursorSeat, count: u64)
        requires place { seat.old.table_id ≡ self.now }
        requires publishes { seat.old.me.0.publishes ≡ true }
        requires within { count ≤ seat.old.me.0.messages }
        ensures place { seat.new.table_id ≡ self.now }
        ensures seen { seat.new.me ≡ (stepped (max seat.old.me.0.seen count) seat.old.me.0 DONE count seat.old.me.0.seen, seat.old.me.1) }
    {
        self.table.shared.fetch_max::<Raises>(seat, DONE, count);
    }
}
