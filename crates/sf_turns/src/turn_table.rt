//! The table that all seats and tokens of a run share, and each step of a seat on it.
ghost use Rattle.std.specs.Prelude.{◌≡◌, ℕ, ◌+◌, ◌%◌, ◌-◌, ◌<◌, ◌≤◌, ◌^◌, ◌≢◌, true};
ghost use Rattle.std.specs.Prelude.{false, [], ◌∷◌, Some, None, length, take, drop, replicate, IfOk, IfErr};
ghost use Rattle.sf_turns.specs.declared.protocol.Home.TheVariants.{Vacant, Full, Said};
ghost use Rattle.sf_turns.specs.declared.protocol.Stage.TheVariants as stage;
ghost use Rattle.sf_turns.specs.Counts.{IsExact};
ghost use Rattle.sf_base.specs.Points.{greatest};
ghost use Rattle.sf_turns.specs.declared.protocol.Token.{Token};
ghost use Rattle.sf_turns.specs.Rule.{opened, loaded, note, entering, begun, issuing, heir, endowing, endowed, cutting, cut_off, lending};
ghost use Rattle.sf_turns.specs.Rule.{lent, absorbed, handed, departed_with, at_stage, IsAlone, IsAside, HasSeen, Stays};

use crate::protocol::{
    Announce, Ask, Audit, Begin, Clear, Cut, Endow, Enter, Finish, HandIn, Home, Issue, Knows,
    Leave, Load, Reach, Return, SplitOff, TakeIn, Tell, TurnRule,
};
use crate::stamped::Stamped;
use atomic_table::{Seat, Table};
use sf_base::NoMemory;
use std::alloc::Global;
use std::marker::Model;

/// A seat at the table, with what it knows. It has no bytes.
pub(crate) type TableSeat<P> = Seat<Home<P, <P as Stamped>::Stamp>, Knows<<P as Stamped>::Stamp>>;

/// The table, and the allocator of its stamps. Contracts see which table it is.
pub(crate) struct TurnTable<P: Stamped> {
    table: Table<Home<P, P::Stamp>, Knows<P::Stamp>, u64, TurnRule<P>, Global>,
    pub(crate) alloc: Global,
}

impl<P: Stamped> Model for TurnTable<P> {
    ghost use Rattle.std.specs.Prelude.{◌≡◌, ◌+◌};
    ghost use Rattle.atomic_table.specs.Seated.{TableId, table_id_coded};

    ghost Value = { TableId };

    ghost coded = { table_id_coded };

    ghost view = { λ b. b.table.shared.table_id };

    ghost invariant = { λ b. (b.table.shared.table_id.words ≡ b.table.shared.key + 1) × (b.table.shared.table_id.slots ≡ b.table.shared.key) };
}

/// The promise that was announced.
fn unsaid<P: Drop, T: Drop>(said: Home<P, T>) -> T
    requires { (x : T) × (said ≡ Said x) }
    ensures { said ≡ Said result }
{
    match said {
        Home::Said(x) => x,
        Home::Full(_p) => unreachable!(),
        Home::Vacant => unreachable!(),
    }
}

impl<P: Stamped> TurnTable<P> {
    /// The table with its first seat, which has the whole stock.
    pub(crate) fn open(
        alloc: Global,
        words: &[u64],
        homes: Vec<Home<P, P::Stamp>>,
        buffers: u32,
    ) -> Result<(TurnTable<P>, TableSeat<P>), NoMemory>
        requires words { words.now ≡ replicate (buffers + 1) 0 }
        requires homes { homes.items ≡ replicate buffers Vacant }
        ensures table { IfOk result (λ r. (r.0.slots ≡ buffers) × (r.1.table_id ≡ r.0)) }
        ensures seat { IfOk result (λ r. r.1.me ≡ (opened buffers, [])) }
    {
        match Table::new(alloc, words, homes, &(buffers as u64)) {
            Ok((table, seat)) => Ok((TurnTable { table, alloc }, seat)),
            Err(_) => Err(NoMemory),
        }
    }

    /// The whole stock goes to a seat of its own.
    pub(crate) fn endow(&self, seat: &mut TableSeat<P>) -> TableSeat<P>
        requires own { seat.old.table_id ≡ self.now }
        requires closed { seat.old.me.0.opens ≡ false }
        ensures same { Stays seat.old seat.new × (seat.new.me ≡ (endowing seat.old.me.0, seat.old.me.1)) }
        ensures stock { (result.table_id ≡ self.now) × (result.me ≡ (endowed seat.old.me.0, [])) }
    {
        self.table.shared.split_seat::<Endow>(seat)
    }

    /// How many turns of the buffer have left.
    pub(crate) fn load_leaves(&self, seat: &mut TableSeat<P>, buffer: u32) -> u64
        requires own { seat.old.table_id ≡ self.now }
        requires range { buffer < self.now.slots }
        ensures same { Stays seat.old seat.new }
        ensures seen { seat.new.me ≡ (loaded seat.old.me.0 (buffer, result), seat.old.me.1) }
        ensures least { HasSeen seat.old.me.0 buffer result }
        ensures exact { IsAlone seat.old.me.0 → IsExact self.now.slots seat.new.me.0.leaves seat.new.me.0.seen }
    {
        self.table.shared.load::<Load>(seat, buffer as usize)
    }

    /// What a seat has seen, for another one to take in.
    pub(crate) fn note(&self, seat: &mut TableSeat<P>) -> TableSeat<P>
        requires own { seat.old.table_id ≡ self.now }
        requires closed { seat.old.me.0.opens ≡ false }
        ensures same { Stays seat.old seat.new × (seat.new.me ≡ seat.old.me) }
        ensures note { (result.table_id ≡ self.now) × (result.me ≡ (note seat.old.me.0, [])) }
    {
        self.table.shared.split_seat::<Tell>(seat)
    }

    /// The turn enters, and takes the pixels out.
    pub(crate) fn enter(&self, seat: &mut TableSeat<P>, told: TableSeat<P>, buffer: u32) -> P
        requires own { (seat.old.table_id ≡ self.now) × (told.table_id ≡ self.now) }
        requires note { IsAside told.me × (told.me.0.stock ≡ []) × (told.me.0.token ≡ None) × (told.me.1 ≡ []) }
        requires token { (t : Token P.Stamp) × (seat.old.me.0.token ≡ Some t) × (t.stage ≡ stage.Away)
            × (t.buffer ≡ buffer) × (t.number ≤ greatest buffer told.me.0.seen) }
        requires empty { seat.old.me.1 ≡ [] }
        requires range { buffer < self.now.slots }
        ensures same { Stays seat.old seat.new }
        ensures entered { seat.new.me ≡ (entering seat.old.me.0 told.me.0, (buffer, Vacant) ∷ []) }
        ensures found { (t : Token P.Stamp) → seat.old.me.0.token ≡ Some t → P.stamp_of result ≡ t.expects }
        ensures counted { (t : Token P.Stamp) → seat.old.me.0.token ≡ Some t → greatest buffer told.me.0.seen ≤ t.number }
    {
        self.table.shared.join_seat::<Tell>(seat, told);
        self.table.shared.load::<Enter>(seat, buffer as usize);
        match self
            .table
            .shared
            .exchange(seat, buffer as usize, Home::Vacant)
        {
            Home::Full(p) => p,
            _ => unreachable!(),
        }
    }

    /// The first n buffers of the stock go to a seat of their own.
    pub(crate) fn cut(&self, seat: &mut TableSeat<P>, n: u64) -> TableSeat<P>
        requires own { seat.old.table_id ≡ self.now }
        requires closed { seat.old.me.0.opens ≡ false }
        ensures same { Stays seat.old seat.new × (seat.new.me ≡ (cutting (record seat.old.me.0 { asked = n }), seat.old.me.1)) }
        ensures stock { (result.table_id ≡ self.now) × (result.me ≡ (cut_off (record seat.old.me.0 { asked = n }), [])) }
    {
        let last = self.table.slot_count();
        self.table.shared.swap::<Ask>(seat, last, n);
        self.table.shared.split_seat::<Cut>(seat)
    }

    /// The pixels of a new buffer come home, and the seat has its turn 0.
    pub(crate) fn begin(&self, seat: &mut TableSeat<P>, buffer: u32, p: P)
        requires own { seat.old.table_id ≡ self.now }
        requires range { buffer < self.now.slots }
        requires stock { (seat.old.me.0.stock ≡ buffer ∷ []) × (seat.old.me.0.opens ≡ false) × (seat.old.me.0.token ≡ None) }
        requires empty { seat.old.me.1 ≡ [] }
        ensures same { Stays seat.old seat.new }
        ensures begun { seat.new.me ≡ (begun seat.old.me.0 buffer (P.stamp_of p), []) }
    {
        self.table.shared.load::<Clear>(seat, buffer as usize);
        self.table
            .shared
            .exchange(seat, buffer as usize, Home::Full(p));
        self.table.shared.load::<Begin>(seat, buffer as usize);
    }

    /// The pixels are let go, where the turn has come.
    pub(crate) fn let_go(&self, seat: TableSeat<P>, buffer: u32, number: u64)
        requires own { seat.table_id ≡ self.now }
        requires range { buffer < self.now.slots }
        requires token { (t : Token P.Stamp) × (seat.me.0.token ≡ Some t) × (t.stage ≡ stage.Away) × (t.buffer ≡ buffer) × (t.number ≡ number) }
        requires empty { seat.me.1 ≡ [] }
    {
        let mut seat = seat;
        let count = self.table.shared.load::<Reach>(&mut seat, buffer as usize);
        if count == number {
            self.table
                .shared
                .exchange(&mut seat, buffer as usize, Home::Vacant);
        }
    }

    /// The pixels come home as they were expected, and the turn has not entered.
    pub(crate) fn give_back(&self, seat: &mut TableSeat<P>, buffer: u32, p: P)
        requires own { seat.old.table_id ≡ self.now }
        requires range { buffer < self.now.slots }
        requires token { (t : Token P.Stamp) × (seat.old.me.0.token ≡ Some t)
            × (t.stage ≡ stage.Inside) × (t.buffer ≡ buffer) × (P.stamp_of p ≡ t.expects) }
        requires held { seat.old.me.1 ≡ (buffer, Vacant) ∷ [] }
        ensures same { Stays seat.old seat.new }
        ensures back { seat.new.me ≡ (record seat.old.me.0 { token = at_stage stage.Away seat.old.me.0.token }, []) }
    {
        self.table
            .shared
            .exchange(seat, buffer as usize, Home::Full(p));
        self.table.shared.load::<Return>(seat, buffer as usize);
    }

    /// The pixels come home as they were promised.
    pub(crate) fn finish(&self, seat: &mut TableSeat<P>, buffer: u32, p: P)
        requires own { seat.old.table_id ≡ self.now }
        requires range { buffer < self.now.slots }
        requires token { (t : Token P.Stamp) × (seat.old.me.0.token ≡ Some t) × (t.stage ≡ stage.Inside)
            × (t.buffer ≡ buffer) × (t.promise ≡ Some (P.stamp_of p)) }
        requires held { seat.old.me.1 ≡ (buffer, Vacant) ∷ [] }
        ensures same { Stays seat.old seat.new }
        ensures done { seat.new.me ≡ (record seat.old.me.0 { token = at_stage stage.Done seat.old.me.0.token }, []) }
    {
        self.table
            .shared
            .exchange(seat, buffer as usize, Home::Full(p));
        self.table.shared.load::<Finish>(seat, buffer as usize);
    }

    /// The turn leaves through a thread's seat.
    pub(crate) fn leave(&self, seat: &mut TableSeat<P>, turn: TableSeat<P>, buffer: u32)
        requires own { (seat.old.table_id ≡ self.now) × (turn.table_id ≡ self.now) }
        requires range { buffer < self.now.slots }
        requires reader { (seat.old.me.0.live ≡ 1) × (seat.old.me.0.token ≡ None) }
        requires aside { IsAside turn.me × (turn.me.0.stock ≡ []) × (turn.me.1 ≡ []) }
        requires token { (t : Token P.Stamp) × (x : P.Stamp) × (turn.me.0.token ≡ Some t)
            × (t.stage ≡ stage.Done) × (t.buffer ≡ buffer) × (t.promise ≡ Some x) }
        ensures same { Stays seat.old seat.new }
        ensures left { seat.new.me ≡ (departed_with (handed seat.old.me.0 turn.me.0) turn.me.0.token, seat.old.me.1) }
        ensures exact { IsAlone seat.old.me.0 → IsExact self.now.slots seat.new.me.0.leaves seat.new.me.0.seen }
    {
        self.table.shared.join_seat::<HandIn>(seat, turn);
        self.table
            .shared
            .fetch_add::<Leave>(seat, buffer as usize, 1);
    }

    /// The next turn is issued, with the promise of what this one leaves.
    pub(crate) fn issue(
        &self,
        seat: &mut TableSeat<P>,
        leaves: P::Stamp,
    ) -> (TableSeat<P>, P::Stamp)
        requires own { seat.old.table_id ≡ self.now }
        requires aside { seat.old.me.0.is_first ≡ false }
        requires token { (t : Token P.Stamp) × (seat.old.me.0.token ≡ Some t) × (t.promise ≡ None) × (t.stage ≢ stage.Done) × (t.number + 1 < 2 ^ 64) }
        ensures same { Stays seat.old seat.new × (seat.new.me ≡ (issuing (record seat.old.me.0 { said = Some leaves }), seat.old.me.1)) }
        ensures heir { (result.0.table_id ≡ self.now) × (result.0.me ≡ (heir (record seat.old.me.0 { said = Some leaves }), [])) }
        ensures back { result.1 ≡ leaves }
    {
        let last = self.table.slot_count();
        let said = Home::Said(leaves);
        self.table
            .shared
            .compare_exchange_with::<Announce>(seat, last, 0, 0, &said);
        let heir = self.table.shared.split_seat::<Issue>(seat);
        (heir, unsaid(said))
    }

    /// A seat for another thread.
    pub(crate) fn split(&self, seat: &mut TableSeat<P>) -> TableSeat<P>
        requires own { seat.old.table_id ≡ self.now }
        requires first { (seat.old.me.0.is_first ≡ true) × (seat.old.me.0.opens ≡ false) }
        ensures same { Stays seat.old seat.new × (seat.new.me ≡ (lending seat.old.me.0, seat.old.me.1)) }
        ensures lent { (result.table_id ≡ self.now) × (result.me ≡ (lent seat.old.me.0, [])) }
    {
        self.table.shared.split_seat::<SplitOff>(seat)
    }

    /// A seat comes back.
    pub(crate) fn join(&self, seat: &mut TableSeat<P>, other: TableSeat<P>)
        requires own { (seat.old.table_id ≡ self.now) × (other.table_id ≡ self.now) }
        requires readers { (seat.old.me.0.live ≡ 1) × (other.me.0.live ≡ 1) }
        requires bare { (other.me.0.stock ≡ []) × (other.me.0.token ≡ None) × (other.me.1 ≡ []) }
        ensures same { Stays seat.old seat.new × (seat.new.me ≡ (absorbed seat.old.me.0 other.me.0, seat.old.me.1)) }
        ensures exact { IsAlone seat.new.me.0 → IsExact self.now.slots seat.new.me.0.leaves seat.new.me.0.seen }
    {
        self.table.shared.join_seat::<TakeIn>(seat, other);
        self.table.shared.load::<Audit>(seat, 0);
    }
}

impl<P: Stamped> Drop for TurnTable<P> {
    fn drop(self) {
        let TurnTable { table: _, alloc: _ } = self;
    }
}
