use crate::handing::{hand_over, wait_for};
use crate::piece::{OfOneBatch, Piece};
use crate::replies::add_replies;
use crate::signals::Signals;
use crate::window::Window;
use file_devices::Source;
use file_laws::BatchFault;
use rtrb::{Consumer, Producer};
use std::alloc::{AllocError, Global};
use std::sync::Wait;

/// How many messages are in a piece.
pub(crate) const PIECE: u32 = 512;

// How many pieces are with the thread that decides when this one waits.
const AHEAD: usize = 8;

/// What the thread has that reads a batch: the pieces outbound to the one that decides, those inbound from it, and the text of the
/// replies in them.
#[derive(Drop)]
pub(crate) struct Reader {
    pub(crate) outbound: Producer<Piece, Global, OfOneBatch>,
    pub(crate) inbound: Consumer<Piece>,
    /// The text of the replies that came back.
    pub(crate) out: Vec<u8>,
    // Memory for the text of one.
    text: Vec<u8>,
    // How many pieces are with the thread that decides.
    away: usize,
}

impl Reader {
    ghost use Rattle.std.specs.Prelude.{◌≡◌, ◌++◌, ◌≤◌, ℕ, List, [], length, IfErr, OnOk};
    ghost use Rattle.std.specs.List.{AllByRecursion};
    ghost use Rattle.file_batch.specs.Device.{UsesDevice};
    ghost use Rattle.file_laws.specs.Reading.{bodies_at};
    ghost use Rattle.file_laws.specs.Replies.{IsReplyBody};
    ghost use Rattle.rtrb.specs.Ring.{sent, received, known_items, SameProducer, SameConsumer};
    ghost use Rattle.file_batch.specs.InOrder.{GivesInto, texts_of};
    ghost use Rattle.file_batch.specs.Pieces.{HasTold, frames_in};
    ghost use Rattle.file_batch.specs.Window.{ahead};

    /// The text of what came back is to stand behind this one.
    pub(crate) fn new(
        alloc: Global,
        out: Vec<u8>,
        outbound: Producer<Piece, Global, OfOneBatch>,
        inbound: Consumer<Piece>,
    ) -> Reader
        ensures ends { (result.outbound ≡ outbound) × (result.inbound ≡ inbound) }
        ensures out { result.out ≡ out }
    {
        Reader {
            outbound,
            inbound,
            out,
            text: Vec::new(alloc),
            away: 0,
        }
    }

    /// Reads so many bodies and hands them over, piece by piece and then one without frames, and makes the text of the replies that come
    /// back. Where no thread decides yet, it doesn't wait for them.
    pub(crate) fn work<W: Wait, R: Source>(
        &mut self,
        rt: &W,
        alloc: Global,
        window: &mut Window,
        source: &mut R,
        count: u32,
        signals: &Signals,
    ) -> Result<(), BatchFault>
        requires few { count ≤ 65536 }
        requires none { sent self.old.outbound ≡ [] }
        ensures ends { SameProducer self.old.outbound self.new.outbound × SameConsumer self.old.inbound self.new.inbound }
        ensures device { UsesDevice R.is_known R.has_failed R.may_fail source.old source.new result }
        ensures read { OnOk result (length (frames_in (sent self.new.outbound)) ≡ count) }
        ensures gives { R.is_known source.old → GivesInto result (frames_in (sent self.new.outbound))
            (ahead window.new (R.remaining source.new)) (bodies_at count (ahead window.old (R.remaining source.old))) }
        ensures told { (head : List ℕ) → HasTold head self.old → OnOk result (HasTold head self.new) }
    {
        let read = self.read_all(rt, alloc, window, source, count, signals);
        hand_over(rt, &mut self.outbound, Piece::new(alloc), &signals.read);
        read?;
        if signals.has_begun() {
            self.take_rest(rt, signals)?;
        }
        Ok(())
    }

    // Reads so many bodies and hands them over, piece by piece.
    fn read_all<W: Wait, R: Source>(
        &mut self,
        rt: &W,
        alloc: Global,
        window: &mut Window,
        source: &mut R,
        count: u32,
        signals: &Signals,
    ) -> Result<(), BatchFault>
        requires few { count ≤ 65536 }
        requires none { sent self.old.outbound ≡ [] }
        ensures ends { SameProducer self.old.outbound self.new.outbound × SameConsumer self.old.inbound self.new.inbound }
        ensures device { UsesDevice R.is_known R.has_failed R.may_fail source.old source.new result }
        ensures few { length (frames_in (sent self.new.outbound)) ≤ count }
        ensures read { OnOk result (length (frames_in (sent self.new.outbound)) ≡ count) }
        ensures gives { R.is_known source.old → GivesInto result (frames_in (sent self.new.outbound))
            (ahead window.new (R.remaining source.new)) (bodies_at count (ahead window.old (R.remaining source.old))) }
        ensures told { (head : List ℕ) → HasTold head self.old → OnOk result (HasTold head self.new) }
    {
        let mut left = count;
        while left > 0 {
            let size = left.min(PIECE);
            let mut piece = self.free_piece(rt, alloc, signals)?;
            window.read_into(source, size, &mut piece.frames)?;
            hand_over(rt, &mut self.outbound, piece, &signals.read);
            self.away = self.away.saturating_add(1);
            left -= size;
        }
        Ok(())
    }

    // A piece that came back, or a new one.
    fn free_piece<W: Wait>(
        &mut self,
        rt: &W,
        alloc: Global,
        signals: &Signals,
    ) -> Result<Piece, BatchFault>
        ensures ends { (self.new.outbound ≡ self.old.outbound) × SameConsumer self.old.inbound self.new.inbound }
        ensures told { (head : List ℕ) → HasTold head self.old → OnOk result (HasTold head self.new) }
        ensures fault { IfErr result (λ fault. fault ≡ BatchFault.OutOfMemory) }
    {
        let came = if self.away >= AHEAD && signals.has_begun() {
            Some(wait_for(rt, &mut self.inbound, &signals.decided))
        } else {
            self.inbound.pop().ok()
        };
        let Some(piece) = came else {
            return Ok(Piece::new(alloc));
        };
        if piece.replies.is_empty() {
            return Err(BatchFault::OutOfMemory);
        }
        self.away = self.away.saturating_sub(1);
        add_replies(&mut self.out, &mut self.text, &piece.replies)?;
        Ok(piece)
    }

    // Makes the text of the replies in the pieces that still come back, up to one without any.
    fn take_rest<W: Wait>(&mut self, rt: &W, signals: &Signals) -> Result<(), AllocError>
        ensures ends { (self.new.outbound ≡ self.old.outbound) × SameConsumer self.old.inbound self.new.inbound }
        ensures told { (head : List ℕ) → HasTold head self.old → OnOk result (HasTold head self.new) }
    {
        for _ in rt.forever() {
            let piece = wait_for(rt, &mut self.inbound, &signals.decided);
            if piece.replies.is_empty() {
                return Ok(());
            }
            add_replies(&mut self.out, &mut self.text, &piece.replies)?;
        }
        unreachable!()
    }

    /// Makes the text of the replies in the pieces that came back and were not taken.
    pub(crate) fn take_left(&mut self, left: usize) -> Result<(), AllocError>
        requires { left ≡ length (known_items self.old.inbound) }
        ensures outbound { self.new.outbound ≡ self.old.outbound }
        ensures received { OnOk result (received self.new.inbound ≡ received self.old.inbound ++ known_items self.old.inbound) }
        ensures told { (head : List ℕ) → HasTold head self.old → OnOk result (HasTold head self.new) }
    {
        for _ in 0..left {
            let piece = self.inbound.pop_known();
            add_replies(&mut self.out, &mut self.text, &piece.replies)?;
        }
        Ok(())
    }

    /// Makes the text of the replies in a piece.
    pub(crate) fn tell(&mut self, piece: &Piece) -> Result<(), AllocError>
        ensures ends { (self.new.outbound ≡ self.old.outbound) × (self.new.inbound ≡ self.old.inbound) }
        ensures out { OnOk result (self.new.out.items ≡ self.old.out.items ++ texts_of piece.now.replies.items) }
        ensures bodies { OnOk result (AllByRecursion IsReplyBody piece.now.replies.items) }
    {
        add_replies(&mut self.out, &mut self.text, &piece.replies)
    }
}
