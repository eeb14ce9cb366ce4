//! A batch that is decided in the order of its messages, while it is read.

ghost use Rattle.std.specs.Prelude.{◌≡◌, ℕ, List, [], ◌≤◌, ◌++◌, length, count_by, IfOk, OnOk};
ghost use Rattle.issuer_rows.specs.Fold.{Rows, rows_after, replies_to};
ghost use Rattle.rtrb.specs.Ring.{sent, received, SameProducer, SameConsumer};
ghost use Rattle.file_batch.specs.Device.{UsesDevice};
ghost use Rattle.file_laws.specs.Files.{head_text};
ghost use Rattle.file_laws.specs.Reading.{bodies_at, replies_magic};
ghost use Rattle.file_batch.specs.InOrder.{GivesInto, DecidesBodies, DecidesBatch, HasReplies};
ghost use Rattle.file_batch.specs.Counting.{is_unreadable};
ghost use Rattle.file_batch.specs.Pieces.{AreJoined, HasCounted, HasDecided, HasTold, frames_in};
ghost use Rattle.file_batch.specs.Window.{ahead};

use crate::body_count::BodyCount;
use crate::decider::Decider;
use crate::piece::OfOneBatch;
use crate::reader::{PIECE, Reader};
use crate::signals::Signals;
use crate::window::Window;
use crate::writing::add_head;
use file_devices::Source;
use file_laws::BatchFault;
use issuer_fold::Prefix;
use issuer_rows::{Book, ReplyBody};
use issuer_view::Decide;
use rtrb::RingBuffer;
use std::alloc::{AllocError, Global};
use std::sync::Wait;
use std::thread::{Threads, join_mut};

/// What deciding a batch in order came to.
#[derive(Drop)]
pub struct Decided {
    /// How many bodies it has, and how many of them are no message.
    pub count: BodyCount,
    /// The book after them.
    pub book: Book,
}

/// A batch that was decided, and the text of its reply file.
#[derive(Drop)]
pub struct Answered {
    /// What deciding it came to.
    pub decided: Decided,
    /// The text of the replies to its messages, with its head.
    pub text: Vec<u8>,
}

// The ends of what the thread that reads and the one that decides hand to each other, for a batch of so many messages on this book.
fn joined_ends(alloc: Global, book: Book, count: u32) -> Result<(Reader, Decider), AllocError>
    requires { count ≤ 65536 }
    ensures joined { IfOk result (λ ends. AreJoined ends.0 ends.1) }
    ensures none { IfOk result (λ ends. (sent ends.0.outbound ≡ []) × (received ends.0.inbound ≡ [])) }
    ensures out { IfOk result (λ ends. ends.0.out.items ≡ head_text replies_magic count) }
    ensures decided { IfOk result (λ ends. HasDecided book ends.1) }
{
    // Where no thread can be made, all pieces are read before the first one is decided.
    let most = count as usize / PIECE as usize + 2;
    let (read, to_decide) = RingBuffer::with_protocol::<Global, OfOneBatch>(alloc, most)?;
    let (decided, back) = RingBuffer::new(alloc, most)?;
    let mut out = Vec::new(alloc);
    add_head(&mut out, b"I83R", count)?;
    let decider = Decider::new(alloc, book, count, to_decide, decided)?;
    Ok((Reader::new(alloc, out, read, back), decider))
}

// Decides in a thread of its own, and meanwhile reads the next bodies, so many, and makes the text of the replies that come back.
fn work_together<T: Threads + Wait + Sync, R: Source, F: Decide + Sync>(
    rt: &T,
    alloc: Global,
    reader: &mut Reader,
    decider: &mut Decider,
    decision: &F,
    window: &mut Window,
    source: &mut R,
    count: u32,
) -> Result<(), BatchFault>
    requires few { count ≤ 65536 }
    requires none { sent reader.old.outbound ≡ [] }
    requires counted { HasCounted decider.old }
    ensures reader { SameProducer reader.old.outbound reader.new.outbound × SameConsumer reader.old.inbound reader.new.inbound }
    ensures decider { SameConsumer decider.old.inbound decider.new.inbound × SameProducer decider.old.outbound decider.new.outbound }
    ensures device { UsesDevice R.is_known R.has_failed R.may_fail source.old source.new result }
    ensures read { OnOk result (length (frames_in (sent reader.new.outbound)) ≡ count) }
    ensures gives { R.is_known source.old → GivesInto result (frames_in (sent reader.new.outbound))
        (ahead window.new (R.remaining source.new)) (bodies_at count (ahead window.old (R.remaining source.old))) }
    ensures told { (head : List ℕ) → HasTold head reader.old → OnOk result (HasTold head reader.new) }
    ensures decided { (book : Rows) → HasDecided book decider.old → OnOk result (HasDecided book decider.new) }
{
    let signals = Signals::new();
    let (decided, read) = join_mut(
        rt,
        &mut || -> Result<(), AllocError>
            requires { HasCounted decider.now }
            ensures ends { SameConsumer decider.entry.now.inbound decider.exit.now.inbound × SameProducer decider.entry.now.outbound decider.exit.now.outbound }
            ensures decided { (book : Rows) → HasDecided book decider.entry.now → OnOk result (HasDecided book decider.exit.now) }
        { decider.work(rt, alloc, decision, &signals) },
        &mut || -> Result<(), BatchFault>
            requires few { count ≤ 65536 }
            requires none { sent reader.now.outbound ≡ [] }
            ensures ends { SameProducer reader.entry.now.outbound reader.exit.now.outbound × SameConsumer reader.entry.now.inbound reader.exit.now.inbound }
            ensures device { UsesDevice R.is_known R.has_failed R.may_fail source.entry.now source.exit.now result }
            ensures read { OnOk result (length (frames_in (sent reader.exit.now.outbound)) ≡ count) }
            ensures gives { R.is_known source.entry.now → GivesInto result (frames_in (sent reader.exit.now.outbound))
                (ahead window.exit.now (R.remaining source.exit.now)) (bodies_at count (ahead window.entry.now (R.remaining source.entry.now))) }
            ensures told { (head : List ℕ) → HasTold head reader.entry.now → OnOk result (HasTold head reader.exit.now) }
        { reader.work(rt, alloc, window, source, count, &signals) },
    );
    read?;
    Ok(decided?)
}

// Decides what was read and not decided, and makes the text of the replies that have none yet.
fn decide_rest<F: Decide>(
    alloc: Global,
    reader: &mut Reader,
    decider: &mut Decider,
    decision: &F,
) -> Result<(), AllocError>
    requires joined { AreJoined reader.old decider.old }
    requires counted { HasCounted decider.old }
    ensures book { (book : Rows) → HasDecided book decider.old → OnOk result (decider.new.prefix.book ≡ rows_after book (frames_in (sent reader.old.outbound))) }
    ensures unreadable { OnOk result (decider.new.unreadable ≡ count_by is_unreadable (frames_in (sent reader.old.outbound))) }
    ensures told { (book : Rows) (head : List ℕ) → HasDecided book decider.old → HasTold head reader.old
        → OnOk result (HasReplies head (replies_to book (frames_in (sent reader.old.outbound))) reader.new.out.items) }
{
    let left = reader.inbound.slots_beside(&mut decider.outbound);
    reader.take_left(left)?;
    let left = decider.inbound.slots_beside(&mut reader.outbound);
    for _ in 0..left {
        let mut piece = decider.inbound.pop_known();
        decider.decide(alloc, decision, &mut piece)?;
        reader.tell(&piece)?;
    }
    Ok(())
}

// Reads the next bodies, so many, decides them on the book, and makes the text of their reply file.
fn decide_bodies<T: Threads + Wait + Sync, R: Source, F: Decide + Sync>(
    rt: &T,
    alloc: Global,
    book: Book,
    decision: &F,
    window: &mut Window,
    source: &mut R,
    count: u32,
) -> Result<Answered, BatchFault>
    requires few { count ≤ 65536 }
    ensures device { UsesDevice R.is_known R.has_failed R.may_fail source.old source.new result }
    ensures decides { DecidesBodies book result (R.is_known source.old)
        (ahead window.new (R.remaining source.new)) (bodies_at count (ahead window.old (R.remaining source.old))) }
{
    let (mut reader, mut decider) = joined_ends(alloc, book, count)?;
    work_together(
        rt,
        alloc,
        &mut reader,
        &mut decider,
        decision,
        window,
        source,
        count,
    )?;
    decide_rest(alloc, &mut reader, &mut decider, decision)?;
    let Reader { out, .. } = reader;
    let Decider {
        prefix,
        unreadable,
        ..
    } = decider;
    let Prefix { book, .. } = prefix;
    Ok(Answered {
        decided: Decided {
            count: BodyCount {
                bodies: count,
                unreadable,
            },
            book,
        },
        text: out,
    })
}

/// Reads a batch file, all of the source, decides it on the book in the order of its messages, by any local decision, and makes the text
/// of its reply file. Messages are decided in a thread of their own while the next ones are read. `Device` is the fault exactly where a
/// call of the source failed; and memory can run out.
#[tactic(auto, unfolding(file_laws::specs::Reading::bodies_of))]
pub fn decide_in_order<T: Threads + Wait + Sync, R: Source, F: Decide + Sync>(
    rt: &T,
    alloc: Global,
    book: Book,
    source: &mut R,
    decision: &F,
) -> Result<Answered, BatchFault>
    ensures device { UsesDevice R.is_known R.has_failed R.may_fail source.old source.new result }
    ensures decides { DecidesBatch book result (R.is_known source.old) (R.remaining source.old) }
    ensures end { OnOk result (R.is_known source.old → R.remaining source.new ≡ []) }
{
    let mut window = Window::new(alloc)?;
    let count = window.read_head(source, b"I83B")?;
    let answered = decide_bodies(rt, alloc, book, decision, &mut window, source, count)?;
    window.read_end(source)?;
    Ok(answered)
}
