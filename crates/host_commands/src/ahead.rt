//! A link that is served while it is read ahead.

ghost use Rattle.std.specs.Prelude.{◌≡◌, [], Err, IfSome, IfNone, IfErr, OnOk, IsFalse};
ghost use Rattle.link_frames.specs.Ahead.{IsBehind, HasReadNone};
ghost use Rattle.link_frames.specs.declared.link_fault.LinkFault.TheVariants.{Unreadable};
ghost use Rattle.host_serving.specs.Serving.{Served, Stopped};
ghost use Rattle.host_serving.specs.declared.host_fault.HostFault.TheVariants.{Link as OfLink};

use file_devices::{Sink, Source};
use host_serving::{Host, HostFault, MaxBatch, Teller};
use issuer_rules::Shipped;
use link_frames::{Link, Reading, Signals, ends_of_link};
use log_file::GrowingFile;
use std::alloc::Global;
use std::io::Write;
use std::marker::Brand;
use std::sync::{Arc, Wait};
use std::thread::{Threads, join_mut};

// Tells a fault.
fn tell<E: Write>(teller: &mut Teller<E>, served: &Result<(), HostFault>) {
    if let Err(fault) = served {
        teller.fault(*fault);
    }
}

// Serves the bytes that are read ahead, and tells the fault at once. `None` where no thread reads them.
fn serve_there<R: Threads + Sync, A: Source, G: GrowingFile + Drop, O: Sink, E: Write>(
    rt: &R,
    alloc: Global,
    ahead: &mut A,
    signals: &Signals,
    host: &mut Host<G>,
    sink: &mut O,
    most: MaxBatch,
    teller: &mut Teller<E>,
) -> Option<Result<(), HostFault>>
    ensures none { IfNone result ((host.new ≡ host.old) × (sink.new ≡ sink.old)) }
    ensures ok { IfSome result (λ served. OnOk served (Served G.is_known G.synced G.unsynced host.old host.new
        (A.is_known ahead.old) (A.remaining ahead.old) [] (O.is_known sink.old) (O.written sink.old) (O.written sink.new))) }
    ensures stopped { IfSome result (λ served. IfErr served (λ e. Stopped G.is_known G.synced G.unsynced e host.old host.new
        (A.is_known ahead.old) (A.remaining ahead.old) (O.is_known sink.old) (O.written sink.old) (O.written sink.new))) }
    ensures unreadable { IfSome result (λ served. served ≡ Err (OfLink Unreadable) → A.may_fail ahead.old) }
{
    if !signals.wait_for_reader() {
        return None;
    }
    let served = host.serve_link(rt, alloc, ahead, sink, &Shipped, most, teller);
    tell(teller, &served);
    signals.stop();
    Some(served)
}

// Reads a link in a thread of its own, and serves it meanwhile. Returns whether that thread read, and what serving came to.
fn serve_together<
    L: Link + Send + Sync,
    R: Threads + Wait + Sync,
    A: Source,
    G: GrowingFile + Drop,
    I: Source + Send,
    O: Sink,
    E: Write,
>(
    rt: &R,
    alloc: Global,
    reading: &mut Reading<L>,
    ahead: &mut A,
    signals: &Signals,
    host: &mut Host<G>,
    source: &mut I,
    sink: &mut O,
    most: MaxBatch,
    teller: &mut Teller<E>,
) -> (bool, Option<Result<(), HostFault>>)
    requires reading { HasReadNone reading.old }
    requires link { IsBehind I.is_known I.remaining I.may_fail L.is_known L.bytes L.may_fail [] source.old }
    ensures unread { IsFalse result.0 → source.new ≡ source.old }
    ensures none { IfNone result.1 ((host.new ≡ host.old) × (sink.new ≡ sink.old)) }
    ensures ok { IfSome result.1 (λ served. OnOk served (Served G.is_known G.synced G.unsynced host.old host.new
        (A.is_known ahead.old) (A.remaining ahead.old) [] (O.is_known sink.old) (O.written sink.old) (O.written sink.new))) }
    ensures stopped { IfSome result.1 (λ served. IfErr served (λ e. Stopped G.is_known G.synced G.unsynced e host.old host.new
        (A.is_known ahead.old) (A.remaining ahead.old) (O.is_known sink.old) (O.written sink.old) (O.written sink.new))) }
    ensures unreadable { IfSome result.1 (λ served. served ≡ Err (OfLink Unreadable) → A.may_fail ahead.old) }
{
    let (has_read, served) = join_mut(
        rt,
        &mut || -> bool
            requires none { HasReadNone reading.now }
            requires link { IsBehind I.is_known I.remaining I.may_fail L.is_known L.bytes L.may_fail [] source.now }
            ensures { IsFalse result → source.exit.now ≡ source.entry.now }
        { reading.work(rt, source) },
        &mut || -> Option<Result<(), HostFault>>
            ensures none { IfNone result ((host.exit.now ≡ host.entry.now) × (sink.exit.now ≡ sink.entry.now)) }
            ensures ok { IfSome result (λ served. OnOk served (Served G.is_known G.synced G.unsynced host.entry.now host.exit.now
                (A.is_known ahead.entry.now) (A.remaining ahead.entry.now) [] (O.is_known sink.entry.now) (O.written sink.entry.now) (O.written sink.exit.now))) }
            ensures stopped { IfSome result (λ served. IfErr served (λ e. Stopped G.is_known G.synced G.unsynced e host.entry.now host.exit.now
                (A.is_known ahead.entry.now) (A.remaining ahead.entry.now) (O.is_known sink.entry.now) (O.written sink.entry.now) (O.written sink.exit.now))) }
            ensures unreadable { IfSome result (λ served. served ≡ Err (OfLink Unreadable) → A.may_fail ahead.entry.now) }
        { serve_there(rt, alloc, ahead, signals, host, sink, most, teller) },
    );
    (has_read, served)
}

// The same, of this link. Where no thread can be made, it is read as it is served.
fn serve_named<
    L: Link + Send + Sync,
    R: Threads + Wait + Copy + Sync,
    G: GrowingFile + Drop,
    I: Source + Send,
    O: Sink,
    E: Write,
>(
    rt: &R,
    alloc: Global,
    host: &mut Host<G>,
    source: &mut I,
    sink: &mut O,
    most: MaxBatch,
    teller: &mut Teller<E>,
) -> Result<(), HostFault>
    requires known { L.is_known → I.is_known source.old × (I.remaining source.old ≡ L.bytes) }
    requires may { I.may_fail source.old → L.may_fail }
    ensures ok { OnOk result (Served G.is_known G.synced G.unsynced host.old host.new
        L.is_known L.bytes [] (O.is_known sink.old) (O.written sink.old) (O.written sink.new)) }
    ensures stopped { IfErr result (λ e. Stopped G.is_known G.synced G.unsynced e host.old host.new
        L.is_known L.bytes (O.is_known sink.old) (O.written sink.old) (O.written sink.new)) }
    ensures unreadable { result ≡ Err (OfLink Unreadable) → L.may_fail }
{
    let Ok(signals) = Arc::new(alloc, Signals::new()) else {
        teller.fault(HostFault::OutOfMemory);
        return Err(HostFault::OutOfMemory);
    };
    let Ok((mut reading, mut ahead)) = ends_of_link::<L, R>(*rt, alloc, &signals) else {
        teller.fault(HostFault::OutOfMemory);
        return Err(HostFault::OutOfMemory);
    };
    let (has_read, served) = serve_together(
        rt,
        alloc,
        &mut reading,
        &mut ahead,
        &signals,
        host,
        source,
        sink,
        most,
        teller,
    );
    if let Some(served) = served {
        return served;
    }
    // One of the two threads claims the link, and not both.
    if has_read {
        teller.fault(HostFault::OutOfMemory);
        return Err(HostFault::OutOfMemory);
    }
    let served = host.serve_link(rt, alloc, source, sink, &Shipped, most, teller);
    tell(teller, &served);
    served
}

/// Serves a link as `Host::serve_link` does, by the decisions of the tables, while a thread of its own reads it ahead: what comes while an
/// entry is synced becomes the next one. Where no thread can be made it is read as it is served. After a fault, which is told at
/// once, it returns where the link ends or the next bytes come, since a thread that waits for bytes can't be stopped.
pub(crate) fn serve_ahead<
    R: Threads + Wait + Copy + Sync,
    G: GrowingFile + Drop,
    I: Source + Send,
    O: Sink,
    E: Write,
>(
    rt: &R,
    alloc: Global,
    host: &mut Host<G>,
    source: &mut I,
    sink: &mut O,
    most: MaxBatch,
    teller: &mut Teller<E>,
) -> Result<(), HostFault>
    // Where no fault is met, all frames of the link were served.
    ensures ok { OnOk result (Served G.is_known G.synced G.unsynced host.old host.new
        (I.is_known source.old) (I.remaining source.old) [] (O.is_known sink.old) (O.written sink.old) (O.written sink.new)) }
    // After a fault nothing was answered that isn't in the log.
    ensures stopped { IfErr result (λ e. Stopped G.is_known G.synced G.unsynced e host.old host.new
        (I.is_known source.old) (I.remaining source.old) (O.is_known sink.old) (O.written sink.old) (O.written sink.new)) }
    // The link can't be read only where a call of its source may fail.
    ensures unreadable { result ≡ Err (OfLink Unreadable) → I.may_fail source.old }
{
    serve_named::<Brand, R, G, I, O, E>(rt, alloc, host, source, sink, most, teller)
}
