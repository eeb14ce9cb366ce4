use crate::lines::add_entry;
use crate::stats_interval::StatsInterval;
use crate::tally::Tally;
use crate::watch::Watch;
use issuer_rows::Frame;
use std::alloc::Global;
use std::fmt::Display;
use std::io::Write;

/// Tells people what a host skips and how it goes, by lines to a writer. Where the writer doesn't take the lines of an entry, or memory runs
/// out for them, no later entry is told; the host goes on.
#[derive(Drop)]
pub struct Teller<E> {
    writer: E,
    stats: Option<StatsInterval>,
    // The lines of the last entry.
    text: Vec<u8>,
    entries: u64,
    is_stuck: bool,
}

impl<E: Write> Teller<E> {
    ghost use Rattle.std.specs.Prelude.{◌≡◌, false, IsTrue};
    ghost use Rattle.std.specs.Io.KnownBytes.{Appends};
    ghost use Rattle.host_serving.specs.Lines.{entry_lines};

    /// Nothing is told yet. How the host goes is told each time that so many bodies came, if at all.
    pub fn new(alloc: Global, writer: E, stats: Option<StatsInterval>) -> Teller<E>
        ensures writer { result.writer ≡ writer }
        ensures stats { result.stats ≡ stats }
        ensures entries { result.entries ≡ 0 }
        ensures free { result.is_stuck ≡ false }
    {
        Teller {
            writer,
            stats,
            text: Vec::new(alloc),
            entries: 0,
            is_stuck: false,
        }
    }

    /// The writer.
    pub fn into_writer(self) -> E
        ensures { result ≡ self.writer }
    {
        self.writer
    }

    /// The host was opened: its log has so many entries, and so many bytes of a torn tail were cut, which a line tells where there are some.
    pub fn opened(&mut self, entries: u64, torn: u64)
        ensures entries { self.new.entries ≡ entries }
        ensures stats { self.new.stats ≡ self.old.stats }
        ensures stuck { self.new.is_stuck ≡ self.old.is_stuck }
    {
        self.entries = entries;
        if torn > 0 {
            let _ = write!(&mut self.writer, "torn {torn}\n");
        }
    }

    /// Tells a fault, by a line.
    pub fn fault<T: Display + Copy + Drop>(&mut self, fault: T) {
        let _ = write!(&mut self.writer, "{fault}\n");
    }

    // Tells of an entry, by all its lines at once. Returns whether the writer took them: it may not, and memory can run out.
    fn tell(&mut self, before: Tally, messages: &[Frame]) -> bool
        ensures lines { IsTrue result → Appends (E.contents self.old.writer) (E.contents self.new.writer)
            (entry_lines self.old.stats before messages.now self.old.entries) }
        ensures stats { self.new.stats ≡ self.old.stats }
        ensures entries { self.new.entries ≡ self.old.entries }
    {
        self.text.clear();
        if add_entry(&mut self.text, self.stats, before, messages, self.entries).is_err() {
            return false;
        }
        self.text.is_empty() || self.writer.write_all(&self.text).is_ok()
    }
}

impl<E: Write> Watch for Teller<E> {
    ghost use Rattle.host_serving.specs.Telling.{TellsEntry};

    ghost hears = { TellsEntry E.contents };

    fn entry_synced(&mut self, before: Tally, messages: &[Frame]) {
        self.entries = self.entries.saturating_add(1);
        if !self.is_stuck {
            self.is_stuck = !self.tell(before, messages);
        }
    }
}
