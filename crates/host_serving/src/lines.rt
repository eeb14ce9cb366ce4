//! The lines of one entry.

ghost use Rattle.std.specs.Prelude.{◌≡◌, ◌++◌, ◌∷◌, codes, decimal, OnOk, IfOk};
ghost use Rattle.issuer_rows.specs.FrameFault.{fault_body};
ghost use Rattle.host_serving.specs.Tally.{counted};
ghost use Rattle.host_serving.specs.Lines.{entry_lines, stats_line, stats_lines, unreadable_line, unreadable_line_of, unreadable_lines};

use crate::stats_interval::StatsInterval;
use crate::tally::Tally;
use issuer_rows::{Frame, FrameFault};
use itoa::Buffer;
use std::alloc::AllocError;

// Appends the number in decimal.
fn add_number(text: &mut Vec<u8>, number: u64) -> Result<(), AllocError>
    ensures { OnOk result (text.new.items ≡ text.old.items ++ decimal number) }
{
    let mut digits = Buffer::new();
    text.extend_from_slice(digits.format(number).as_bytes())
}

// Appends that the body of this number is no message.
fn add_place(text: &mut Vec<u8>, number: u64) -> Result<(), AllocError>
    ensures { OnOk result (text.new.items ≡ text.old.items ++ codes "unreadable " ++ decimal number) }
{
    text.extend_from_slice(b"unreadable ")?;
    add_number(text, number)
}

// Appends its fault.
fn add_fault(text: &mut Vec<u8>, fault: &FrameFault) -> Result<(), AllocError>
    ensures { OnOk result (text.new.items ≡ text.old.items ++ codes " " ++ fault_body fault.now) }
{
    text.extend_from_slice(b" ")?;
    text.extend_from_slice(&fault.body())
}

// Appends the line of a body that is no message: its number, and its fault.
fn add_unreadable(text: &mut Vec<u8>, number: u64, fault: &FrameFault) -> Result<(), AllocError>
    ensures { OnOk result (text.new.items ≡ text.old.items ++ unreadable_line number fault.now) }
{
    add_place(text, number)?;
    add_fault(text, fault)?;
    text.extend_from_slice(b"\n")
}

// Appends the line of a body, where it is no message.
fn add_frame(text: &mut Vec<u8>, number: u64, frame: &Frame) -> Result<(), AllocError>
    ensures { OnOk result (text.new.items ≡ text.old.items ++ unreadable_line_of number frame.now) }
{
    match frame {
        Frame::Good(_) => Ok(()),
        Frame::Bad(fault) => add_unreadable(text, number, fault),
    }
}

// Appends the lines of those bodies that are no message. Returns what is counted behind them.
fn add_frames(text: &mut Vec<u8>, before: Tally, frames: &[Frame]) -> Result<Tally, AllocError>
    ensures lines { OnOk result (text.new.items ≡ text.old.items ++ unreadable_lines before frames.now) }
    ensures tally { IfOk result (λ after. after ≡ counted before frames.now) }
{
    let mut tally = before;
    for frame in frames {
        add_frame(text, tally.bodies, frame)?;
        tally.add_one(frame);
    }
    Ok(tally)
}

// Appends the line that tells how it goes.
fn add_stats(text: &mut Vec<u8>, tally: Tally, entries: u64) -> Result<(), AllocError>
    ensures { OnOk result (text.new.items ≡ text.old.items ++ stats_line tally entries) }
{
    text.extend_from_slice(b"decided ")?;
    add_number(text, tally.bodies)?;
    text.extend_from_slice(b", ")?;
    add_number(text, tally.unreadable)?;
    text.extend_from_slice(b" unreadable, ")?;
    add_number(text, entries)?;
    text.extend_from_slice(b" entries\n")
}

// Appends the line that tells how it goes, where it is due.
fn add_stats_due(
    text: &mut Vec<u8>,
    stats: Option<StatsInterval>,
    before: Tally,
    after: Tally,
    entries: u64,
) -> Result<(), AllocError>
    ensures { OnOk result (text.new.items ≡ text.old.items ++ stats_lines stats before after entries) }
{
    match stats {
        Some(every) if every.is_due(before.bodies, after.bodies) => add_stats(text, after, entries),
        _ => Ok(()),
    }
}

/// Appends what is told of an entry of these messages: so much was counted before them, and the log has so many entries with it.
pub(crate) fn add_entry(
    text: &mut Vec<u8>,
    stats: Option<StatsInterval>,
    before: Tally,
    frames: &[Frame],
    entries: u64,
) -> Result<(), AllocError>
    ensures { OnOk result (text.new.items ≡ text.old.items ++ entry_lines stats before frames.now entries) }
{
    let after = add_frames(text, before, frames)?;
    add_stats_due(text, stats, before, after, entries)
}
