ghost use Rattle.std.specs.Prelude.{◌≡◌, ◌++◌, ◌∷◌, codes, [], None, OnOk, decimal, option_map, if◌then◌else◌};
ghost use Rattle.std.specs.Io.KnownBytes.{Appends};
ghost use Rattle.app_commands.specs.Fault.{text_of};
ghost use Rattle.app_commands.specs.Printed.{behind, count_unreadable, decided, decided_in_blocks, numbered, packed_in_blocks, printed, unreadable, Prints, PrintsLine};

use crate::fault::Fault;
use app_jobs::BlockCount;
use file_batch::BodyCount;
use itoa::Buffer;
use std::io;
use std::io::Write;

/// Prints lines to a writer. Where the writer doesn't take one, all that comes after it is dropped too.
#[derive(Debug, Drop)]
pub struct Printer<W> {
    writer: W,
    is_stuck: bool,
}

impl<W: Write> Printer<W> {
    /// A printer over the writer, which prints behind what the writer holds.
    pub fn new(writer: W) -> Printer<W>
        ensures { printed W.contents result ≡ W.contents writer }
    {
        Printer {
            writer,
            is_stuck: false,
        }
    }

    /// Prints the bytes as they are, without a line feed.
    pub fn text(&mut self, bytes: &[u8])
        ensures { Prints (printed W.contents self.old) (printed W.contents self.new) bytes.now }
    {
        if !self.is_stuck {
            self.is_stuck = self.writer.write_all(bytes).is_err();
        }
    }

    /// Prints the text and a line feed.
    pub fn line(&mut self, text: &[u8])
        ensures { PrintsLine (printed W.contents self.old) (printed W.contents self.new) text.now }
    {
        if !self.is_stuck {
            self.is_stuck = write_line(&mut self.writer, text).is_err();
        }
    }

    /// Prints the word, a space, the number and a line feed.
    pub fn numbered(&mut self, word: &str, number: u64)
        ensures { PrintsLine (printed W.contents self.old) (printed W.contents self.new) (numbered word.now number) }
    {
        if !self.is_stuck {
            self.is_stuck = write_numbered(&mut self.writer, word, number).is_err();
        }
    }

    /// Prints the line of a fault, or its two lines: what it is of and its number there, or what is wrong with the words; and behind it
    /// what a person is told of it, if there is something.
    pub fn fault(&mut self, fault: &Fault, words: Option<&[u8]>)
        ensures { PrintsLine (printed W.contents self.old) (printed W.contents self.new) (text_of fault.now ++ behind (option_map (λ words. words.now) words.entry)) }
    {
        if !self.is_stuck {
            self.is_stuck = write_refusal(&mut self.writer, fault, words).is_err();
        }
    }

    /// Prints the line `decided N`, for so many bodies, and how many of them are unreadable, where some are.
    pub fn decided(&mut self, count: BodyCount)
        ensures { PrintsLine (printed W.contents self.old) (printed W.contents self.new) (decided count) }
    {
        if !self.is_stuck {
            self.is_stuck = write_decided(&mut self.writer, count).is_err();
        }
    }

    /// Prints the line `decided N in M blocks`, for so many bodies in so many blocks, and how many of them are unreadable, where some are.
    pub fn decided_in_blocks(&mut self, count: BlockCount)
        ensures { PrintsLine (printed W.contents self.old) (printed W.contents self.new) (decided_in_blocks count) }
    {
        if !self.is_stuck {
            self.is_stuck = write_decided_in_blocks(&mut self.writer, count).is_err();
        }
    }

    /// Prints the line `packed N in M blocks`, for so many bodies in so many blocks.
    pub fn packed_in_blocks(&mut self, bodies: u64, blocks: u64)
        ensures { PrintsLine (printed W.contents self.old) (printed W.contents self.new) (packed_in_blocks bodies blocks) }
    {
        if !self.is_stuck {
            self.is_stuck = write_packed_in_blocks(&mut self.writer, bodies, blocks).is_err();
        }
    }

    /// Whether the writer didn't take all that was printed.
    pub fn is_stuck(&self) -> bool
        ensures { result ≡ self.now.is_stuck }
    {
        self.is_stuck
    }

    /// The writer, and whether it took all that was printed.
    pub fn into_parts(self) -> (W, bool)
        ensures { printed W.contents self ≡ (if result.1 then W.contents result.0 else None) }
    {
        (self.writer, !self.is_stuck)
    }
}

fn write_line<W: Write>(writer: &mut W, text: &[u8]) -> io::Result<()>
    ensures { OnOk result (Appends (W.contents writer.old) (W.contents writer.new) (text.now ++ 10 ∷ [])) }
{
    writer.write_all(text)?;
    end_line(writer)
}

fn write_numbered<W: Write>(writer: &mut W, word: &str, number: u64) -> io::Result<()>
    ensures { OnOk result (Appends (W.contents writer.old) (W.contents writer.new) (numbered word.now number ++ 10 ∷ [])) }
{
    writer.write_all(word.as_bytes())?;
    writer.write_all(b" ")?;
    write_number(writer, number)?;
    end_line(writer)
}

// The line of a fault, or its two lines.
fn write_fault<W: Write>(writer: &mut W, fault: &Fault) -> io::Result<()>
    ensures { OnOk result (Appends (W.contents writer.old) (W.contents writer.new) (text_of fault.now ++ 10 ∷ [])) }
{
    match fault {
        Fault::Usage(text) => write_line(writer, text.as_bytes()),
        Fault::OutOfMemory => write_line(writer, b"memory 1"),
        Fault::Job(fault) => write_numbered(writer, fault.part(), fault.number() as u64),
        Fault::Halted(fault, kept) => {
            write_numbered(writer, fault.part(), fault.number() as u64)?;
            write_numbered(writer, "kept", u64::from(*kept))
        }
    }
}

// The line of a fault, and what is told behind it.
fn write_refusal<W: Write>(writer: &mut W, fault: &Fault, words: Option<&[u8]>) -> io::Result<()>
    ensures { OnOk result (Appends (W.contents writer.old) (W.contents writer.new)
        ((text_of fault.now ++ behind (option_map (λ words. words.now) words.entry)) ++ 10 ∷ [])) }
{
    write_fault(writer, fault)?;
    match words {
        Some(words) => write_line(writer, words),
        None => Ok(()),
    }
}

fn write_decided<W: Write>(writer: &mut W, count: BodyCount) -> io::Result<()>
    ensures { OnOk result (Appends (W.contents writer.old) (W.contents writer.new) (decided count ++ 10 ∷ [])) }
{
    writer.write_all(b"decided ")?;
    write_number(writer, u64::from(count.bodies))?;
    write_unreadable(writer, count.unreadable)?;
    end_line(writer)
}

fn write_decided_in_blocks<W: Write>(writer: &mut W, count: BlockCount) -> io::Result<()>
    ensures { OnOk result (Appends (W.contents writer.old) (W.contents writer.new) (decided_in_blocks count ++ 10 ∷ [])) }
{
    writer.write_all(b"decided ")?;
    write_number(writer, u64::from(count.messages.bodies))?;
    writer.write_all(b" in ")?;
    write_number(writer, u64::from(count.blocks))?;
    writer.write_all(b" blocks")?;
    write_unreadable(writer, count.messages.unreadable)?;
    end_line(writer)
}

fn write_packed_in_blocks<W: Write>(writer: &mut W, bodies: u64, blocks: u64) -> io::Result<()>
    ensures { OnOk result (Appends (W.contents writer.old) (W.contents writer.new) (packed_in_blocks bodies blocks ++ 10 ∷ [])) }
{
    writer.write_all(b"packed ")?;
    write_number(writer, bodies)?;
    writer.write_all(b" in ")?;
    write_number(writer, blocks)?;
    writer.write_all(b" blocks")?;
    end_line(writer)
}

fn write_unreadable<W: Write>(writer: &mut W, count: u32) -> io::Result<()>
    ensures { OnOk result (Appends (W.contents writer.old) (W.contents writer.new) (unreadable count)) }
{
    if count == 0 {
        return Ok(());
    }
    write_count_unreadable(writer, count)
}

fn write_count_unreadable<W: Write>(writer: &mut W, count: u32) -> io::Result<()>
    ensures { OnOk result (Appends (W.contents writer.old) (W.contents writer.new) (count_unreadable count)) }
{
    writer.write_all(b", ")?;
    write_number(writer, u64::from(count))?;
    write_word_unreadable(writer)
}

fn write_word_unreadable<W: Write>(writer: &mut W) -> io::Result<()>
    ensures { OnOk result (Appends (W.contents writer.old) (W.contents writer.new) (codes " unreadable")) }
{
    writer.write_all(b" unreadable")
}

fn write_number<W: Write>(writer: &mut W, number: u64) -> io::Result<()>
    ensures { OnOk result (Appends (W.contents writer.old) (W.contents writer.new) (decimal number)) }
{
    let mut digits = Buffer::new();
    writer.write_all(digits.format(number).as_bytes())
}

fn end_line<W: Write>(writer: &mut W) -> io::Result<()>
    ensures { OnOk result (Appends (W.contents writer.old) (W.contents writer.new) (10 ∷ [])) }
{
    writer.write_all(b"\n")
}
