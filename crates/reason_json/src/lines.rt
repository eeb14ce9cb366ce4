ghost use Rattle.std.specs.Prelude.{◌≡◌, ◌∷◌, ◌++◌, [], IfOk, OnOk, decimal, codes};
ghost use Rattle.json.specs.Print.{print};
ghost use Rattle.json.specs.Token.{key as key_token, string as string_token, number as number_token};
ghost use Rattle.book_laws.specs.Text.{Adds, members, tokens_of};
ghost use Rattle.serde_json.specs.Data.{object};
ghost use Rattle.message_text.specs.Lines.{all_tokens, frame_members, reply_members};
ghost use Rattle.reason_text.specs.Rules.{rule_name, rule_sentence};
ghost use Rattle.reason_json.specs.Lines.{head_members, row_members, why_line, why_members};

use crate::sets::{put_reads, put_writes};
use book_text::JsonWriter;
use iso_shown::CardNumbers;
use issuer_laws::DecisionRule;
use issuer_reasons::Explanation;
use issuer_rows::{Frame, ReplyBody};
use issuer_view::{ReadSet, WriteSet};
use message_text::{put_frame, put_reply};
use reason_text::RuleWords;
use std::alloc::{AllocError, Global};

// Writes the body as a member.
fn message_member(
    out: &mut JsonWriter,
    alloc: Global,
    cards: CardNumbers,
    frame: &Frame,
) -> Result<(), AllocError>
    ensures { OnOk result (Adds out.old out.new (key_token (codes "message") ∷ tokens_of (object (members (frame_members cards frame.now))))) }
{
    out.key("message")?;
    out.begin_object()?;
    put_frame(out, alloc, cards, frame)?;
    out.end_object()?;
    Ok(())
}

// Writes the reply as a member.
fn reply_member(
    out: &mut JsonWriter,
    alloc: Global,
    cards: CardNumbers,
    reply: &ReplyBody,
) -> Result<(), AllocError>
    ensures { OnOk result (Adds out.old out.new (key_token (codes "reply") ∷ tokens_of (object (members (reply_members cards reply.now))))) }
{
    out.key("reply")?;
    out.begin_object()?;
    put_reply(out, alloc, cards, reply)?;
    out.end_object()?;
    Ok(())
}

// Writes the rule's name and sentence as members.
fn rule_members(out: &mut JsonWriter, rule: DecisionRule) -> Result<(), AllocError>
    ensures { OnOk result (Adds out.old out.new (key_token (codes "rule") ∷ string_token (rule_name rule)
        ∷ key_token (codes "reason") ∷ string_token (rule_sentence rule) ∷ [])) }
{
    let words = RuleWords(rule);
    out.text_field("rule", words.name())?;
    out.text_field("reason", words.sentence())
}

// Writes the place, the body and the rule.
fn put_head(
    out: &mut JsonWriter,
    alloc: Global,
    cards: CardNumbers,
    index: usize,
    frame: &Frame,
    rule: DecisionRule,
) -> Result<(), AllocError>
    ensures { OnOk result (Adds out.old out.new (all_tokens (head_members cards index frame.now rule))) }
{
    out.number_field("index", index as u64)?;
    message_member(out, alloc, cards, frame)?;
    rule_members(out, rule)?;
    Ok(())
}

// Writes the rows that were read, and those that are written.
fn put_rows(
    out: &mut JsonWriter,
    alloc: Global,
    cards: CardNumbers,
    reads: &ReadSet,
    writes: &WriteSet,
) -> Result<(), AllocError>
    ensures { OnOk result (Adds out.old out.new (all_tokens (row_members cards reads.now writes.now))) }
{
    out.key("read")?;
    put_reads(out, alloc, cards, reads)?;
    out.key("wrote")?;
    put_writes(out, alloc, cards, writes)?;
    Ok(())
}

// Writes all members.
fn put_members(
    out: &mut JsonWriter,
    alloc: Global,
    cards: CardNumbers,
    index: usize,
    explanation: &Explanation,
) -> Result<(), AllocError>
    ensures { OnOk result (Adds out.old out.new (all_tokens (why_members cards index explanation.now))) }
{
    let execution = &explanation.execution;
    put_head(
        out,
        alloc,
        cards,
        index,
        execution.frame(),
        explanation.rule,
    )?;
    put_rows(out, alloc, cards, execution.reads(), execution.writes())?;
    reply_member(out, alloc, cards, execution.reply())?;
    Ok(())
}

/// Why the body at this place of a batch is decided so, as a line of JSON: an object of the body, its rule, the rows that were read and
/// those that are written, each in their order and as a book has them, and the reply. It fails only where memory runs out.
pub fn why_line(
    alloc: Global,
    cards: CardNumbers,
    index: usize,
    explanation: &Explanation,
) -> Result<Vec<u8>, AllocError>
    ensures { IfOk result (λ line. line.items ≡ why_line cards index explanation.now) }
{
    let mut out = JsonWriter::empty(alloc);
    out.begin_object()?;
    put_members(&mut out, alloc, cards, index, explanation)?;
    out.end_object()?;
    out.into_line()
}
