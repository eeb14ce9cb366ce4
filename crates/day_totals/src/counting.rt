//! What an exchange adds to each figure.

ghost use Rattle.std.specs.Prelude.{◌≡◌, ◌<◌, ◌^◌, IfOk, IfSome, Some, option_map, string_bytes};
ghost use Rattle.iso_shown.specs.Masked.{masked};
ghost use Rattle.day_totals.specs.Day.{action_entry, entry, has_answer, hour_of, is_approval, is_decline, is_reversed, money, money_back, once, repeat_entry, request_answered, request_in, reversal_done, reversal_in, type_entry};

use crate::counted::Counted;
use crate::exchange::Exchange;
use crate::figure::Figure;
use crate::naming::{
    action_of, card_name, hour_name, is_repeat, taken_back, terminal_name, type_of,
};
use iso8583::{Action, Answer, Message, Reversal, Transaction, Verdict};
use issuer_rows::{Frame, ReplyBody};
use std::alloc::{AllocError, Global};

/// What an exchange adds to a figure, if anything. It fails only where memory runs out.
pub fn counted_of(
    alloc: Global,
    figure: Figure,
    exchange: &Exchange,
) -> Result<Option<Counted>, AllocError>
    ensures entry { IfOk result (λ counted. option_map (λ c. (string_bytes c.name, c.amount)) counted ≡ entry figure exchange.now) }
    ensures bound { IfOk result (λ counted. IfSome counted (λ c. c.amount < 10 ^ 12)) }
{
    match figure {
        Figure::Types => type_counted(alloc, &exchange.frame),
        Figure::Repeats => repeat_counted(alloc, &exchange.frame),
        Figure::Actions => action_counted(alloc, &exchange.reply),
        Figure::Approved => money_counted(alloc, approved_request(exchange)),
        Figure::Declined => money_counted(alloc, declined_request(exchange)),
        Figure::Reversed => money_back_counted(alloc, reversal_done(exchange)),
        Figure::Hours => hour_counted(alloc, approved_request(exchange)),
        Figure::Terminals => terminal_counted(alloc, declined_request(exchange)),
        Figure::Cards => card_counted(alloc, declined_request(exchange)),
    }
}

// One, under this name.
fn once(name: String) -> Option<Counted>
    ensures entry { option_map (λ c. (string_bytes c.name, c.amount)) result ≡ Some (once (string_bytes name)) }
    ensures bound { IfSome result (λ c. c.amount < 10 ^ 12) }
{
    Some(Counted { name, amount: 1 })
}

// A body, under its type.
fn type_counted(alloc: Global, frame: &Frame) -> Result<Option<Counted>, AllocError>
    ensures entry { IfOk result (λ counted. option_map (λ c. (string_bytes c.name, c.amount)) counted ≡ Some (type_entry frame.now)) }
    ensures bound { IfOk result (λ counted. IfSome counted (λ c. c.amount < 10 ^ 12)) }
{
    let name = match frame {
        Frame::Good(message) => type_of(message),
        Frame::Bad(_) => "no message",
    };
    Ok(once(String::from_str(alloc, name)?))
}

// A repeat, under its type.
fn repeat_counted(alloc: Global, frame: &Frame) -> Result<Option<Counted>, AllocError>
    ensures entry { IfOk result (λ counted. option_map (λ c. (string_bytes c.name, c.amount)) counted ≡ repeat_entry frame.now) }
    ensures bound { IfOk result (λ counted. IfSome counted (λ c. c.amount < 10 ^ 12)) }
{
    match frame {
        Frame::Good(message) if is_repeat(message) => {
            Ok(once(String::from_str(alloc, type_of(message))?))
        }
        _ => Ok(None),
    }
}

// A reply, under its action code.
fn action_counted(alloc: Global, reply: &ReplyBody) -> Result<Option<Counted>, AllocError>
    ensures entry { IfOk result (λ counted. option_map (λ c. (string_bytes c.name, c.amount)) counted ≡ action_entry reply.now) }
    ensures bound { IfOk result (λ counted. IfSome counted (λ c. c.amount < 10 ^ 12)) }
{
    match reply {
        ReplyBody::Reply(reply) => {
            let action = action_of(&reply.answer).digits();
            Ok(once(String::from_str(alloc, action.as_str())?))
        }
        ReplyBody::Fault(_) => Ok(None),
    }
}

// The amount of a transaction, under its currency.
fn money_counted(
    alloc: Global,
    transaction: Option<Transaction>,
) -> Result<Option<Counted>, AllocError>
    ensures entry { IfOk result (λ counted. option_map (λ c. (string_bytes c.name, c.amount)) counted ≡ option_map money transaction) }
    ensures bound { IfOk result (λ counted. IfSome counted (λ c. c.amount < 10 ^ 12)) }
{
    let Some(transaction) = transaction else {
        return Ok(None);
    };
    let name = String::from_str(alloc, transaction.currency.0.as_str())?;
    let amount = transaction.amount.minor();
    Ok(Some(Counted { name, amount }))
}

// What a reversal takes back, under its currency.
fn money_back_counted(
    alloc: Global,
    reversal: Option<Reversal>,
) -> Result<Option<Counted>, AllocError>
    ensures entry { IfOk result (λ counted. option_map (λ c. (string_bytes c.name, c.amount)) counted ≡ option_map money_back reversal) }
    ensures bound { IfOk result (λ counted. IfSome counted (λ c. c.amount < 10 ^ 12)) }
{
    let Some(reversal) = reversal else {
        return Ok(None);
    };
    let name = String::from_str(alloc, reversal.transaction.currency.0.as_str())?;
    let amount = taken_back(&reversal.scope, reversal.transaction.amount).minor();
    Ok(Some(Counted { name, amount }))
}

// A transaction, under its hour.
fn hour_counted(
    alloc: Global,
    transaction: Option<Transaction>,
) -> Result<Option<Counted>, AllocError>
    ensures entry { IfOk result (λ counted. option_map (λ c. (string_bytes c.name, c.amount)) counted ≡ option_map (λ t. once (hour_of t.stamp)) transaction) }
    ensures bound { IfOk result (λ counted. IfSome counted (λ c. c.amount < 10 ^ 12)) }
{
    match transaction {
        Some(transaction) => Ok(once(hour_name(alloc, &transaction.stamp)?)),
        None => Ok(None),
    }
}

// A transaction, under its terminal.
fn terminal_counted(
    alloc: Global,
    transaction: Option<Transaction>,
) -> Result<Option<Counted>, AllocError>
    ensures entry { IfOk result (λ counted. option_map (λ c. (string_bytes c.name, c.amount)) counted ≡ option_map (λ t. once t.terminal.0) transaction) }
    ensures bound { IfOk result (λ counted. IfSome counted (λ c. c.amount < 10 ^ 12)) }
{
    match transaction {
        Some(transaction) => Ok(once(terminal_name(alloc, &transaction.terminal)?)),
        None => Ok(None),
    }
}

// A transaction, under its card.
fn card_counted(
    alloc: Global,
    transaction: Option<Transaction>,
) -> Result<Option<Counted>, AllocError>
    ensures entry { IfOk result (λ counted. option_map (λ c. (string_bytes c.name, c.amount)) counted ≡ option_map (λ t. once (masked t.pan.0)) transaction) }
    ensures bound { IfOk result (λ counted. IfSome counted (λ c. c.amount < 10 ^ 12)) }
{
    match transaction {
        Some(transaction) => Ok(once(card_name(alloc, &transaction.pan)?)),
        None => Ok(None),
    }
}

// The request of an exchange, where it was approved and isn't marked as a repeat.
fn approved_request(exchange: &Exchange) -> Option<Transaction>
    ensures { result ≡ request_answered is_approval exchange.now }
{
    if is_approved(&exchange.reply) {
        request_in(&exchange.frame)
    } else {
        None
    }
}

// The request of an exchange, where it was declined and isn't marked as a repeat.
fn declined_request(exchange: &Exchange) -> Option<Transaction>
    ensures { result ≡ request_answered is_decline exchange.now }
{
    if is_declined(&exchange.reply) {
        request_in(&exchange.frame)
    } else {
        None
    }
}

// The reversal of an exchange, where it was done and isn't marked as a repeat.
fn reversal_done(exchange: &Exchange) -> Option<Reversal>
    ensures { result ≡ reversal_done exchange.now }
{
    if is_reversed(&exchange.reply) {
        reversal_in(&exchange.frame)
    } else {
        None
    }
}

// The request that a body is, unless it is marked as a repeat.
fn request_in(frame: &Frame) -> Option<Transaction>
    ensures { result ≡ request_in frame.now }
{
    match frame {
        Frame::Good(Message::Request(request)) if !request.repeat => Some(request.transaction),
        _ => None,
    }
}

// The reversal that a body is, unless it is marked as a repeat.
fn reversal_in(frame: &Frame) -> Option<Reversal>
    ensures { result ≡ reversal_in frame.now }
{
    match frame {
        Frame::Good(Message::Reversal(reversal)) if !reversal.repeat => Some(*reversal),
        _ => None,
    }
}

// Whether a reply approves a request.
fn is_approved(reply: &ReplyBody) -> bool
    ensures { result ≡ has_answer is_approval reply.now }
{
    match reply {
        ReplyBody::Reply(reply) => matches!(reply.answer, Answer::Request(Verdict::Approved(_), _)),
        ReplyBody::Fault(_) => false,
    }
}

// Whether a reply declines a request.
fn is_declined(reply: &ReplyBody) -> bool
    ensures { result ≡ has_answer is_decline reply.now }
{
    match reply {
        ReplyBody::Reply(reply) => matches!(reply.answer, Answer::Request(Verdict::Declined(_), _)),
        ReplyBody::Fault(_) => false,
    }
}

// Whether a reply says that a reversal is done.
fn is_reversed(reply: &ReplyBody) -> bool
    ensures { result ≡ has_answer is_reversed reply.now }
{
    match reply {
        ReplyBody::Reply(reply) => match &reply.answer {
            Answer::Reversal(action) => action.code() == 400,
            _ => false,
        },
        ReplyBody::Fault(_) => false,
    }
}
