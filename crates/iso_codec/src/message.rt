//! Messages from the texts of their elements.

ghost use Rattle.std.specs.Prelude.{◌≡◌, IfSome, option_map};
ghost use Rattle.iso_codec.specs.Texts.{texts_of};
ghost use Rattle.iso_laws.specs.Messages.{scope_from, request_from, advice_from, reversal_from, message_from};
ghost use Rattle.iso_laws.specs.Transactions.{transaction_from};
ghost use Rattle.iso_laws.specs.Elements.{IsText, parts_of};
ghost use Rattle.iso_laws.specs.Forms.{HasForm, AreKnown, AreTextsOf};
ghost use Rattle.iso_laws.specs.Types.{taken_in};

use crate::texts::Texts;
use crate::values;
use iso_laws::{Element, Mti};
use iso8583::{
    Acquirer, Advice, Amount, Currency, Digits, DigitsUpTo, FunctionCode, LocalStamp, Message, Pan,
    Printable, Processing, Request, Reversal, ReversalScope, Stan, Terminal, Transaction,
    Transmission,
};

/// The elements that a reply repeats.
pub(crate) fn transaction_of(texts: &Texts) -> Transaction
    requires { AreKnown (texts_of texts.now) }
    ensures { result ≡ transaction_from (texts_of texts.now) }
{
    let (pan, processing, amount) = (texts.pan, texts.processing, texts.amount);
    let (transmission, stan, stamp) = (texts.transmission, texts.stan, texts.stamp);
    let (acquirer, terminal, currency) = (texts.acquirer, texts.terminal, texts.currency);
    Transaction {
        pan: Pan(DigitsUpTo::of_text(pan)),
        processing: Processing(Digits::of_text(processing)),
        amount: Amount::from_digits(&Digits::of_text(amount)),
        transmission: Transmission(Digits::of_text(transmission)),
        stan: Stan(Digits::of_text(stan)),
        stamp: LocalStamp::of_text(stamp),
        acquirer: Acquirer(DigitsUpTo::of_text(acquirer)),
        retrieval: values::retrieval(texts.retrieval),
        terminal: Terminal(Printable::of_text(terminal)),
        currency: Currency(Digits::of_text(currency)),
    }
}

/// The request with these elements, 1100 or 1101.
fn request_of(repeat: bool, texts: &Texts) -> Message
    requires known { AreKnown (texts_of texts.now) }
    requires form { HasForm (parts_of Mti.Request) (texts_of texts.now) }
    ensures { result ≡ request_from repeat (texts_of texts.now) }
{
    let Some(function) = texts.function else {
        unreachable!()
    };
    Message::Request(Request {
        repeat,
        function: FunctionCode(Digits::of_text(function)),
        account: values::account(texts.account),
        transaction: transaction_of(texts),
    })
}

/// The advice with these elements, 1120 or 1121.
fn advice_of(repeat: bool, texts: &Texts) -> Message
    requires known { AreKnown (texts_of texts.now) }
    requires form { HasForm (parts_of Mti.Advice) (texts_of texts.now) }
    ensures { result ≡ advice_from repeat (texts_of texts.now) }
{
    let Some(function) = texts.function else {
        unreachable!()
    };
    let Some(action) = texts.action else {
        unreachable!()
    };
    Message::Advice(Advice {
        repeat,
        function: FunctionCode(Digits::of_text(function)),
        action: values::action(action),
        account: values::account(texts.account),
        transaction: transaction_of(texts),
    })
}

/// The scope that element 30 says, which is there in a partial reversal alone.
fn scope_of(amount: Option<&[u8; 24]>) -> ReversalScope
    requires { IfSome (option_map (λ t. t.now) amount) (IsText Element.OriginalAmount) }
    ensures { result ≡ scope_from (option_map (λ t. t.now) amount.entry) }
{
    match amount {
        None => ReversalScope::Full,
        Some(text) => ReversalScope::Partial(values::original_amount(text)),
    }
}

/// The reversal with these elements, 1420 or 1421.
fn reversal_of(repeat: bool, texts: &Texts) -> Message
    requires known { AreKnown (texts_of texts.now) }
    requires form { HasForm (parts_of Mti.Reversal) (texts_of texts.now) }
    ensures { result ≡ reversal_from repeat (texts_of texts.now) }
{
    let Some(original) = texts.original else {
        unreachable!()
    };
    Message::Reversal(Reversal {
        repeat,
        scope: scope_of(texts.original_amount),
        original: values::original(original),
        transaction: transaction_of(texts),
    })
}

/// The message of a type that is taken in, with these elements.
pub(crate) fn message_of(mti: Mti, texts: &Texts) -> Message
    requires { AreTextsOf taken_in mti (texts_of texts.now) }
    ensures { result ≡ message_from mti (texts_of texts.now) }
{
    match mti {
        Mti::Request => request_of(false, texts),
        Mti::RequestRepeat => request_of(true, texts),
        Mti::Advice => advice_of(false, texts),
        Mti::AdviceRepeat => advice_of(true, texts),
        Mti::Reversal => reversal_of(false, texts),
        Mti::ReversalRepeat => reversal_of(true, texts),
        Mti::RequestReply | Mti::AdviceReply | Mti::ReversalReply => unreachable!(),
    }
}
