ghost use Rattle.std.specs.Prelude.{◌≡◌, [], IfOk, OnOk, Some};
ghost use Rattle.issuer_laws.specs.Parts.{account_keys, budget_at, funds_at, may_need, may_need_first, second_key};
ghost use Rattle.engine_parts.specs.Ties.{AreKept, AreTied, HasFirst, HasNumber, HasSameCards, HaveFunds, IsOfFunds, IsTied, mark_of, number_in, numbers_of};

use crate::key_number::KeyNumber;
use crate::link::Link;
use crate::needs::{budget_of, card_of, paying_account};
use indexmap::IndexMap;
use indexmap::map::Entry;
use iso8583::{AccountId, Identity, Message, Pan, Reversal, Transaction, number_of};
use issuer_rows::{Book, CardRow, Frame, RowKey};
use std::alloc::{AllocError, Global};

// 2^64 over the golden ratio: multiples of it are spread evenly (Knuth).
const SPREAD: u64 = 11_400_714_819_323_198_485;

/// What ties the messages of a batch to one another: cards, accounts and budgets, by numbers, and links between those that are to be of one
/// part. A message has a head, the number of its card, to which what it may be paid from is linked. Where another card's message had its
/// identity first, their heads are linked.
#[derive(Drop)]
pub(crate) struct Ties {
    // The number of each card, account and budget, by its key.
    pub(crate) keys: IndexMap<RowKey, u32>,
    // The head of the first message of each identity, by the identity's mark.
    pub(crate) firsts: IndexMap<u64, u32>,
    pub(crate) links: Vec<Link>,
}

impl Ties {
    /// No message is tied yet. There is room for so many. It fails only where memory runs out.
    pub(crate) fn new(alloc: Global, messages: usize) -> Result<Ties, AllocError>
        ensures { IfOk result (λ ties. (ties.keys.entries ≡ []) × (ties.links.items ≡ [])) }
    {
        let mut firsts = IndexMap::new(alloc);
        firsts.reserve(messages)?;
        Ok(Ties {
            keys: IndexMap::new(alloc),
            firsts,
            links: Vec::new(alloc),
        })
    }

    /// The head of a message, to which the rows are tied that it may need. It fails only where memory runs out.
    pub(crate) fn head_of(&mut self, book: &Book, frame: &Frame) -> Result<u32, AllocError>
        requires { HaveFunds book.now (numbers_of self.old) self.old.links.items }
        ensures funds { OnOk result (HaveFunds book.now (numbers_of self.new) self.new.links.items) }
        ensures kept { OnOk result (AreKept (numbers_of self.old) (numbers_of self.new) self.old.links.items self.new.links.items) }
        ensures tied { IfOk result (λ head. AreTied (numbers_of self.new) self.new.links.items head (may_need book.now frame.now)) }
    {
        match frame {
            Frame::Good(Message::Request(request)) => self.head_of_first(
                book,
                &request.transaction,
            ),
            Frame::Good(Message::Advice(advice)) => self.head_of_first(book, &advice.transaction),
            Frame::Good(Message::Reversal(reversal)) => self.head_of_reversal(book, reversal),
            Frame::Bad(_) => Ok(0),
        }
    }

    // The head of a request or an advice, which may be paid from what its card is tied to.
    fn head_of_first(&mut self, book: &Book, transaction: &Transaction) -> Result<u32, AllocError>
        requires { HaveFunds book.now (numbers_of self.old) self.old.links.items }
        ensures funds { OnOk result (HaveFunds book.now (numbers_of self.new) self.new.links.items) }
        ensures kept { OnOk result (AreKept (numbers_of self.old) (numbers_of self.new) self.old.links.items self.new.links.items) }
        ensures card { IfOk result (λ head. number_in (numbers_of self.new) (RowKey.Card transaction.now.pan) ≡ Some head) }
        ensures tied { IfOk result (λ head. AreTied (numbers_of self.new) self.new.links.items head (may_need_first book.now transaction.now)) }
    {
        let head = self.head_of_card(book, &transaction.pan)?;
        self.tie_original(head, &transaction.identity())?;
        Ok(head)
    }

    // The head of a reversal. Its original is tied to it, and the account that paid for that.
    fn head_of_reversal(&mut self, book: &Book, reversal: &Reversal) -> Result<u32, AllocError>
        requires { HaveFunds book.now (numbers_of self.old) self.old.links.items }
        ensures funds { OnOk result (HaveFunds book.now (numbers_of self.new) self.new.links.items) }
        ensures kept { OnOk result (AreKept (numbers_of self.old) (numbers_of self.new) self.old.links.items self.new.links.items) }
        ensures tied { IfOk result (λ head. AreTied (numbers_of self.new) self.new.links.items head (may_need book.now (Frame.Good (Message.Reversal reversal.now)))) }
    {
        let head = self.head_of_card(book, &reversal.transaction.pan)?;
        let original = reversal.original.identity;
        self.tie_original(head, &original)?;
        let payer = paying_account(book, &original);
        self.tie_account(head, payer)?;
        Ok(head)
    }

    // The number of a card. What its messages may be paid from is tied to it when it gets one.
    fn head_of_card(&mut self, book: &Book, pan: &Pan) -> Result<u32, AllocError>
        requires { HaveFunds book.now (numbers_of self.old) self.old.links.items }
        ensures funds { OnOk result (HaveFunds book.now (numbers_of self.new) self.new.links.items) }
        ensures kept { OnOk result (AreKept (numbers_of self.old) (numbers_of self.new) self.old.links.items self.new.links.items) }
        ensures card { IfOk result (λ head. number_in (numbers_of self.new) (RowKey.Card pan.now) ≡ Some head) }
    {
        let number = numbered(&mut self.keys, &RowKey::Card(*pan))?;
        match number {
            KeyNumber::Known(head) => Ok(head),
            KeyNumber::New(head) => {
                self.tie_funds(book, head, pan)?;
                Ok(head)
            }
        }
    }

    // Ties to a card's number what its messages may be paid from.
    fn tie_funds(&mut self, book: &Book, head: u32, pan: &Pan) -> Result<(), AllocError>
        ensures kept { OnOk result (AreKept (numbers_of self.old) (numbers_of self.new) self.old.links.items self.new.links.items) }
        ensures cards { OnOk result (HasSameCards (numbers_of self.old) (numbers_of self.new)) }
        ensures tied { OnOk result (AreTied (numbers_of self.new) self.new.links.items head (funds_at book.now pan.now)) }
    {
        let card = card_of(book, pan);
        self.tie_accounts(head, card)?;
        self.tie_budget(book, head, pan)?;
        Ok(())
    }

    // Ties the accounts of a card to a head, if there is one.
    fn tie_accounts(&mut self, head: u32, card: Option<CardRow>) -> Result<(), AllocError>
        ensures kept { OnOk result (AreKept (numbers_of self.old) (numbers_of self.new) self.old.links.items self.new.links.items) }
        ensures cards { OnOk result (HasSameCards (numbers_of self.old) (numbers_of self.new)) }
        ensures tied { OnOk result (AreTied (numbers_of self.new) self.new.links.items head (account_keys card)) }
    {
        let Some(card) = card else {
            return Ok(());
        };
        self.tie(head, &RowKey::Account(card.accounts.first()))?;
        self.tie_account(head, card.accounts.second())?;
        Ok(())
    }

    // Ties the budget of a card's prefix to a head, if there is one.
    fn tie_budget(&mut self, book: &Book, head: u32, pan: &Pan) -> Result<(), AllocError>
        ensures kept { OnOk result (AreKept (numbers_of self.old) (numbers_of self.new) self.old.links.items self.new.links.items) }
        ensures cards { OnOk result (HasSameCards (numbers_of self.old) (numbers_of self.new)) }
        ensures tied { OnOk result (AreTied (numbers_of self.new) self.new.links.items head (budget_at book.now pan.now)) }
    {
        match budget_of(book, pan) {
            Some(prefix) => self.tie(head, &RowKey::Budget(prefix)),
            None => Ok(()),
        }
    }

    // Ties an account to a head, if there is one.
    fn tie_account(&mut self, head: u32, account: Option<AccountId>) -> Result<(), AllocError>
        ensures kept { OnOk result (AreKept (numbers_of self.old) (numbers_of self.new) self.old.links.items self.new.links.items) }
        ensures cards { OnOk result (HasSameCards (numbers_of self.old) (numbers_of self.new)) }
        ensures tied { OnOk result (AreTied (numbers_of self.new) self.new.links.items head (second_key account)) }
    {
        match account {
            Some(id) => self.tie(head, &RowKey::Account(id)),
            None => Ok(()),
        }
    }

    // Ties an account or a budget to a head.
    fn tie(&mut self, head: u32, key: &RowKey) -> Result<(), AllocError>
        requires { IsOfFunds key.now }
        ensures kept { OnOk result (AreKept (numbers_of self.old) (numbers_of self.new) self.old.links.items self.new.links.items) }
        ensures cards { OnOk result (HasSameCards (numbers_of self.old) (numbers_of self.new)) }
        ensures tied { OnOk result (IsTied (numbers_of self.new) self.new.links.items head key.now) }
    {
        let other = numbered(&mut self.keys, key)?.number();
        self.links.push(Link { head, other })?;
        Ok(())
    }

    // Ties an original to a head.
    fn tie_original(&mut self, head: u32, identity: &Identity) -> Result<(), AllocError>
        ensures kept { OnOk result (AreKept (numbers_of self.old) (numbers_of self.new) self.old.links.items self.new.links.items) }
        ensures cards { OnOk result (HasSameCards (numbers_of self.old) (numbers_of self.new)) }
        ensures tied { OnOk result (IsTied (numbers_of self.new) self.new.links.items head (RowKey.Original identity.now)) }
    {
        let other = first_of(&mut self.firsts, mark_of(identity), head)?;
        if other != head {
            self.links.push(Link { head, other })?;
        }
        Ok(())
    }
}

// The number of a key, which gets one where it has none: any would do.
fn numbered(keys: &mut IndexMap<RowKey, u32>, key: &RowKey) -> Result<KeyNumber, AllocError>
    ensures { IfOk result (HasNumber keys.old.entries keys.new.entries key.now) }
{
    let next = u32::try_from(keys.len()).unwrap_or(u32::MAX);
    match keys.entry(*key)? {
        Entry::Occupied(entry) => Ok(KeyNumber::Known(*entry.get())),
        Entry::Vacant(entry) => {
            entry.insert(next);
            Ok(KeyNumber::New(next))
        }
    }
}

// The first head of a mark: this one where it has none.
fn first_of(firsts: &mut IndexMap<u64, u32>, mark: u64, head: u32) -> Result<u32, AllocError>
    ensures { IfOk result (HasFirst firsts.old.entries firsts.new.entries mark) }
{
    match firsts.entry(mark)? {
        Entry::Occupied(entry) => Ok(*entry.get()),
        Entry::Vacant(entry) => {
            entry.insert(head);
            Ok(head)
        }
    }
}

// The mark of an identity. Two may have one by chance, and then their messages are tied, which does no harm.
fn mark_of(identity: &Identity) -> u64
    ensures { result ≡ mark_of identity.now }
{
    let acquirer = number_of(identity.acquirer.as_slice());
    let time = number_of(identity.stamp.as_slice());
    let trace = number_of(identity.stan.0.as_slice());
    acquirer
        .wrapping_mul(SPREAD)
        .wrapping_add(time * 1_000_000 + trace)
}
