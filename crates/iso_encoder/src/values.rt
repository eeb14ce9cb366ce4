//! The values of every message and of every reply are in range: their types keep them there, and looking at
//! them says so. Nothing is done with what is seen.

ghost use Rattle.iso_laws.specs.Messages.{IsOriginal, IsScope, IsAccount};
ghost use Rattle.iso_laws.specs.Replies.{IsAnswer};
ghost use Rattle.iso_laws.specs.Transactions.{IsTransaction};

use iso8583::{AccountId, Answer, OriginalRef, ReversalScope, Transaction, Verdict};

/// Those of a transaction.
pub(crate) fn transaction_in_range(transaction: &Transaction)
    ensures { IsTransaction transaction.now }
{
    let _ = transaction.pan.0.as_slice();
    let _ = transaction.processing.0.as_slice();
    let _ = transaction.amount.minor();
    let _ = transaction.transmission.0.as_slice();
    let _ = transaction.stan.0.as_slice();
    let _ = transaction.stamp.as_slice();
    let _ = transaction.acquirer.0.as_slice();
    if let Some(retrieval) = &transaction.retrieval {
        let _ = retrieval.0.as_slice();
    }
    let _ = transaction.terminal.0.as_slice();
    let _ = transaction.currency.0.as_slice();
}

/// That of a scope.
pub(crate) fn scope_in_range(scope: &ReversalScope)
    ensures { IsScope scope.now }
{
    if let ReversalScope::Partial(amount) = scope {
        let _ = amount.minor();
    }
}

/// Those of element 56.
pub(crate) fn original_in_range(original: &OriginalRef)
    ensures { IsOriginal original.now }
{
    let _ = original.identity.stan.0.as_slice();
    let _ = original.identity.stamp.as_slice();
    let _ = original.identity.acquirer.0.as_slice();
}

/// That of element 102.
pub(crate) fn account_in_range(account: &Option<AccountId>)
    ensures { IsAccount account.now }
{
    if let Some(account) = account {
        let _ = account.0.as_slice();
    }
}

/// Those of an answer.
pub(crate) fn answer_in_range(answer: &Answer)
    ensures { IsAnswer answer.now }
{
    match answer {
        Answer::Request(Verdict::Approved(code), account) => {
            let _ = code.0.as_slice();
            account_in_range(account);
        }
        Answer::Request(Verdict::Declined(code), account) => {
            let _ = code.action().code();
            account_in_range(account);
        }
        Answer::Advice(action, account) => {
            let _ = action.code();
            account_in_range(account);
        }
        Answer::Reversal(action) => {
            let _ = action.code();
        }
    }
}
