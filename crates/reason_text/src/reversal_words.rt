use crate::identity_words::IdentityWords;
use crate::kind_words::KindWords;
use crate::scope_words::ScopeWords;
use crate::transaction_words::TransactionWords;
use iso8583::Reversal;
use std::fmt;

/// A reversal advice for people.
#[derive(Clone, Copy)]
pub struct ReversalWords<'a>(pub &'a Reversal);

impl fmt::Display for ReversalWords<'_> {
    ghost use Rattle.std.specs.Prelude.{Some};
    ghost use Rattle.reason_text.specs.Words.{reversal_words};

    ghost output = { λ words. Some (reversal_words words.0.now) };

    fn fmt<W: fmt::Write>(&self, f: &mut fmt::Formatter<W>) -> fmt::Result {
        let kind = if self.0.repeat { "1421" } else { "1420" };
        let transaction = TransactionWords(&self.0.transaction);
        let of = KindWords(self.0.original.kind);
        let identity = IdentityWords(self.0.original.identity);
        let scope = ScopeWords(self.0.scope);
        write!(f, "{kind}{transaction}, of {of} {identity}{scope}")
    }
}
