ghost use Rattle.std.specs.Prelude.{◌≡◌, true};
ghost use Rattle.reason_text.specs.Rules.{is_of_reversals, rule_name, rule_sentence};

use issuer_laws::DecisionRule;
use std::fmt;

/// A decision rule for people: its name and a sentence, as `NoAmount: the amount is 0`.
#[derive(Clone, Copy)]
pub struct RuleWords(pub DecisionRule);

impl RuleWords {
    /// The rule's name.
    pub fn name(&self) -> &'static str
        ensures { result.now ≡ rule_name self.now.0 }
    {
        name(self.0)
    }

    /// What the rule says, in one sentence.
    pub fn sentence(&self) -> &'static str
        ensures { result.now ≡ rule_sentence self.now.0 }
    {
        sentence(self.0)
    }
}

// The name of a rule.
fn name(rule: DecisionRule) -> &'static str
    ensures { result.now ≡ rule_name rule }
{
    match rule {
        DecisionRule::NoMessage => "NoMessage",
        DecisionRule::ReversedAhead => "ReversedAhead",
        DecisionRule::MarkOfAnother => "MarkOfAnother",
        DecisionRule::Repeat => "Repeat",
        DecisionRule::Duplicate => "Duplicate",
        DecisionRule::NotPermitted => "NotPermitted",
        DecisionRule::NoAmount => "NoAmount",
        DecisionRule::WrongCardNumber => "WrongCardNumber",
        DecisionRule::NotApproved => "NotApproved",
        DecisionRule::NoCard => "NoCard",
        DecisionRule::CardBlocked => "CardBlocked",
        DecisionRule::CardLost => "CardLost",
        DecisionRule::CardStolen => "CardStolen",
        DecisionRule::CardExpired => "CardExpired",
        DecisionRule::NotOfCard => "NotOfCard",
        DecisionRule::NoAccount => "NoAccount",
        DecisionRule::OtherCurrency => "OtherCurrency",
        DecisionRule::TooManyApprovals => "TooManyApprovals",
        DecisionRule::TooMuchMoney => "TooMuchMoney",
        DecisionRule::ApprovalsExhausted => "ApprovalsExhausted",
        DecisionRule::BudgetRefuses => "BudgetRefuses",
        DecisionRule::BudgetPays => "BudgetPays",
        DecisionRule::NotSufficientFunds => "NotSufficientFunds",
        DecisionRule::AccountPays => "AccountPays",
        _ => reversal_name(rule),
    }
}

// The same of a rule of reversals alone.
fn reversal_name(rule: DecisionRule) -> &'static str
    ensures { is_of_reversals rule ≡ true → result.now ≡ rule_name rule }
{
    match rule {
        DecisionRule::NoOriginal => "NoOriginal",
        DecisionRule::MarkedBefore => "MarkedBefore",
        DecisionRule::OtherOriginal => "OtherOriginal",
        DecisionRule::ReversalRepeat => "ReversalRepeat",
        DecisionRule::ReversedBefore => "ReversedBefore",
        DecisionRule::NotPosted => "NotPosted",
        DecisionRule::WrongPart => "WrongPart",
        DecisionRule::NoPayer => "NoPayer",
        DecisionRule::NoDay => "NoDay",
        DecisionRule::BalanceTooGreat => "BalanceTooGreat",
        DecisionRule::DayTooShort => "DayTooShort",
        _ => "GivenBack",
    }
}

// What a rule says.
fn sentence(rule: DecisionRule) -> &'static str
    ensures { result.now ≡ rule_sentence rule }
{
    match rule {
        DecisionRule::NoMessage => "the body is no message",
        DecisionRule::ReversedAhead => "a reversal of this message came ahead of it",
        DecisionRule::MarkOfAnother => "the reversal of another message stands at its identity",
        DecisionRule::Repeat => "it repeats the message that is kept, whose answer it gets",
        DecisionRule::Duplicate => "another message of its identity is kept",
        DecisionRule::NotPermitted => "it is neither a purchase nor a withdrawal",
        DecisionRule::NoAmount => "the amount is 0",
        DecisionRule::WrongCardNumber => "the card number fails the Luhn test",
        DecisionRule::NotApproved => "the acquirer didn't approve",
        DecisionRule::NoCard => "there is no record of the card",
        DecisionRule::CardBlocked => "the card is blocked",
        DecisionRule::CardLost => "the card is lost",
        DecisionRule::CardStolen => "the card is stolen",
        DecisionRule::CardExpired => "the card's last month is over",
        DecisionRule::NotOfCard => "the account that is named is not the card's",
        DecisionRule::NoAccount => "there is no record of the account",
        DecisionRule::OtherCurrency => "the account is in another currency",
        DecisionRule::TooManyApprovals => "one approval too many on that day",
        DecisionRule::TooMuchMoney => "too much money on that day",
        DecisionRule::ApprovalsExhausted => "the card's approvals are at their greatest",
        DecisionRule::BudgetRefuses => "the budget stands in, and can't pay",
        DecisionRule::BudgetPays => "the budget stands in, and pays",
        DecisionRule::NotSufficientFunds => "less is available than the amount",
        DecisionRule::AccountPays => "the account pays",
        _ => reversal_sentence(rule),
    }
}

// The same of a rule of reversals alone.
fn reversal_sentence(rule: DecisionRule) -> &'static str
    ensures { is_of_reversals rule ≡ true → result.now ≡ rule_sentence rule }
{
    match rule {
        DecisionRule::NoOriginal => "nothing stands at the identity of the original",
        DecisionRule::MarkedBefore => "a mark stands at the identity of the original",
        DecisionRule::OtherOriginal => "the original is of another card or kind",
        DecisionRule::ReversalRepeat => "it repeats the reversal that the original has",
        DecisionRule::ReversedBefore => "the original has another reversal",
        DecisionRule::NotPosted => "the original wasn't posted",
        DecisionRule::WrongPart => "the part isn't one of the original's amount",
        DecisionRule::NoPayer => "there is no record of what paid",
        DecisionRule::NoDay => "there is no record of the original's day",
        DecisionRule::BalanceTooGreat => "what paid would have more than it may",
        DecisionRule::DayTooShort => "the original's day has less than is given back",
        _ => "the money goes back",
    }
}

impl fmt::Display for RuleWords {
    ghost use Rattle.std.specs.Prelude.{Some};
    ghost use Rattle.reason_text.specs.Rules.{rule_words};

    ghost output = { λ words. Some (rule_words words.0) };

    fn fmt<W: fmt::Write>(&self, f: &mut fmt::Formatter<W>) -> fmt::Result {
        let (name, sentence) = (name(self.0), sentence(self.0));
        write!(f, "{name}: {sentence}")
    }
}
