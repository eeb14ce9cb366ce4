use iso8583::Identity;
use std::fmt;

/// An identity for people: acquirer, trace number and time, as `123456/000012/260315090000`.
#[derive(Clone, Copy)]
pub struct IdentityWords(pub Identity);

impl fmt::Display for IdentityWords {
    ghost use Rattle.std.specs.Prelude.{Some};
    ghost use Rattle.reason_text.specs.Words.{identity_words};

    ghost output = { λ words. Some (identity_words words.0) };

    fn fmt<W: fmt::Write>(&self, f: &mut fmt::Formatter<W>) -> fmt::Result {
        let acquirer = self.0.acquirer.as_str();
        let stan = self.0.stan.as_str();
        let stamp = self.0.stamp.as_str();
        write!(f, "{acquirer}/{stan}/{stamp}")
    }
}
