ghost use Rattle.std.specs.Prelude.{◌≡◌};
ghost use Rattle.day_totals.specs.Meaning.{meaning_of, meaning_of_other};

/// What the three digits of an action code mean, element 39 (ISO 8583:1993).
pub fn meaning_of(name: &str) -> &'static str
    ensures { result.now ≡ meaning_of name.now }
{
    match name {
        "000" => "approved",
        "100" => "do not honour",
        "101" => "expired card",
        "110" => "invalid amount",
        "111" => "invalid card number",
        "116" => "not sufficient funds",
        "118" => "no card record",
        "119" => "transaction not permitted to cardholder",
        "121" => "exceeds withdrawal amount limit",
        "123" => "exceeds withdrawal frequency limit",
        "208" => "lost card",
        "209" => "stolen card",
        "400" => "accepted (reversal)",
        _ => meaning_of_other(name),
    }
}

// The same of codes from 900 on, and of others that this issuer doesn't give.
fn meaning_of_other(name: &str) -> &'static str
    ensures { result.now ≡ meaning_of_other name.now }
{
    match name {
        "900" => "advice acknowledged, no financial liability accepted",
        "901" => "advice acknowledged, financial liability accepted",
        "907" => "card issuer or switch inoperative",
        "909" => "system malfunction",
        "913" => "duplicate transmission",
        "914" => "not able to trace back to original transaction",
        _ => "another action",
    }
}
