//! The ten greatest totals.

use day_totals::{Total, greatest_of};
use std::alloc::Global;
use std::process::Abort;

// Totals in the order of their names, and the ten greatest.
const ALL: &[(&str, u64)] = &[
    ("A", 1),
    ("B", 3),
    ("C", 1),
    ("D", 9),
    ("E", 1),
    ("F", 3),
    ("G", 2),
    ("H", 1),
    ("I", 1),
    ("J", 1),
    ("K", 4),
    ("L", 1),
];

const GREATEST: &str = "D9 K4 B3 F3 G2 A1 C1 E1 H1 I1 ";

fn told(alloc: Global) -> Option<String> {
    let mut totals = Vec::new(alloc);
    for (name, sum) in ALL {
        let name = String::from_str(alloc, name).ok()?;
        totals.push(Total { name, sum: *sum }).ok()?;
    }
    let mut text = String::new(alloc);
    for total in greatest_of(totals).ok()?.iter() {
        let (name, sum) = (total.name.as_str(), total.sum);
        text.push_str(format!(in alloc; "{name}{sum} ").ok()?.as_str())
            .ok()?;
    }
    Some(text)
}

#[test]
fn takes_the_ten_greatest(rt: HostRuntime) {
    let told = told(rt.alloc()).expect(&rt, "room");
    assert!(rt; told.as_str() == GREATEST, "{}", told.as_str());
}
