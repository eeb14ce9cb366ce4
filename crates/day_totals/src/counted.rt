/// What an exchange adds to a total.
#[derive(Drop)]
pub struct Counted {
    /// The total's name.
    pub name: String,
    /// 1, or an amount in minor units, below 10^12.
    pub amount: u64,
}
