/// A total of a day.
#[derive(Drop)]
pub struct Total {
    /// The name under which it is counted, as a type, an action code or a terminal.
    pub name: String,
    /// How often, or how much in minor units.
    pub sum: u64,
}
