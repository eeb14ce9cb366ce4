/// A file that was written and isn't yet seen, and the name in whose place it is to be put.
#[derive(Drop)]
pub struct Written<O> {
    /// The name.
    pub name: String,
    /// What it was written to.
    pub output: O,
}
