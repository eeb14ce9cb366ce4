/// The names of a link's two pipes.
#[derive(Clone, Copy, Debug, PartialEq, Eq)]
pub struct LinkNames<'a> {
    /// What it is read from.
    pub input: &'a str,
    /// What it is answered on.
    pub output: &'a str,
}
