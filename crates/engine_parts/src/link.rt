/// Two numbers of keys that are to be of one part.
#[derive(Clone, Copy)]
pub(crate) struct Link {
    pub(crate) head: u32,
    pub(crate) other: u32,
}
