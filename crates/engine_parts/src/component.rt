/// Messages that are to be of one part: how many they are, and the number that stands for them. The one with fewer messages is the lesser.
#[derive(Clone, Copy, PartialEq, Eq, PartialOrd, Ord)]
pub(crate) struct Component {
    pub(crate) messages: u32,
    pub(crate) root: u32,
}
