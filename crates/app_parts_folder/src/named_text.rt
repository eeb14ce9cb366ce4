/// What a file is to hold, and its name.
#[derive(Drop)]
pub struct NamedText {
    /// The name.
    pub name: String,
    /// The bytes.
    pub text: Vec<u8>,
}
