/// How long an element's text is, in characters.
#[derive(Clone, Copy)]
pub enum Shape {
    /// Always so many.
    Fixed(usize),
    /// From so many to so many, behind two digits of length (LLVAR).
    UpTo(usize, usize),
}
