/// A name's number with a piece of the text: a send's request and body, or an entry's number and the entry, in a log or as it was taken.
#[derive(Clone, Copy)]
pub struct TextLine<'a> {
    /// The name's byte.
    pub name: u8,
    pub number: u32,
    pub text: &'a [u8],
}

/// An entry of the group list as it is printed.
#[derive(Clone, Copy)]
pub struct Piece<'a> {
    pub text: &'a [u8],
}
