/// Why a word isn't read.
#[derive(Clone, Copy, PartialEq, Eq, Debug)]
pub enum FieldFault {
    /// It isn't spelled as such a word is printed: something is missing or too much, a number has leading zeros, digits are odd
    /// or capital, names aren't ascending.
    Form,
    /// It is rightly spelled, but a number, a name or a length is outside its limits.
    Limit,
}
