ghost use Rattle.std.specs.Prelude.{◌≡◌, ◌≤◌, ◌*◌, ◌+◌, ◌<◌, ◌/◌, ◌++◌, length, vec_capacity, MatchResult, IfOk, true};
ghost use Rattle.std.specs.List.{list_all};
ghost use Rattle.am_text_defs.specs.Fields.{is_pair_digit, digit_value, are_pairs, bytes_in, bytes_of, and_then};

use am_text_defs::fault::FieldFault;

/// Whether a byte is a hexadecimal digit as it is printed: in lower case.
fn is_pair_digit(byte: u8) -> bool
    ensures { result ≡ is_pair_digit byte }
{
    byte.is_ascii_digit() || (b'a' <= byte && byte <= b'f')
}

/// The value of a hexadecimal digit.
fn digit_value(byte: u8) -> u8
    requires { is_pair_digit byte ≡ true }
    ensures value { result ≡ digit_value byte }
    ensures fits { result < 16 }
{
    if byte <= b'9' {
        byte - b'0'
    } else {
        byte - b'a' + 10
    }
}

/// Whether all bytes of a word are such digits.
fn are_pair_digits(word: &[u8]) -> bool
    ensures { result ≡ list_all is_pair_digit word.now }
{
    word.iter().all(|byte| is_pair_digit(*byte))
}

/// Whether a word has a pair of digits, or more, and nothing else.
fn are_pairs(word: &[u8]) -> bool
    ensures { result ≡ are_pairs word.now }
{
    if word.is_empty() || word.len() % 2 != 0 {
        return false;
    }
    are_pair_digits(word)
}

#[tactic(auto, unfolding(am_text_defs::specs::Fields::bytes_of))]
/// Puts the bytes of a word into a room for so many at most: lower-case digit pairs, or a dash for none. The room is kept, and
/// has other bytes where the word isn't read.
pub fn body(word: &[u8], most: usize, into: &mut Vec<u8>) -> Result<(), FieldFault>
    requires { most ≤ vec_capacity into.old }
    ensures value { MatchResult (bytes_of most word.now) (λ bytes. (result ≡ Ok tt) × (into.new.items ≡ bytes)) (λ fault. result ≡ Err fault) }
    ensures room { vec_capacity into.new ≡ vec_capacity into.old }
{
    into.clear();
    if word == b"-".as_slice() {
        return Ok(());
    }
    if !are_pairs(word) {
        return Err(FieldFault::Form);
    }
    let count = word.len() / 2;
    if most < count {
        return Err(FieldFault::Limit);
    }
    for at in 0..count {
        into.push_reserved(16 * digit_value(word[2 * at]) + digit_value(word[2 * at + 1]));
    }
    Ok(())
}

/// Whether a word is a body of so many bytes at most.
#[tactic(auto, unfolding(am_text_defs::specs::Fields::bytes_of))]
pub fn is_body(word: &[u8], most: usize) -> Result<(), FieldFault>
    ensures { result ≡ and_then (bytes_of most word.now) (λ bytes. Ok tt) }
{
    if word == b"-".as_slice() {
        return Ok(());
    }
    if !are_pairs(word) {
        return Err(FieldFault::Form);
    }
    if most < word.len() / 2 {
        return Err(FieldFault::Limit);
    }
    Ok(())
}
