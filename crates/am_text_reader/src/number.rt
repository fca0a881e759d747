ghost use Rattle.std.specs.Prelude.{◌≡◌, ◌<◌, IfOk, ◌≤◌, true};
ghost use Rattle.std.specs.List.{list_all};
ghost use Rattle.std.specs.Char.{is_ascii_digit};
ghost use Rattle.am_base.specs.Most.{greatest_number};
ghost use Rattle.am_text_defs.specs.Fields.{is_numeral, capped_value, number_up_to, number_in_text};

use am_base::limits::{MOST_NUMBER, MOST_RESILIENCE};
use am_text_defs::fault::FieldFault;

/// Whether all bytes of a word are decimal digits.
fn are_digits(word: &[u8]) -> bool
    ensures { result ≡ list_all is_ascii_digit word.now }
{
    word.iter().all(|digit| digit.is_ascii_digit())
}

/// Whether a word is a number as it is printed: decimal digits, without leading zeros.
fn is_numeral(word: &[u8]) -> bool
    ensures { result ≡ is_numeral word.now }
{
    if word.is_empty() {
        return false;
    }
    if word[0] == b'0' {
        return word.len() == 1;
    }
    are_digits(word)
}

/// The number that digits write, or one more than the greatest where it is above that.
fn capped_value(word: &[u8], most: u32) -> u32
    requires fits { most < 4294967295 }
    requires numeral { is_numeral word.now ≡ true }
    ensures { result ≡ capped_value most word.now }
{
    let above = u64::from(most) + 1;
    let mut value: u64 = 0;
    for digit in word {
        value = (10 * value + u64::from(*digit - b'0')).min(above);
    }
    value as u32
}

#[tactic(auto, using(std::proofs::lemmas::Bool::Decides::nat_tests), unfolding(am_text_defs::specs::Fields::number_up_to))]
/// The number of a word, as it is printed, up to a greatest one below 4,294,967,295.
pub fn number_up_to(word: &[u8], most: u32) -> Result<u32, FieldFault>
    requires { most < 4294967295 }
    ensures value { result ≡ number_up_to most word.now }
    ensures within { IfOk result (λ number. number ≤ most) }
{
    if !is_numeral(word) {
        return Err(FieldFault::Form);
    }
    let value = capped_value(word, most);
    if value <= most {
        return Ok(value);
    }
    Err(FieldFault::Limit)
}

/// A number of an entry, a round or a request, 0 to 2,000,000,000.
pub fn number(word: &[u8]) -> Result<u32, FieldFault>
    ensures value { result ≡ number_in_text word.now }
    ensures within { IfOk result (λ number. number ≤ greatest_number) }
{
    number_up_to(word, MOST_NUMBER)
}

/// A resilience, 0 to 15.
pub fn resilience(word: &[u8]) -> Result<u8, FieldFault>
    ensures value { result ≡ number_up_to 15 word.now }
    ensures within { IfOk result (λ resilience. resilience ≤ 15) }
{
    let number = number_up_to(word, u32::from(MOST_RESILIENCE))?;
    Ok(number as u8)
}
