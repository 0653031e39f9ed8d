//! Numbers among words.
ghost use Rattle.std.specs.Prelude.{◌≡◌, ◌<◌, ◌≤◌, ◌^◌, IfSome};
ghost use Rattle.word_rules.specs.Numbers as spec;

/// The decimal number that the word is, without a sign and without a leading zero, where it is within these bounds.
pub fn number_within(word: &str, least: u32, most: u32) -> Option<u32>
    requires { most < 2 ^ 24 }
    ensures number { result ≡ spec.number_within least most word.now }
    ensures within { IfSome result (λ number. (least ≤ number) × (number ≤ most)) }
{
    let number = match word.as_bytes() {
        [b'0', _, ..] => None,
        digits => digits_up_to(digits, most),
    };
    match number {
        Some(number) if least <= number => Some(number),
        _ => None,
    }
}

/// What one or more digits say, where it is at most this.
fn digits_up_to(digits: &[u8], most: u32) -> Option<u32>
    requires { most < 2 ^ 24 }
    ensures number { result ≡ spec.digits_up_to most digits.now }
    ensures within { IfSome result (λ number. number ≤ most) }
{
    if digits.is_empty() {
        return None;
    }
    let mut number: u32 = 0;
    for digit in digits {
        number = with_digit(number, *digit, most)?;
    }
    Some(number)
}

/// A number with one more digit, where it is one and at most this.
fn with_digit(number: u32, digit: u8, most: u32) -> Option<u32>
    requires within { number ≤ most }
    requires small { most < 2 ^ 24 }
    ensures number { result ≡ spec.with_digit most number digit }
    ensures within { IfSome result (λ number. number ≤ most) }
{
    if !digit.is_ascii_digit() {
        return None;
    }
    let more = number * 10 + (digit - b'0') as u32;
    if more <= most { Some(more) } else { None }
}
