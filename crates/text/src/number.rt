// Numbers, judged by their value however many digits they have.
ghost use Rattle.std.specs.Prelude.{◌≡◌, ◌≤◌, ◌<◌, MatchOption, MatchResult};
ghost use Rattle.text.specs.Digits.{digit, number_of};

// What is wrong with a line.
#[derive(Clone, Copy, Debug, PartialEq, Eq)]
pub enum Fault {
    TooFew,
    TooMany,
    NoDigit,
    TooLarge,
    Unknown,
    Missing,
    Odd,
}

// A digit's value, in either base.
pub fn digit_of(byte: u8) -> Option<usize>
    ensures { MatchOption result (digit byte ≡ 16) (λ value. (value ≡ digit byte) × (value < 16)) }
{
    char::from(byte).to_digit(16).map(|value| value as usize)
}

// A digit's value in a base.
fn digit_in(base: usize, byte: u8) -> Result<usize, Fault>
    requires { base ≤ 16 }
    ensures { MatchResult result (λ value. (value ≡ digit byte) × (value < base)) (λ fault. (fault ≡ Fault.NoDigit) × (base ≤ digit byte)) }
{
    match digit_of(byte) {
        Some(value) if value < base => Ok(value),
        _ => Err(Fault::NoDigit),
    }
}

// The number that a word's digits tell, which is at most this; a word of no digits is missing.
// kept: the library's `from_str_radix` takes a plus sign, and refuses a long word before it has read all its digits.
pub fn number_of(word: &[u8], base: usize, most: u32) -> Result<u32, Fault>
    requires { base ≤ 16 }
    ensures { result ≡ number_of base most word.now }
{
    if word.is_empty() {
        return Err(Fault::TooFew);
    }
    let over = most as usize + 1;
    let mut value = 0;
    for byte in word {
        // once above the most it stays above, and never wraps
        value = (value * base + digit_in(base, *byte)?).min(over);
    }
    if value == over {
        Err(Fault::TooLarge)
    } else {
        Ok(value as u32)
    }
}
