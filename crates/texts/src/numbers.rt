//! Whole numbers in texts.
ghost use Rattle.std.specs.Prelude.{◌≡◌};
ghost use Rattle.texts.specs.Numbers.{is_digit, is_well_led, value_from, number_of, small};

const MOST: u128 = 10_000_000_000_000_000_000_000_000_000_000_000_000;

fn is_digit(byte: u8) -> bool
    ensures { result ≡ is_digit byte }
{
    48 <= byte && byte <= 57
}

/// The number below 10^38 that digits make, zeros in front or not; no digits make 0. `None` at another
/// byte, and where the number is larger.
pub fn value_of(text: &[u8]) -> Option<u128>
    ensures { result ≡ value_from 0 text.now }
{
    let mut n: u128 = 0;
    for b in text {
        // One more digit keeps the number below 10^38.
        if !is_digit(*b) || n >= MOST {
            return None;
        }
        n = n * 10 + (*b - 48) as u128;
    }
    Some(n)
}

fn is_well_led(text: &[u8]) -> bool
    ensures { result ≡ is_well_led text.now }
{
    match text {
        [] => false,
        [first, rest @ ..] => *first != 48 || rest.len() == 0,
    }
}

/// The number below 10^38 that a text is the decimal text of, without sign and leading zeros; `None`
/// for every other text.
#[tactic(auto, unfolding(crate::specs::Numbers::number_of))]
pub fn number_of(text: &[u8]) -> Option<u128>
    ensures { result ≡ number_of text.now }
{
    if !is_well_led(text) {
        return None;
    }
    value_of(text)
}

/// The number below 2^64 that a text is the decimal text of, without sign and leading zeros; `None`
/// for every other text.
#[tactic(auto, unfolding(crate::specs::Numbers::small))]
pub fn small(text: &[u8]) -> Option<u64>
    ensures { result ≡ small text.now }
{
    let n = number_of(text)?;
    if n < 18_446_744_073_709_551_616 {
        Some(n as u64)
    } else {
        None
    }
}
