//! Numbers of any size in texts, as far as marks need them.
ghost use Rattle.std.specs.Prelude.{◌≡◌, ◌+◌, ◌*◌, ◌-◌, ◌≤◌};
ghost use Rattle.texts.specs.Numbers.{is_digit, is_well_led};
ghost use Rattle.checkpoint.specs.Marks.{capped, capped_from, capped_number_of};

fn is_digit(byte: u8) -> bool
    ensures { result ≡ is_digit byte }
{
    48 <= byte && byte <= 57
}

fn is_well_led(text: &[u8]) -> bool
    ensures { result ≡ is_well_led text.now }
{
    match text {
        [] => false,
        [first, rest @ ..] => *first != 48 || rest.len() == 0,
    }
}

// The number with one digit more behind it.
fn with_digit(n: u32, byte: u8) -> u32
    requires low { 48 ≤ byte }
    requires high { byte ≤ 57 }
    ensures { result ≡ capped (n * 10 + (byte - 48)) }
{
    let more = n as u64 * 10 + (byte - 48) as u64;
    more.min(4_294_967_295) as u32
}

// The number that digits make.
fn capped_value(text: &[u8]) -> Option<u32>
    ensures { result ≡ capped_from 0 text.now }
{
    let mut n: u32 = 0;
    for byte in text {
        if !is_digit(*byte) {
            return None;
        }
        n = with_digit(n, *byte);
    }
    Some(n)
}

/// The number that a text is the decimal text of, and 2^32 - 1 for each larger one; `None` for every
/// other text.
#[tactic(auto, unfolding(crate::specs::Marks::capped_number_of, crate::specs::Marks::any_number_of))]
pub(crate) fn capped_number(text: &[u8]) -> Option<u32>
    ensures { result ≡ capped_number_of text.now }
{
    if !is_well_led(text) {
        return None;
    }
    capped_value(text)
}
