//! Numbers with a point in front of texts, with a sign or without.
ghost use Rattle.std.specs.Prelude.{◌≡◌, ◌≤◌, ◌<◌, ◌^◌, unsigned_abs, IfSome};
ghost use Rattle.std.specs.Option.{option_map};
ghost use Rattle.texts.specs.Numbers.{IsDecimals, point_at, units_of, value_of_width};
ghost use Rattle.texts.specs.Signed.{has_minus, signed_at, with_sign, without_minus};

use crate::{cut, number_of, value_of};

const MOST: u128 = 10_000_000_000_000_000_000_000_000_000_000_000_000;

fn unit(decimals: u32) -> u128
    requires { IsDecimals decimals }
    ensures { result ≡ 10 ^ decimals }
{
    if decimals == 9 {
        1_000_000_000
    } else {
        1_000_000_000_000
    }
}

fn value_of_width(text: &[u8], width: u32) -> Option<u128>
    ensures { result ≡ value_of_width width text.now }
{
    if text.len() != width as usize {
        return None;
    }
    value_of(text)
}

fn units_of(whole: u128, part: u128, decimals: u32) -> Option<u128>
    requires decimals { IsDecimals decimals }
    requires part { part < 10 ^ 38 }
    ensures value { result ≡ units_of decimals whole part }
    ensures bound { IfSome result (λ units. units ≤ 10 ^ 37) }
{
    let unit = unit(decimals);
    if whole > MOST / unit {
        return None;
    }
    let units = whole * unit + part;
    if units > MOST {
        return None;
    }
    Some(units)
}

/// The point in front of a text with 9 or 12 decimals, in units of the last, at most 10^37 of them, and
/// what stands behind it; `None` where no such point stands there.
#[tactic(auto, unfolding(crate::specs::Numbers::point_at))]
pub fn point_at(text: &[u8], decimals: u32) -> Option<(u128, &[u8])>
    requires { IsDecimals decimals }
    ensures value { option_map (λ x. (x.0, x.1.now)) result ≡ point_at decimals text.now }
    ensures bound { IfSome result (λ x. x.0 ≤ 10 ^ 37) }
{
    let (front, rest) = cut(text, b'.');
    let whole = number_of(front)?;
    if rest.len() < decimals as usize {
        return None;
    }
    let (digits, tail) = rest.split_at(decimals as usize);
    let part = value_of_width(digits, decimals)?;
    let units = units_of(whole, part, decimals)?;
    Some((units, tail))
}

/// Whether a `-` stands in front of a text, and what stands behind it; all where there is none.
pub fn sign_of(text: &[u8]) -> (bool, &[u8])
    ensures minus { result.0 ≡ has_minus text.now }
    ensures rest { result.1.now ≡ without_minus text.now }
{
    match text {
        [] => (false, text),
        [first, rest @ ..] => {
            if *first == b'-' {
                (true, rest)
            } else {
                (false, text)
            }
        }
    }
}

/// The number below 0 or not of an absolute value of at most 10^37; `None` for -0.
pub fn with_sign(minus: bool, n: u128) -> Option<i128>
    requires { n ≤ 10 ^ 37 }
    ensures value { result ≡ with_sign minus n }
    ensures bound { IfSome result (λ z. unsigned_abs z ≤ n) }
{
    if minus {
        if n == 0 { None } else { Some(-(n as i128)) }
    } else {
        Some(n as i128)
    }
}

/// The point with a sign in front of a text with 9 or 12 decimals, in units of the last, at most 10^37 of
/// them either way, and what stands behind it; `None` where no such point stands there, as for -0.
#[tactic(auto, unfolding(crate::specs::Signed::signed_at))]
pub fn signed_at(text: &[u8], decimals: u32) -> Option<(i128, &[u8])>
    requires { IsDecimals decimals }
    ensures value { option_map (λ x. (x.0, x.1.now)) result ≡ signed_at decimals text.now }
    ensures bound { IfSome result (λ x. unsigned_abs x.0 ≤ 10 ^ 37) }
{
    let (minus, rest) = sign_of(text);
    let (n, tail) = point_at(rest, decimals)?;
    let units = with_sign(minus, n)?;
    Some((units, tail))
}
