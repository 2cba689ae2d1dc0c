//! Names of entries.
ghost use Rattle.std.specs.Prelude.{◌≡◌, ◌<◌, ◌≤◌, replicate, true, false, length, slice_index, MatchOption, Some};
ghost use Rattle.std.specs.List.{list_all};
ghost use Rattle.history_model.specs.Name.{is_name, is_name_byte, IsName, IsPadded};

use std::fmt;
use std::marker::Model;

/// 1 to 32 bytes of printable ASCII (0x20 to 0x7E) without `|`, whose first and last byte is no
/// space. Contracts see it as its list of bytes.
#[derive(Clone, Copy)]
pub struct Name {
    bytes: [u8; 32],
    len: u32,
}

impl Model for Name {
    ghost use Rattle.std.specs.Prelude.{ℕ, ◌-◌, ◌++◌, List, length, take, replicate};
    ghost use Rattle.history_model.specs.Name.{IsHeldName, length_back, padded_back};

    ghost Value = { List ℕ };

    ghost view = { λ n. take n.len n.bytes };

    ghost invariant = { λ n. IsHeldName n.len n.bytes };

    ghost inverse = { λ bs. record { bytes = bs ++ replicate (32 - length bs) 0; len = length bs } };

    ghost inverse_ok = { λ n h i. record {
      bytes = padded_back n.bytes n.len h i;
      len = length_back n.bytes n.len h i;
    } };
}

impl Name {
    /// Reads a name: `None` exactly where the bytes are no name.
    pub fn read(bytes: &[u8]) -> Option<Name>
        ensures { MatchOption result (is_name bytes.now ≡ false) (λ n. (is_name bytes.now ≡ true) × (n ≡ bytes.now)) }
    {
        let len = bytes.len();
        if len < 1 || len > 32 {
            return None;
        }
        if !all_name_bytes(bytes) {
            return None;
        }
        if bytes[0] == b' ' || bytes[len - 1] == b' ' {
            return None;
        }
        Some(Name {
            bytes: padded(bytes),
            len: len as u32,
        })
    }

    /// The number of bytes, from 1 to 32.
    pub fn len(&self) -> u32
        ensures value { result ≡ length self.now }
        ensures name { IsName self.now }
    {
        self.len
    }

    /// The bytes.
    pub fn bytes(&self) -> &[u8]
        ensures { result.now ≡ self.now }
    {
        &self.bytes[..self.len as usize]
    }

    /// The byte at a place.
    pub fn byte(&self, at: u32) -> u8
        requires { at < length self.now }
        ensures { result ≡ slice_index self.now at }
    {
        self.bytes[at as usize]
    }
}

impl fmt::Display for Name {
    ghost output = { λ n. Some n };

    fn fmt<W: fmt::Write>(&self, f: &mut fmt::Formatter<W>) -> fmt::Result {
        match std::str::from_utf8(self.bytes()) {
            Ok(text) => write!(f, "{text}"),
            Err(_) => Err(fmt::Error),
        }
    }
}

fn is_name_byte(b: u8) -> bool
    ensures { result ≡ is_name_byte b }
{
    (32..=126).contains(&b) && b != b'|'
}

fn zeros() -> [u8; 32]
    ensures { result ≡ replicate 32 0 }
{
    [0; 32]
}

// The bytes, and zeros behind them.
fn padded(bytes: &[u8]) -> [u8; 32]
    requires { length bytes.now ≤ 32 }
    ensures { IsPadded bytes.now result }
{
    let mut held = zeros();
    held[..bytes.len()].copy_from_slice(bytes);
    held
}

fn all_name_bytes(bytes: &[u8]) -> bool
    ensures { result ≡ list_all is_name_byte bytes.now }
{
    bytes.iter().all(|b| is_name_byte(*b))
}
