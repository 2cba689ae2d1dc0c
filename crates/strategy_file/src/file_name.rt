//! Names of files.
ghost use Rattle.std.specs.Prelude.{◌≡◌, length, IfOk};
ghost use Rattle.std.specs.List.{list_all};
ghost use Rattle.strategy_file.specs.FileName.{is_printable, is_file_name, file_name_of, IsFileName};

use std::alloc::{AllocError, Global};
use std::marker::Model;

/// The name of a file with a machine's rows, relative to the working folder: 1 to 255 bytes of
/// printable ASCII (0x20 to 0x7E), of which the first is no `-`. Contracts see it as its list of bytes.
#[derive(Drop)]
pub struct FileName {
    text: String,
}

impl Model for FileName {
    ghost use Rattle.std.specs.Prelude.{ℕ, List, string_bytes};
    ghost use Rattle.strategy_file.specs.FileName.{IsFileName};

    ghost Value = { List ℕ };

    ghost view = { λ s. string_bytes s.text };

    ghost invariant = { λ s. IsFileName (string_bytes s.text) };
}

impl FileName {
    /// Reads a name of a file: `None` exactly where the text is none.
    ///
    /// # Errors
    ///
    /// Want of memory.
    pub fn read(alloc: Global, text: &str) -> Result<Option<FileName>, AllocError>
        ensures { IfOk result (λ found. found ≡ file_name_of text.now) }
    {
        if !is_file_name(text.as_bytes()) {
            return Ok(None);
        }
        let text = String::from_str(alloc, text)?;
        Ok(Some(FileName { text }))
    }

    /// The name as text.
    pub fn text(&self) -> &str
        ensures value { result.now ≡ self.now }
        ensures name { IsFileName self.now }
    {
        self.text.as_str()
    }
}

fn is_printable(b: u8) -> bool
    ensures { result ≡ is_printable b }
{
    (32..=126).contains(&b)
}

fn all_printable(bytes: &[u8]) -> bool
    ensures { result ≡ list_all is_printable bytes.now }
{
    bytes.iter().all(|b| is_printable(*b))
}

fn is_file_name(bytes: &[u8]) -> bool
    ensures { result ≡ is_file_name bytes.now }
{
    if bytes.is_empty() || bytes.len() > 255 {
        return false;
    }
    if !all_printable(bytes) {
        return false;
    }
    bytes[0] != b'-'
}
