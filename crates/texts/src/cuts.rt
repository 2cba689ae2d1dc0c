//! Texts cut at a byte, and into lines.
ghost use Rattle.std.specs.Prelude.{◌≡◌, ◌+◌, ◌∷◌, [], length, IfSome, IfNone};
ghost use Rattle.texts.specs.Cuts.{before, behind};
ghost use Rattle.texts.specs.Grammar.{pieces};

/// What stands before the first such byte, and what stands behind it; all and nothing where there is none.
pub fn cut(text: &[u8], byte: u8) -> (&[u8], &[u8])
    ensures front { result.0.now ≡ before byte text.now }
    ensures rest { result.1.now ≡ behind byte text.now }
{
    for i in 0..text.len() {
        if text[i] == byte {
            return (&text[..i], &text[i + 1..]);
        }
    }
    (text, &[])
}

/// The first line, without its LF, and what stands behind it; `None` where no LF stands in the text.
pub fn first_line(text: &[u8]) -> Option<(&[u8], &[u8])>
    ensures line { IfSome result (λ x. pieces text.now ≡ x.0.now ∷ pieces x.1.now) }
    ensures len { IfSome result (λ x. length x.0.now + 1 + length x.1.now ≡ length text.now) }
    ensures last { IfNone result (pieces text.now ≡ text.now ∷ []) }
{
    for i in 0..text.len() {
        if text[i] == b'\n' {
            return Some((&text[..i], &text[i + 1..]));
        }
    }
    None
}
