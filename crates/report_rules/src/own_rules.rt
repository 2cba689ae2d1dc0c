//! Noises of single names, and the order in which these names are shown.
ghost use Rattle.std.specs.Prelude.{◌≡◌};
ghost use Rattle.report_rules.specs.Grammar.{follows, own_allows, own_of};

use crate::Names;
use report_lines::{Line, ShownOwn};

/// The noise of a name, where that is what a line shows.
pub(crate) fn own_of(line: &Line) -> Option<ShownOwn>
    ensures { result ≡ own_of line.now }
{
    match line {
        Line::Own(found) => Some(*found),
        _ => None,
    }
}

/// Whether the noise of a name may stand where these names have one, and those were shown.
pub(crate) fn own_allows(version: u32, owners: &Names, names: &Names, found: &ShownOwn) -> bool
    ensures { result ≡ own_allows version owners.now names.now found.now }
{
    (version != 1 && names.as_slice().is_empty()) && !owners.has(&found.name)
}

/// Whether the names of a line come in the order of their noises.
pub(crate) fn follows(version: u32, owners: &Names, names: &Names, next: &Line) -> bool
    ensures { result ≡ follows version owners.now names.now next.now }
{
    version == 1
        || match next {
            Line::Match(found) => owners.both_come(names, &found.left, &found.right),
            Line::Entry(found) => owners.comes(names, &found.name),
            Line::End => names.as_slice().len() == owners.as_slice().len(),
            _ => true,
        }
}
