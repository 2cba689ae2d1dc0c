//! Where the matches of a rota stand.
ghost use Rattle.std.specs.Prelude.{◌≡◌};

use history_model::Tally;
use std::marker::Model;

/// Where a match of a rota stands: its two entries by their places, the rows of their automata at which
/// the next turn begins, and how often each play came so far, as the left player sees it.
#[derive(Clone, Copy, Debug, PartialEq, Eq)]
pub struct RotaRow {
    pub left: u32,
    pub right: u32,
    pub left_mark: u32,
    pub right_mark: u32,
    pub tally: Tally,
}

/// Where all matches of a rota stand, in order. Contracts see them as their list.
#[derive(Drop)]
pub struct RotaRows {
    items: Vec<RotaRow>,
}

impl Model for RotaRows {
    ghost use Rattle.std.specs.Prelude.{List};
    ghost use Rattle.rota_rows.specs.declared.row.RotaRow.{RotaRow};

    ghost Value = { List RotaRow };

    ghost view = { λ s. s.items.items };
}

impl RotaRows {
    /// The rows of this list.
    pub fn from_vec(items: Vec<RotaRow>) -> RotaRows
        ensures { result ≡ items.items }
    {
        RotaRows { items }
    }

    /// The list back.
    pub fn into_vec(self) -> Vec<RotaRow>
        ensures { result.items ≡ self }
    {
        self.items
    }

    /// The rows as a slice.
    pub fn as_slice(&self) -> &[RotaRow]
        ensures { result.now ≡ self.now }
    {
        &self.items
    }
}
