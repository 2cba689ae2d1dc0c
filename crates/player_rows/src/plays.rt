//! Plays, and what a player shows after them.
use history_model::{Move, Play};
use player_core::{Player, Sheet};

pub(crate) const CC: Play = Play {
    mine: Move::C,
    theirs: Move::C,
};

pub(crate) const CD: Play = Play {
    mine: Move::C,
    theirs: Move::D,
};

pub(crate) const DC: Play = Play {
    mine: Move::D,
    theirs: Move::C,
};

pub(crate) const DD: Play = Play {
    mine: Move::D,
    theirs: Move::D,
};

/// The weight of C after the plays, what it is over, and the number of rows; none where the player takes
/// no such sheet.
pub(crate) fn shown_after<P: Player>(
    player: &mut P,
    sheet: &Sheet,
    plays: &[Play],
) -> Option<(u32, u32, u32)> {
    if !player.takes(sheet) {
        return None;
    }
    player.load(sheet);
    for play in plays {
        player.advance(play.mine, play.theirs);
    }
    Some((player.weight(), player.den(), player.rows()))
}
