//! What the built-ins are called, and what they play in matches worked out by hand.
use history_model::Move;
use player_core::Player;
use plug_players::{Builtin, PlugPlayer};

fn chosen(player: &PlugPlayer) -> Move {
    if player.weight() == player.den() {
        Move::C
    } else {
        Move::D
    }
}

fn move_of(letter: u8) -> Move {
    if letter == b'C' { Move::C } else { Move::D }
}

#[test]
fn names_are_those_of_the_library(rt: HostRuntime) {
    let names = [
        "Cooperator",
        "Defector",
        "Tit For Tat",
        "Tit For Two Tats",
        "Grudger",
        "Win-Stay Lose-Shift",
        "Alternator",
    ];
    for (which, name) in Builtin::ALL.iter().zip(names.iter()) {
        assert_eq!(rt; which.name().bytes(), name.as_bytes(), "{name}");
    }
}

#[test]
fn each_answers_the_same_moves_by_its_rule(rt: HostRuntime) {
    let cases = [
        (Builtin::Cooperator, b"CCCCCCC"),
        (Builtin::Defector, b"DDDDDDD"),
        (Builtin::TitForTat, b"CCDDCDD"),
        (Builtin::TitForTwoTats, b"CCCDCCD"),
        (Builtin::Grudger, b"CCDDDDD"),
        (Builtin::WinStayLoseShift, b"CCDCCDC"),
        (Builtin::Alternator, b"CDCDCDC"),
    ];
    for (which, answers) in cases {
        let mut player = PlugPlayer::new(which);
        for (heard, answer) in b"CDDCDDC".iter().zip(answers.iter()) {
            assert_eq!(rt; chosen(&player), move_of(*answer), "{which:?}");
            player.advance(move_of(*answer), move_of(*heard));
        }
    }
}

#[test]
fn grudger_meets_alternator(rt: HostRuntime) {
    let mut grudger = PlugPlayer::new(Builtin::Grudger);
    let mut alternator = PlugPlayer::new(Builtin::Alternator);
    for play in [b"CC", b"CD", b"DC", b"DD"] {
        let (left, right) = (move_of(play[0]), move_of(play[1]));
        assert_eq!(rt; chosen(&grudger), left);
        assert_eq!(rt; chosen(&alternator), right);
        grudger.advance(left, right);
        alternator.advance(right, left);
    }
    assert_eq!(rt; grudger.advances(), 4);
}
