//! Games, counts of plays, and names.
use crate::automata::GAME;
use history_model::{Game, Name, Tally};
use std::test::Fail;

#[test]
fn tells_dilemmas_and_scores(rt: HostRuntime) {
    let even = Game {
        r: 3,
        s: 0,
        t: 6,
        p: 1,
    };
    let flat = Game {
        r: 3,
        s: 1,
        t: 5,
        p: 1,
    };
    assert_eq!(rt;
        (GAME.dilemma(), even.dilemma(), flat.dilemma()),
        (true, false, false)
    );
    let tally = Tally {
        cc: 1,
        cd: 2,
        dc: 3,
        dd: 4,
    };
    assert_eq!(rt;
        (tally.left_score(&GAME), tally.right_score(&GAME)),
        (22, 17)
    );
}

#[test]
fn reads_names(rt: HostRuntime) -> Result<(), Fail> {
    let names = [
        ("tft", true),
        ("a b", true),
        ("~", true),
        ("abcdefghijklmnopqrstuvwxyz012345", true),
        ("abcdefghijklmnopqrstuvwxyz0123456", false),
        ("", false),
        (" a", false),
        ("a ", false),
        ("a|b", false),
        ("a\x7F", false),
        ("a\x1Fb", false),
        ("é", false),
    ];
    for (text, right) in names {
        let name = Name::read(text.as_bytes());
        assert_eq!(rt; name.is_some(), right, "at {text}");
        if let Some(name) = name {
            assert_eq!(rt;
                format!(in rt.alloc(); "{name}")?.as_bytes(),
                text.as_bytes()
            );
        }
    }
    Ok(())
}
