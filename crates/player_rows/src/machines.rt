//! Machines.
ghost use Rattle.std.specs.Prelude.{◌≡◌, ℕ, ◌≤◌, ◌<◌, ◌*◌, ◌/◌, length, slice_index};
ghost use Rattle.player_core.specs.Sheet.{AreWithin};

use crate::plays::{CC, CD, DC, DD, shown_after};
use history_model::Play;
use machine_player::MachinePlayer;
use player_core::{Kind, Player, Sheet, no_name};
use std::alloc::{AllocError, Global};
use std::test::Fail;

pub(crate) fn machine(
    alloc: Global,
    opening: u32,
    table: &[u32],
    next: &[u32],
) -> Result<Sheet, AllocError>
    requires opening { opening ≤ 1 }
    requires table { AreWithin 1 table.now }
    requires some { 1 ≤ length next.now / 2 }
    requires few { length next.now / 2 ≤ 256 }
    requires whole { length next.now ≡ 2 * (length next.now / 2) }
    requires even { length table.now ≡ length next.now }
    requires closed { (place : ℕ) → place < length next.now → slice_index next.now place < length next.now / 2 }
{
    Ok(Sheet {
        kind: Kind::Machine,
        den: 1,
        own: 0,
        other: 0,
        first: 0,
        opening: Vec::from_array(alloc, [opening])?,
        table: Vec::from_slice(alloc, table)?,
        next: Vec::from_slice(alloc, next)?,
        plug: no_name(),
    })
}

#[test]
fn plays_machines(rt: HostRuntime) -> Result<(), Fail> {
    let alloc = rt.alloc();
    let mut player = MachinePlayer::new(alloc)?;
    assert_eq!(rt; (player.weight(), player.den(), player.rows()), (1, 1, 1));
    let tit_for_tat = machine(alloc, 1, &[1, 0], &[0, 0])?;
    let opposite = machine(alloc, 0, &[0, 1], &[0, 0])?;
    // Defects exactly after two heard Ds in a row: in state 1 the last heard move was D.
    let two_tats = machine(alloc, 1, &[1, 1, 1, 0], &[0, 1, 0, 1])?;
    let cases: [(&[Play], u32, u32, u32); 8] = [
        (&[], 1, 0, 1),
        (&[CC], 1, 0, 1),
        (&[CD], 0, 1, 1),
        (&[DC], 1, 0, 1),
        (&[DD], 0, 1, 1),
        (&[CD, CD], 0, 1, 0),
        (&[CD, CC, CD], 0, 1, 1),
        (&[CD, CD, DD, DC], 1, 0, 1),
    ];
    for (plays, one, other, two) in cases {
        assert_eq!(rt;
            shown_after(&mut player, &tit_for_tat, plays),
            Some((one, 1, 2))
        );
        assert_eq!(rt;
            shown_after(&mut player, &opposite, plays),
            Some((other, 1, 2))
        );
        assert_eq!(rt;
            shown_after(&mut player, &two_tats, plays),
            Some((two, 1, 4))
        );
    }
    Ok(())
}
