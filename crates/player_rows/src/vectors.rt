//! Vectors.
ghost use Rattle.std.specs.Prelude.{◌≡◌, ◌≤◌};
ghost use Rattle.player_core.specs.Sheet.{AreWithin};

use crate::plays::{CC, CD, DC, DD, shown_after};
use history_model::Play;
use memory_player::MemoryPlayer;
use player_core::{Kind, Player, Sheet, no_name};
use std::alloc::{AllocError, Global};
use std::test::Fail;

pub(crate) fn vector(
    alloc: Global,
    den: u32,
    opening: u32,
    table: [u32; 4],
) -> Result<Sheet, AllocError>
    requires some { 1 ≤ den }
    requires few { den ≤ 1000 }
    requires opening { opening ≤ den }
    requires table { AreWithin den table }
{
    Ok(Sheet {
        kind: Kind::MemoryOne,
        den,
        own: 0,
        other: 0,
        first: 0,
        opening: Vec::from_array(alloc, [opening])?,
        table: Vec::from_array(alloc, table)?,
        next: Vec::new(alloc),
        plug: no_name(),
    })
}

#[test]
fn plays_vectors(rt: HostRuntime) -> Result<(), Fail> {
    let alloc = rt.alloc();
    let mut player = MemoryPlayer::new(alloc)?;
    let tit_for_tat = vector(alloc, 1, 1, [1, 0, 1, 0])?;
    let mixed = vector(alloc, 10, 5, [1, 2, 3, 4])?;
    let even = vector(alloc, 3, 1, [1, 1, 1, 1])?;
    assert_eq!(rt; (player.weight(), player.den(), player.rows()), (1, 1, 1));
    let cases: [(&[Play], u32, u32); 6] = [
        (&[], 1, 5),
        (&[CC], 1, 1),
        (&[CD], 0, 2),
        (&[DC], 1, 3),
        (&[DD], 0, 4),
        (&[DD, CC, CD], 0, 2),
    ];
    for (plays, sure, weight) in cases {
        assert_eq!(rt;
            shown_after(&mut player, &tit_for_tat, plays),
            Some((sure, 1, 5))
        );
        assert_eq!(rt;
            shown_after(&mut player, &mixed, plays),
            Some((weight, 10, 5))
        );
        assert_eq!(rt; shown_after(&mut player, &even, plays), Some((1, 3, 5)));
    }
    Ok(())
}
