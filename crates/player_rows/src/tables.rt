//! Tables, and tables against the history itself.
ghost use Rattle.std.specs.Prelude.{◌≡◌, ◌≤◌, ◌+◌, ◌^◌, IfOk, length, max, slice_index};
ghost use Rattle.player_core.specs.Sheet.{AreWithin};

use crate::plays::{CC, CD, DC, DD, shown_after};
use history_model::{Move, Play};
use lookup_player::LookupPlayer;
use player_core::{Kind, Player, Sheet, no_name};
use std::alloc::{AllocError, Global};
use std::test::Fail;

// How many histories of up to 6 plays there are.
const HISTORIES: u32 = 5461;

pub(crate) fn table(
    alloc: Global,
    den: u32,
    looks: [u32; 3],
    opening: Vec<u32>,
    table: Vec<u32>,
) -> Sheet
    requires some { 1 ≤ den }
    requires few { den ≤ 1000 }
    requires own { slice_index looks 0 ≤ 4 }
    requires other { slice_index looks 1 ≤ 4 }
    requires first { slice_index looks 2 ≤ 4 }
    requires all { slice_index looks 0 + slice_index looks 1 + slice_index looks 2 ≤ 8 }
    requires opening { AreWithin den opening.items }
    requires table { AreWithin den table.items }
    requires openings { length opening.items ≡ max (max (slice_index looks 0) (slice_index looks 1)) (slice_index looks 2) }
    requires weights { length table.items ≡ 2 ^ (slice_index looks 0 + slice_index looks 1 + slice_index looks 2) }
{
    let [own, other, first] = looks;
    Sheet {
        kind: Kind::Lookup,
        den,
        own,
        other,
        first,
        opening,
        table,
        next: Vec::new(alloc),
        plug: no_name(),
    }
}

#[test]
fn plays_tables(rt: HostRuntime) -> Result<(), Fail> {
    let alloc = rt.alloc();
    let mut player = LookupPlayer::new(alloc)?;
    assert_eq!(rt; (player.weight(), player.den(), player.rows()), (1, 1, 1));
    let defector = table(alloc, 1, [0, 0, 0], vec![in alloc]?, vec![in alloc; 0]?);
    // Defects exactly where the last heard move is D and the one before is C.
    let after_c_d = table(
        alloc,
        1,
        [0, 2, 0],
        vec![in alloc; 1, 1]?,
        vec![in alloc; 1, 0, 1, 1]?,
    );
    let cases: [(&[Play], u32); 8] = [
        (&[], 1),
        (&[CD], 1),
        (&[CC, CC], 1),
        (&[CC, CD], 0),
        (&[CD, CC], 1),
        (&[DD, DD], 1),
        (&[CD, DC, DD], 0),
        (&[CC, CD, DC], 1),
    ];
    for (plays, weight) in cases {
        assert_eq!(rt; shown_after(&mut player, &defector, plays), Some((0, 1, 1)));
        assert_eq!(rt;
            shown_after(&mut player, &after_c_d, plays),
            Some((weight, 1, 7))
        );
    }
    Ok(())
}

// So many numbers up to 1000, no two of 256 alike.
fn numbers(alloc: Global, count: u32, seed: u32) -> Result<Vec<u32>, AllocError>
    requires few { count ≤ 256 }
    requires seed { seed ≤ 1000 }
    ensures count { IfOk result (λ numbers. length numbers.items ≡ count) }
    ensures within { IfOk result (λ numbers. AreWithin 1000 numbers.items) }
{
    let mut numbers = Vec::new(alloc);
    for place in 0..count {
        numbers.push((37 * place + seed) % 1001)?;
    }
    Ok(numbers)
}

// A table that tells its openings and entries apart.
fn mixed(alloc: Global, own: u32, other: u32, first: u32) -> Result<Sheet, AllocError>
    requires own { own ≤ 4 }
    requires other { other ≤ 4 }
    requires first { first ≤ 4 }
    requires all { own + other + first ≤ 8 }
{
    let opening = numbers(alloc, own.max(other).max(first), 500)?;
    let entries = numbers(alloc, 1 << (own + other + first), 1)?;
    Ok(table(alloc, 1000, [own, other, first], opening, entries))
}

// The history of a number: with the histories in order of length, and each but the first a play
// before another.
fn history(alloc: Global, number: u32) -> Result<Vec<Play>, AllocError> {
    let mut plays = Vec::new(alloc);
    let mut rest = number;
    for _ in 0..6 {
        if rest == 0 {
            break;
        }
        let play = match rest % 4 {
            0 => DD,
            1 => CC,
            2 => CD,
            _ => DC,
        };
        plays.push(play)?;
        rest = (rest - 1) / 4;
    }
    Ok(plays)
}

fn with_move(place: usize, play: Move) -> usize {
    place
        .wrapping_mul(2)
        .wrapping_add(if play == Move::D { 1 } else { 0 })
}

// The weight as the table gives it, by the history alone.
fn expected(sheet: &Sheet, plays: &[Play]) -> Option<u32> {
    let turns = plays.len();
    let (own, other, first) = (
        sheet.own as usize,
        sheet.other as usize,
        sheet.first as usize,
    );
    if turns < own || turns < other || turns < first {
        return sheet.opening.get(turns).copied();
    }
    let mut place = 0;
    for play in plays.iter().skip(turns - own) {
        place = with_move(place, play.mine);
    }
    for play in plays.iter().skip(turns - other) {
        place = with_move(place, play.theirs);
    }
    for play in plays.iter().take(first) {
        place = with_move(place, play.theirs);
    }
    sheet.table.get(place).copied()
}

// On how many histories a table plays as it should with so many rows.
fn agreements<P: Player>(
    alloc: Global,
    player: &mut P,
    sheet: &Sheet,
    rows: u32,
) -> Result<u32, AllocError> {
    let mut agreements: u32 = 0;
    for number in 0..HISTORIES {
        let plays = history(alloc, number)?;
        let weight = expected(sheet, &plays);
        if shown_after(player, sheet, &plays) == weight.map(|weight| (weight, 1000, rows)) {
            agreements = agreements.wrapping_add(1);
        }
    }
    Ok(agreements)
}

#[test]
fn plays_as_the_history_says(rt: HostRuntime) -> Result<(), Fail> {
    let alloc = rt.alloc();
    let mut player = LookupPlayer::new(alloc)?;
    let each = mixed(alloc, 1, 2, 1)?;
    assert_eq!(rt; agreements(alloc, &mut player, &each, 25)?, HISTORIES);
    let firsts = mixed(alloc, 2, 0, 3)?;
    assert_eq!(rt; agreements(alloc, &mut player, &firsts, 53)?, HISTORIES);
    let widest = mixed(alloc, 4, 2, 2)?;
    assert_eq!(rt; agreements(alloc, &mut player, &widest, 457)?, HISTORIES);
    Ok(())
}
