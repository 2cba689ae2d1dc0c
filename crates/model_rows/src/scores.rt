//! What both sides expect, over all histories and by the chain.
use crate::automata::{GAME, NOISY, STILL, cooperator, one_in_three, tit_for_tat, win_stay};
use fixed_span::Span;
use history_model::{Grid, Noise, WholePair, play_all};
use product_chain::expect;
use std::alloc::Global;
use std::test::Fail;

// The last value is from a plain enumeration of the 64 histories with exact fractions.
#[test]
fn sums_over_all_histories(rt: HostRuntime) -> Result<(), Fail> {
    let tft = tit_for_tat(rt.alloc())?;
    let win_stay = win_stay(rt.alloc())?;
    let one = play_all(&tft, &tft, &GAME, &NOISY, &NOISY, 1);
    assert_eq!(rt; (one.left, one.right, one.over), (289, 289, 100));
    let two = play_all(&tft, &tft, &GAME, &NOISY, &NOISY, 2);
    assert_eq!(rt; (two.left, two.right, two.over), (56776, 56776, 10000));
    let uneven = play_all(&tft, &tft, &GAME, &NOISY, &STILL, 1);
    assert_eq!(rt; (uneven.left, uneven.right, uneven.over), (32, 27, 10));
    let three = play_all(&win_stay, &tft, &GAME, &NOISY, &STILL, 3);
    assert_eq!(rt;
        (three.left, three.right, three.over),
        (503040, 368640, 64000)
    );
    Ok(())
}

#[test]
fn expects_worked_scores(rt: HostRuntime) -> Result<(), Fail> {
    let tft = tit_for_tat(rt.alloc())?;
    let (left, right) = expect(rt.alloc(), &tft, &tft, &GAME, &NOISY, &NOISY, 1)?;
    assert_eq!(rt; left.ends(), (2_890_000_000_000, 2_890_000_000_000));
    assert_eq!(rt; right.ends(), (2_890_000_000_000, 2_890_000_000_000));
    let vector = one_in_three(rt.alloc())?;
    let always = cooperator(rt.alloc())?;
    let (third, _other) = expect(rt.alloc(), &vector, &always, &GAME, &STILL, &STILL, 1)?;
    assert_eq!(rt; third.ends(), (4_333_333_333_333, 4_333_333_333_334));
    let (uneven, other) = expect(rt.alloc(), &always, &always, &GAME, &NOISY, &STILL, 1)?;
    assert_eq!(rt; uneven.ends(), (3_200_000_000_000, 3_200_000_000_000));
    assert_eq!(rt; other.ends(), (2_700_000_000_000, 2_700_000_000_000));
    Ok(())
}

// Whether a span holds points/over, in units of 10^-12.
fn holds(span: Span, points: i128, over: i128) -> bool {
    let (lo, hi) = span.ends();
    match (
        lo.checked_mul(over),
        points.checked_mul(1_000_000_000_000),
        hi.checked_mul(over),
    ) {
        (Some(low), Some(value), Some(high)) => low <= value && value <= high,
        _ => false,
    }
}

// Fails where the span of a side doesn't hold its share of these sums, which are those of one to four turns.
fn check_sums(
    alloc: Global,
    left: &Grid,
    right: &Grid,
    right_noise: &Noise,
    sums: &[WholePair; 4],
) -> Result<(), Fail> {
    for (k, sum) in sums.iter().enumerate() {
        let turns = k as u32 + 1;
        let (left_span, right_span) = expect(
            alloc,
            left,
            right,
            &GAME,
            &NOISY,
            right_noise,
            turns,
        )?;
        if !holds(left_span, sum.left, sum.over) || !holds(right_span, sum.right, sum.over) {
            return Err(Fail::new(format!(in alloc; "in {turns} turns")?));
        }
    }
    Ok(())
}

#[test]
fn spans_hold_the_sums_of_sure_rules(rt: HostRuntime) -> Result<(), Fail> {
    let tft = tit_for_tat(rt.alloc())?;
    let sums = [
        play_all(&tft, &tft, &GAME, &NOISY, &STILL, 1),
        play_all(&tft, &tft, &GAME, &NOISY, &STILL, 2),
        play_all(&tft, &tft, &GAME, &NOISY, &STILL, 3),
        play_all(&tft, &tft, &GAME, &NOISY, &STILL, 4),
    ];
    check_sums(rt.alloc(), &tft, &tft, &STILL, &sums)
}

#[test]
fn spans_hold_the_sums_of_lots(rt: HostRuntime) -> Result<(), Fail> {
    let win_stay = win_stay(rt.alloc())?;
    let tft = tit_for_tat(rt.alloc())?;
    let sums = [
        play_all(&win_stay, &tft, &GAME, &NOISY, &NOISY, 1),
        play_all(&win_stay, &tft, &GAME, &NOISY, &NOISY, 2),
        play_all(&win_stay, &tft, &GAME, &NOISY, &NOISY, 3),
        play_all(&win_stay, &tft, &GAME, &NOISY, &NOISY, 4),
    ];
    check_sums(rt.alloc(), &win_stay, &tft, &NOISY, &sums)
}
