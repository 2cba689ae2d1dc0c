//! Matches between two echoes, worked out by hand. A bench is tested before a game, by the players' automata and
//! not by their names alone, and a player's automaton is read by asking it.
use crate::echo::{Echo, starting_with};
use history_model::{GridRow, Move};
use lookup_player::LookupPlayer;
use machine_player::MachinePlayer;
use match_play::{Tally, play};
use memory_player::MemoryPlayer;
use player_core::{Bench, Player, Side, tabulate};
use plug_players::{Builtin, PlugPlayer};
use std::alloc::Global;
use std::test::Fail;

#[test]
fn echoes_take_turns(rt: HostRuntime) -> Result<(), Fail> {
    let alloc = rt.alloc();
    let mut trusting: Box<dyn Player> = Box::new(alloc, starting_with(false))?;
    let mut wary: Box<dyn Player> = Box::new(alloc, starting_with(true))?;
    // The plays CD, DC, CD.
    let tally = play(&mut trusting, &mut wary, 3);
    assert_eq!(rt;
        tally,
        Tally {
            cc: 0,
            cd: 2,
            dc: 1,
            dd: 0
        }
    );
    assert_eq!(rt; trusting.save(), 1);
    assert_eq!(rt; wary.save(), 0);
    // The plays CD, DC: both begin at their starts again.
    let tally = play(&mut trusting, &mut wary, 2);
    assert_eq!(rt;
        tally,
        Tally {
            cc: 0,
            cd: 1,
            dc: 1,
            dd: 0
        }
    );
    assert_eq!(rt; trusting.advances(), 5);
    assert_eq!(rt; wary.resumes(), 2);
    Ok(())
}

fn are_at_start(players: &Side) -> bool {
    players.iter().all(|player| player.save() == player.start())
}

// Whether a bench fits whose second plugs are these echoes, and whether each mark is at its start
// after that test.
fn fits_with(alloc: Global, left_echo: Echo, right_echo: Echo) -> Result<(bool, bool), Fail> {
    let mut left: Side = Vec::new(alloc);
    let mut right: Side = Vec::new(alloc);
    left.push(Box::new(alloc, MemoryPlayer::new(alloc)?)?)?;
    right.push(Box::new(alloc, MemoryPlayer::new(alloc)?)?)?;
    left.push(Box::new(alloc, MachinePlayer::new(alloc)?)?)?;
    right.push(Box::new(alloc, MachinePlayer::new(alloc)?)?)?;
    left.push(Box::new(alloc, LookupPlayer::new(alloc)?)?)?;
    right.push(Box::new(alloc, LookupPlayer::new(alloc)?)?)?;
    let mut alternator = PlugPlayer::new(Builtin::Alternator);
    alternator.advance(Move::C, Move::C);
    left.push(Box::new(alloc, alternator)?)?;
    right.push(Box::new(alloc, PlugPlayer::new(Builtin::Alternator))?)?;
    left.push(Box::new(alloc, left_echo)?)?;
    right.push(Box::new(alloc, right_echo)?)?;
    let mut bench = Bench { left, right };
    let fits = bench.fits();
    Ok((
        fits,
        are_at_start(&bench.left) && are_at_start(&bench.right),
    ))
}

#[test]
fn plugs_that_start_apart_do_not_fit(rt: HostRuntime) -> Result<(), Fail> {
    assert_eq!(rt;
        fits_with(rt.alloc(), starting_with(false), starting_with(true))?,
        (false, true)
    );
    assert_eq!(rt;
        fits_with(rt.alloc(), starting_with(true), starting_with(false))?,
        (false, true)
    );
    assert_eq!(rt;
        fits_with(rt.alloc(), starting_with(false), starting_with(false))?,
        (true, true)
    );
    Ok(())
}

#[test]
fn asking_an_echo_gives_its_rows(rt: HostRuntime) -> Result<(), Fail> {
    let mut player: Box<dyn Player> = Box::new(rt.alloc(), starting_with(true))?;
    let grid = tabulate(rt.alloc(), &mut player)?;
    let cooperates = GridRow {
        weight: 1,
        next: [0, 1, 0, 1],
    };
    let defects = GridRow {
        weight: 0,
        ..cooperates
    };
    assert_eq!(rt; grid.rows.as_slice(), [cooperates, defects].as_slice());
    assert_eq!(rt; (grid.den, grid.start), (1, 1));
    // One advance for each row and play.
    assert_eq!(rt; player.advances(), 8);
    assert_eq!(rt; player.save(), 1);
    Ok(())
}
