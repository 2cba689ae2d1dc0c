//! Marks of the pairs of rows that a match has met.
ghost use Rattle.std.specs.Prelude.{◌≡◌, ◌≤◌, ◌<◌, ◌+◌, ◌^◌, IfOk, OnErr, OnOk, length, max};

use history_model::{NoMemory, Tally};
use std::alloc::Global;
use std::marker::Model;

/// Where a match stood when it met a pair of rows: the number of the turn, counted from 1, and how
/// often CC, CD and DC had come before it. All other plays before it were DD, so they aren't held.
/// Turn 0 is no mark.
#[derive(Clone, Copy)]
pub(crate) struct Mark {
    pub(crate) turn: u32,
    cc: u32,
    cd: u32,
    dc: u32,
}

pub(crate) const NO_MARK: Mark = Mark {
    turn: 0,
    cc: 0,
    cd: 0,
    dc: 0,
};

impl Mark {
    ghost use Rattle.history_model.specs.Tally.{total};
    ghost use Rattle.match_play.specs.Trail.{IsSince, since};

    // The mark of a turn, counted from 0, before which these plays came.
    pub(crate) fn new(turn: u64, tally: Tally) -> Mark
        requires turn { turn < 2 ^ 20 }
        requires total { total tally ≤ turn }
        ensures turn { result.turn ≡ turn + 1 }
        ensures cc { result.cc ≡ tally.cc }
        ensures cd { result.cd ≡ tally.cd }
        ensures dc { result.dc ≡ tally.dc }
    {
        Mark {
            turn: turn as u32 + 1,
            cc: tally.cc as u32,
            cd: tally.cd as u32,
            dc: tally.dc as u32,
        }
    }

    // The plays since the mark was made, which are so many.
    pub(crate) fn since(&self, tally: Tally, long: u64) -> Tally
        requires { IsSince self.now tally long }
        ensures { result ≡ since self.now tally long }
    {
        let cc = tally.cc - self.cc as u64;
        let cd = tally.cd - self.cd as u64;
        let dc = tally.dc - self.dc as u64;
        Tally {
            cc,
            cd,
            dc,
            dd: long - (cc + cd + dc),
        }
    }
}

/// Room for a mark of each pair of rows of two players, so that a long match finds its cycle without
/// taking memory. One trail serves any number of matches. Contracts see it as its room, the number of
/// pairs.
#[derive(Drop)]
pub struct Trail {
    pub(crate) marks: Vec<Mark>,
}

impl Model for Trail {
    ghost use Rattle.std.specs.Prelude.{ℕ, length};

    ghost Value = { ℕ };

    ghost view = { λ t. length t.marks.items };
}

impl Trail {
    /// Room for so many pairs of rows, 16 bytes each.
    ///
    /// # Errors
    ///
    /// `NoMemory` where the marks find no memory.
    pub fn new(alloc: Global, pairs: u32) -> Result<Trail, NoMemory>
        ensures { IfOk result (λ trail. trail ≡ pairs) }
    {
        Ok(Trail {
            marks: vec![in alloc; NO_MARK; pairs as usize]?,
        })
    }

    /// Makes room for at least so many pairs of rows. More room that is there stays.
    ///
    /// # Errors
    ///
    /// `NoMemory` where the marks find no memory. The room is then as before.
    pub fn make_room(&mut self, pairs: u32) -> Result<(), NoMemory>
        ensures room { OnOk result (self.new ≡ max self.old pairs) }
        ensures kept { OnErr result (self.new ≡ self.old) }
    {
        if self.marks.len() < pairs as usize {
            self.marks.resize(pairs as usize, NO_MARK)?;
        }
        Ok(())
    }
}
