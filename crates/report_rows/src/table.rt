//! The lines of a tournament so far, for the small reader.
use crate::reader::{Ends, Lab, Owners, Played, is_name, match_of, score, whole, winner};
use std::alloc::Global;
use std::test::Fail;

/// The most points of a total.
pub(crate) const MOST_TOTAL: u128 = 10_000_000_000_000_000_000_000_000;

// The greatest count.
const MOST_COUNT: u128 = 4_294_967_295;

// What the line of an entry tells.
#[derive(Clone, Copy, Drop)]
struct Told<'a> {
    name: &'a str,
    total: Ends,
    // `None` where it is undecided.
    rank: Option<u128>,
}

fn rank(text: &str) -> Option<Option<u128>> {
    if text == "undecided" {
        return Some(None);
    }
    Some(Some(whole(text, MOST_COUNT)?))
}

// What a match adds to the total of an entry.
fn own_score(found: &Played, name: &str) -> Ends {
    if found.left == name {
        found.left_score
    } else if found.right == name {
        found.right_score
    } else {
        (0, 0)
    }
}

fn total_of(matches: &[Played], name: &str) -> Option<Ends> {
    let mut total: Ends = (0, 0);
    for found in matches {
        let own = own_score(found, name);
        total = (total.0.checked_add(own.0)?, total.1.checked_add(own.1)?);
    }
    Some(total)
}

// Whether an entry won the match against another one.
fn wins(found: &Played, name: &str) -> bool {
    let word = winner(found.left_score, found.right_score);
    found.left != found.right
        && (found.left == name && word == "left" || found.right == name && word == "right")
}

// Whether the match of an entry with another one is undecided.
fn is_open(found: &Played, name: &str) -> bool {
    let word = winner(found.left_score, found.right_score);
    found.left != found.right && (found.left == name || found.right == name) && word == "undecided"
}

// What the line of an entry tells, where its counts and its total follow from the matches.
fn entry_of<'a>(lab: &Lab, matches: &[Played], fields: &[&'a str]) -> Option<Told<'a>> {
    let [head, name, total, rank_word, won, open] = fields else {
        return None;
    };
    let name: &'a str = *name;
    let found = Told {
        name,
        total: score(*total, MOST_TOTAL, lab.version)?,
        rank: rank(*rank_word)?,
    };
    let won = whole(*won, MOST_COUNT)?;
    let open = whole(*open, MOST_COUNT)?;
    let is_won = won == matches.iter().filter(|found| wins(found, name)).count() as u128;
    let is_left = open == matches.iter().filter(|found| is_open(found, name)).count() as u128;
    let is_right = *head == "entry" && is_name(name) && total_of(matches, name)? == found.total;
    if is_right && is_won && is_left {
        Some(found)
    } else {
        None
    }
}

// The rank by the totals of all.
fn rank_of(entries: &[Told], own: &Told) -> Option<u128> {
    let is_undecided = entries.iter().any(|other| other.name != own.name
        && winner(other.total, own.total) == "undecided");
    if is_undecided {
        return None;
    }
    let greater = entries
        .iter()
        .filter(|other| winner(other.total, own.total) == "left")
        .count();
    Some(greater as u128 + 1)
}

/// The lines of matches and of entries so far.
#[derive(Drop)]
pub(crate) struct Table<'a> {
    matches: Vec<Played<'a>>,
    entries: Vec<Told<'a>>,
}

impl<'a> Table<'a> {
    /// No lines.
    pub(crate) fn new(alloc: Global) -> Table<'a> {
        Table {
            matches: Vec::new(alloc),
            entries: Vec::new(alloc),
        }
    }

    fn has_line(&self, name: &str) -> bool {
        self.entries.iter().any(|entry| entry.name == name)
    }

    /// Whether a line may stand behind the others, which it then does.
    pub(crate) fn takes(
        &mut self,
        lab: &Lab,
        owners: &mut Owners,
        fields: &[&'a str],
    ) -> Result<bool, Fail> {
        if self.entries.is_empty() {
            if let Some(found) = match_of(lab, fields) {
                self.matches.push(found)?;
                return Ok(owners.show(found.left) && owners.show(found.right));
            }
        }
        let Some(found) = entry_of(lab, &self.matches, fields) else {
            return Ok(false);
        };
        if self.has_line(found.name) || !owners.show(found.name) {
            return Ok(false);
        }
        self.entries.push(found)?;
        Ok(true)
    }

    /// Whether the ranks are right, and each entry of a match has its line.
    pub(crate) fn is_whole(&self) -> bool {
        let are_told = self.matches.iter().all(|found| self.has_line(found.left)
            && self.has_line(found.right));
        let are_ranked = self
            .entries
            .iter()
            .all(|entry| entry.rank == rank_of(&self.entries, entry));
        !self.entries.is_empty() && are_told && are_ranked
    }
}
