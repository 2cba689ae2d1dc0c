//! The text of a report, piece by piece.
ghost use Rattle.std.specs.Prelude.{◌≡◌, ◌↔◌, ◌≤◌, [], false, vec_len, take, drop, IfOk, OnOk, OnErr};
ghost use Rattle.lab_report.specs.OneWay.{valid_prop};
ghost use Rattle.report_rules.specs.Text.{report_text};
ghost use Rattle.report_rules.specs.Valid.{IsValid};

use crate::lines::line_at;
use crate::writing::add_line;
use history_model::NoMemory;
use report_rules::Report;
use std::alloc::Global;

// The most bytes of a piece.
const MOST: usize = 4096;

/// The text of a report, which is given out in pieces from its front. Holds no more of it than a piece and
/// a line. Contracts see the bytes that are still to come.
#[derive(Drop)]
pub struct Pieces<'a> {
    report: &'a Report,
    alloc: Global,
    // What of the lines before the place `next` was not given out.
    ready: Vec<u8>,
    next: usize,
    ghost valid: { IsValid report.now } by { valid_prop report.now },
}

// Takes bytes away from the front.
fn cut_front(bytes: &mut Vec<u8>, count: usize)
    requires { count ≤ vec_len bytes.old }
    ensures { bytes.new.items ≡ drop count bytes.old.items }
{
    bytes.drain(..count);
}

impl<'a> Pieces<'a> {
    ghost use Rattle.lab_report.specs.Pieces.{IsFrontReady, to_come};

    /// The pieces of a report, all of which are still to come. Takes no memory.
    pub fn new(alloc: Global, report: &'a Report) -> Pieces<'a>
        requires valid { IsValid report.now }
        ensures { to_come result ≡ report_text report.now }
    {
        Pieces {
            report,
            alloc,
            ready: Vec::new(alloc),
            next: 0,
        }
    }

    // Writes lines until they fill a piece, or none is left.
    fn make_ready(&mut self) -> Result<(), NoMemory>
        ensures ready { OnOk result (IsFrontReady self.new) }
        ensures stays { to_come self.new ≡ to_come self.old }
    {
        let mut text = String::new(self.alloc);
        while self.ready.len() < MOST {
            let Some(line) = line_at(self.report, self.next) else {
                return Ok(());
            };
            text.clear();
            add_line(&mut text, &line)?;
            self.ready.extend_from_slice(text.as_bytes())?;
            self.next += 1;
        }
        Ok(())
    }

    /// Puts the next piece in place of what `piece` held: the first 4096 bytes to come, or all of them
    /// where there are fewer, which are then no longer to come. Tells whether there were any.
    ///
    /// # Errors
    ///
    /// `NoMemory` alone. Then `piece` is empty, and what is to come stays.
    pub fn fill(&mut self, piece: &mut Vec<u8>) -> Result<bool, NoMemory>
        ensures front { OnOk result (piece.new.items ≡ take 4096 (to_come self.old)) }
        ensures rest { OnOk result (to_come self.new ≡ drop 4096 (to_come self.old)) }
        ensures none { IfOk result (λ some. (some ≡ false) ↔ (to_come self.old ≡ [])) }
        ensures empty { OnErr result (piece.new.items ≡ []) }
        ensures stays { OnErr result (to_come self.new ≡ to_come self.old) }
    {
        piece.clear();
        self.make_ready()?;
        let count = self.ready.len().min(MOST);
        piece.extend_from_slice(&self.ready[..count])?;
        cut_front(&mut self.ready, count);
        Ok(count > 0)
    }
}
