//! Draws from a number.
ghost use Rattle.std.specs.Prelude.{◌≡◌, ◌≤◌, ◌<◌};
ghost use Rattle.drill.specs.Drill.{step, move_drawn, state_drawn};

// A linear congruential generator with the constants of Knuth's MMIX (D. E. Knuth, The Art of Computer
// Programming, vol. 2).
const MULTIPLIER: u64 = 6364136223846793005;

const INCREMENT: u64 = 1442695040888963407;

// The least draw whose top bit is 1.
const TOP_BIT: u64 = 0x8000_0000_0000_0000;

// A state is the draw divided by this.
const STATE_UNIT: u64 = 0x1000_0000_0000_0000;

/// What has been drawn from a number so far, as the last draw; before the first it is the number.
#[derive(Drop)]
pub struct Draws {
    pub state: u64,
}

impl Draws {
    /// Draws 64 bits.
    pub fn draw(&mut self) -> u64
        ensures drawn { result ≡ step self.old.state }
        ensures moved { self.new.state ≡ step self.old.state }
    {
        self.state = self.state.wrapping_mul(MULTIPLIER).wrapping_add(INCREMENT);
        self.state
    }

    /// Draws a move, as its weight of C: 1 for C where the draw's top bit is 0, else 0 for D.
    pub fn draw_move(&mut self) -> u32
        ensures drawn { result ≡ move_drawn (step self.old.state) }
        ensures moved { self.new.state ≡ step self.old.state }
    {
        if self.draw() < TOP_BIT { 1 } else { 0 }
    }

    /// Draws a state of a machine, from 0 to 15.
    pub fn draw_state(&mut self) -> u32
        ensures drawn { result ≡ state_drawn (step self.old.state) }
        ensures moved { self.new.state ≡ step self.old.state }
    {
        (self.draw() / STATE_UNIT) as u32
    }
}
