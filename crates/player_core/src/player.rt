//! Players behind one interface.
ghost use Rattle.std.specs.Prelude.{◌≡◌, ◌<◌, ◌↔◌, IsTrue, length};

use crate::names::same_name;
use crate::{Kind, Sheet};
use history_model::{Move, Name};

/// A player that plays an automaton: rows with a weight of C each, over `den`, and the next row after
/// each play. It stands at one of the rows, its mark. Contracts see it as its state: what lasts (its
/// kind, its name and its automaton), its mark, and how often it was advanced and resumed. A count
/// that has come to u64's last value stays there.
pub trait Player: Drop {
    ghost use Rattle.history_model.specs.Automaton.{weight_at};
    ghost use Rattle.player_core.specs.State.{PlayerState, IsState, advanced, resumed};
    ghost use Rattle.player_core.specs.Sheet.{Takes};
    ghost use Rattle.player_core.specs.AutomatonOf.{loaded};

    ghost state: { Self → PlayerState };

    /// The kind, which never changes.
    fn kind(&self) -> Kind
        ensures { result ≡ (state self.now).lasting.kind };

    /// The name, which never changes: that of a plug, and `-` of any other kind.
    fn name(&self) -> Name
        ensures { result ≡ (state self.now).lasting.name };

    /// Whether the player takes a sheet: the kinds are equal, and for a plug the names are.
    fn takes(&self, sheet: &Sheet) -> bool
        ensures { IsTrue result ↔ Takes (state self.now).lasting sheet.now }
    {
        self.kind() == sheet.kind
            && (sheet.kind != Kind::Plug || same_name(self.name(), sheet.plug))
    }

    /// Takes a sheet: the automaton becomes the sheet's, where a plug keeps its own, and the mark
    /// becomes the start. The counts stay.
    fn load(&mut self, sheet: &Sheet)
        requires { Takes (state self.old).lasting sheet.now }
        ensures { state self.new ≡ loaded (state self.old) sheet.now };

    /// The number of rows, from 1 to 512.
    fn rows(&self) -> u32
        ensures value { result ≡ length (state self.now).lasting.automaton.rows }
        ensures valid { IsState (state self.now) };

    /// The row at which the automaton begins.
    fn start(&self) -> u32
        ensures value { result ≡ (state self.now).lasting.automaton.start }
        ensures valid { IsState (state self.now) };

    /// The denominator of the weights, from 1 to 1000.
    fn den(&self) -> u32
        ensures value { result ≡ (state self.now).lasting.automaton.den }
        ensures valid { IsState (state self.now) };

    /// The weight of C at the mark, at most `den`.
    fn weight(&self) -> u32
        ensures value { result ≡ weight_at (state self.now).lasting.automaton (state self.now).mark }
        ensures valid { IsState (state self.now) };

    /// Moves the mark to the next row after a play, and counts the turn. Nothing else changes.
    fn advance(&mut self, mine: Move, theirs: Move)
        ensures { state self.new ≡ advanced (state self.old) mine theirs };

    /// The mark.
    fn save(&self) -> u32
        ensures value { result ≡ (state self.now).mark }
        ensures valid { IsState (state self.now) };

    /// Sets the mark, and counts the return. Nothing else changes.
    fn resume(&mut self, mark: u32)
        requires { mark < length (state self.old).lasting.automaton.rows }
        ensures { state self.new ≡ resumed (state self.old) mark };

    /// How often the player was advanced.
    fn advances(&self) -> u64
        ensures { result ≡ (state self.now).turns };

    /// How often the player was resumed.
    fn resumes(&self) -> u64
        ensures { result ≡ (state self.now).returns };
}

/// The players of one side of a bench.
pub type Side = Vec<Box<dyn Player>>;

/// The players of one side as contracts see them: the list of their states, in order of place. A
/// clause names it by `⟦<Side as Seats>⟧.seats bench.now.left`, in this crate and above it.
pub trait Seats {
    ghost use Rattle.std.specs.Prelude.{List};
    ghost use Rattle.player_core.specs.State.{PlayerState};

    ghost seats: { Self → List PlayerState };
}

impl Seats for Side {
    ghost use Rattle.std.specs.Prelude.{map};

    ghost seats = { λ v. map (λ p. (Player-box p).state p.value) v.items };
}
