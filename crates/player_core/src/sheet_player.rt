//! Players that take sheets. Each holds its rows in a table with room for every automaton.
ghost use Rattle.std.specs.Prelude.{◌≡◌, ◌≤◌, IfOk, length};
ghost use Rattle.history_model.specs.Automaton.{plain_row, row_at};
ghost use Rattle.player_core.specs.Holder.{without_sheet};
ghost use Rattle.player_core.specs.State.{IsState};

use crate::laws::rows_are_held;
use crate::{Kind, Player, Sheet, no_name};
use history_model::{GridRow, Move, Name, NoMemory};
use std::alloc::Global;
use std::marker::{Model, PhantomData};

/// Room for the rows of every automaton.
pub const ROOM: usize = 512;

/// Which part of a table is an automaton: so many of its first rows, over a denominator, from a start.
#[derive(Clone, Copy)]
pub struct Front {
    pub den: u32,
    pub start: u32,
    pub rows: u32,
}

/// A kind of sheets, and how they are written as rows.
pub trait SheetRows: Drop {
    ghost use Rattle.std.specs.Prelude.{◌≡◌, ◌≤◌, length};
    ghost use Rattle.history_model.specs.Automaton.{Automaton, IsAutomaton};
    ghost use Rattle.player_core.specs.declared.kind.Kind.{Kind};
    ghost use Rattle.player_core.specs.AutomatonOf.{automaton_of};
    ghost use Rattle.player_core.specs.Holder.{automaton_in};

    ghost kind: { Kind };

    /// The kind.
    fn kind() -> Kind
        ensures { result ≡ kind };

    /// Writes the rows of a sheet's automaton over the first of a table, and tells where it stands.
    fn write(table: &mut Vec<GridRow>, sheet: &Sheet) -> Front
        requires kind { sheet.now.kind ≡ kind }
        requires room { length table.old.items ≡ 512 }
        ensures room { length table.new.items ≡ 512 }
        ensures within { result.rows ≤ 512 }
        ensures rows { (own : Automaton) → automaton_in result table.new.items ≡ automaton_of sheet.now own }
        ensures valid { IsAutomaton (automaton_in result table.new.items) };
}

/// A player of sheets of one kind. It makes room for its rows when it is made, so no later call takes
/// memory. Contracts see it as a player's state.
#[derive(Drop)]
pub struct SheetPlayer<R: SheetRows> {
    rows: PhantomData<R>,
    table: Vec<GridRow>,
    front: Front,
    mark: u32,
    turns: u64,
    returns: u64,
}

impl<R: SheetRows> Model for SheetPlayer<R> {
    ghost use Rattle.std.specs.Prelude.{length};
    ghost use Rattle.player_core.specs.Holder.{holder, IsHolder};
    ghost use Rattle.player_core.specs.State.{PlayerState};

    ghost Value = { PlayerState };

    ghost view = { λ p. holder R.kind p.front p.table.items p.mark p.turns p.returns };

    ghost invariant = { λ p. IsHolder (holder R.kind p.front p.table.items p.mark p.turns p.returns) (length p.table.items) p.front.rows };
}

impl<R: SheetRows> SheetPlayer<R> {
    /// A player that has taken no sheet yet, and always plays C. It was never advanced or resumed.
    /// The error is want of room for 512 rows.
    pub fn new(alloc: Global) -> Result<SheetPlayer<R>, NoMemory>
        ensures { IfOk result (λ player. player ≡ without_sheet R.kind) }
    {
        rows_are_held();
        let cooperate = GridRow {
            weight: 1,
            next: [0; 4],
        };
        Ok(SheetPlayer {
            rows: PhantomData,
            table: vec![in alloc; cooperate; ROOM]?,
            front: Front {
                den: 1,
                start: 0,
                rows: 1,
            },
            mark: 0,
            turns: 0,
            returns: 0,
        })
    }

    // The row at the mark.
    fn row(&self) -> GridRow
        ensures row { plain_row result ≡ row_at self.now.lasting.automaton self.now.mark }
        ensures valid { IsState self.now }
    {
        self.table[self.mark as usize]
    }
}

impl<R: SheetRows> Player for SheetPlayer<R> {
    ghost state = { λ p. p };

    fn kind(&self) -> Kind {
        let _mark = self.mark;
        R::kind()
    }

    fn name(&self) -> Name {
        let _mark = self.mark;
        no_name()
    }

    fn load(&mut self, sheet: &Sheet) {
        self.front = R::write(&mut self.table, sheet);
        self.mark = self.front.start;
    }

    fn rows(&self) -> u32 {
        self.front.rows
    }

    fn start(&self) -> u32 {
        self.front.start
    }

    fn den(&self) -> u32 {
        self.front.den
    }

    fn weight(&self) -> u32 {
        self.row().weight
    }

    fn advance(&mut self, mine: Move, theirs: Move) {
        self.mark = self.row().next_after(mine, theirs);
        self.turns = self.turns.saturating_add(1);
    }

    fn save(&self) -> u32 {
        self.mark
    }

    fn resume(&mut self, mark: u32) {
        self.mark = mark;
        self.returns = self.returns.saturating_add(1);
    }

    fn advances(&self) -> u64 {
        self.turns
    }

    fn resumes(&self) -> u64 {
        self.returns
    }
}
