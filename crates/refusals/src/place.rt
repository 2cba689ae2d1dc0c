//! The keys of the lab file, by which refusals say where something is wrong.
ghost use Rattle.std.specs.Prelude.{◌≡◌};

/// A table of the lab file.
#[derive(Clone, Copy, Debug, PartialEq, Eq)]
pub enum TableName {
    /// The file itself: the keys that stand outside all tables, and the tables' own words.
    Top,
    /// The payoffs.
    Game,
    /// How often moves are flipped.
    Noise,
    /// One entry of the array of entries.
    Entry,
    /// The job of one match.
    Match,
    /// The job of a round robin.
    Tournament,
    /// The job of matches that are played in slices.
    Rota,
    /// The job of a board of neighbours.
    Board,
    /// The job of a Moran process.
    Moran,
    /// The job of a best response over a number of turns.
    Best,
    /// The job of a best response in the long run.
    Mean,
    /// The job of a certificate.
    Certificate,
    /// The job of a relation that a vector enforces.
    Relation,
    /// The job of a match that ends by chance.
    Ending,
    /// The job of a verdict on an equilibrium.
    Stable,
}

impl TableName {
    ghost use Rattle.refusals.specs.TableWord.{table_word};

    /// The table's word in the lab file; `top` for the file itself.
    pub fn word(&self) -> &'static str
        ensures { result.now ≡ table_word self.now }
    {
        match self {
            TableName::Top => "top",
            TableName::Game => "game",
            TableName::Noise => "noise",
            TableName::Entry => "entry",
            TableName::Match => "match",
            TableName::Tournament => "tournament",
            TableName::Rota => "rota",
            TableName::Board => "board",
            TableName::Moran => "moran",
            TableName::Best => "best",
            TableName::Mean => "mean",
            TableName::Certificate => "certificate",
            TableName::Relation => "relation",
            TableName::Ending => "ending",
            TableName::Stable => "stable",
        }
    }
}

/// A key of the lab file. A word that several tables share has one variant, and a table that is
/// itself the value of a key has its own word as that key.
#[derive(Clone, Copy, Debug, PartialEq, Eq)]
pub enum KeyName {
    /// `version`: the form of the file.
    Version,
    /// `game`: the table of the payoffs.
    Game,
    /// `noise`: the table of the noise.
    Noise,
    /// `entry`: the array of the entries, or the name of the entry that a job is about.
    Entry,
    /// `r`: the payoff of each after CC.
    R,
    /// `s`: the payoff of who played C against D.
    S,
    /// `t`: the payoff of who played D against C.
    T,
    /// `p`: the payoff of each after DD.
    P,
    /// `e`: the denominator of the chance that a move is flipped.
    E,
    /// `n`: the numerator of the chance that a move is flipped.
    N,
    /// `name`: what an entry is called.
    Name,
    /// `kind`: which kind of strategy an entry is.
    Kind,
    /// `den`: the denominator of an entry's weights.
    Den,
    /// `opening`: the weights of the first moves, or the first move.
    Opening,
    /// `weights`: the weights of C after CC, CD, DC and DD.
    Weights,
    /// `start`: the state in which a machine begins, or how many of a population are of the first
    /// type at the start.
    Start,
    /// `rows`: the rows of a machine or of a board.
    Rows,
    /// `file`: the file that has a machine's rows.
    File,
    /// `own`: how many own last moves a table looks at.
    Own,
    /// `other`: how many last moves of the other a table looks at.
    Other,
    /// `first`: how many first moves of the other a table looks at, or the first type of a
    /// population.
    First,
    /// `table`: the weights of a lookup table.
    Table,
    /// `plug`: the name of a built-in strategy.
    Plug,
    /// `left`: the entry on the left of a match.
    Left,
    /// `right`: the entry on the right of a match.
    Right,
    /// `turns`: how many turns each match has.
    Turns,
    /// `self_play`: whether entries meet themselves.
    SelfPlay,
    /// `edges`: the pairs that meet in a tournament.
    Edges,
    /// `pairs`: the pairs of a rota.
    Pairs,
    /// `slices`: which pair of a rota goes on, and for how many turns.
    Slices,
    /// `neighbours`: how many neighbours a cell of a board has.
    Neighbours,
    /// `generations`: how many generations a board runs for.
    Generations,
    /// `second`: the second type of a population.
    Second,
    /// `population`: how many individuals a population has.
    Population,
    /// `wd`: the denominator of the intensity of selection.
    Wd,
    /// `wn`: the numerator of the intensity of selection.
    Wn,
    /// `of`: which job a certificate is for.
    Of,
    /// `match`: the table of that job.
    Match,
    /// `tournament`: the table of that job.
    Tournament,
    /// `rota`: the table of that job.
    Rota,
    /// `board`: the table of that job.
    Board,
    /// `moran`: the table of that job.
    Moran,
    /// `best`: the table of that job.
    Best,
    /// `mean`: the table of that job.
    Mean,
    /// `certificate`: the table of that job.
    Certificate,
    /// `relation`: the table of that job.
    Relation,
    /// `ending`: the table of that job.
    Ending,
    /// `stable`: the table of that job.
    Stable,
    /// `l`: the denominator of the chance that a match ends after a turn.
    L,
    /// `k`: the numerator of that chance.
    K,
}

impl KeyName {
    ghost use Rattle.refusals.specs.KeyWord.{key_word};

    /// The key as the lab file spells it.
    pub fn word(&self) -> &'static str
        ensures { result.now ≡ key_word self.now }
    {
        match self {
            KeyName::Version => "version",
            KeyName::Game => "game",
            KeyName::Noise => "noise",
            KeyName::Entry => "entry",
            KeyName::R => "r",
            KeyName::S => "s",
            KeyName::T => "t",
            KeyName::P => "p",
            KeyName::E => "e",
            KeyName::N => "n",
            KeyName::Name => "name",
            KeyName::Kind => "kind",
            KeyName::Den => "den",
            KeyName::Opening => "opening",
            KeyName::Weights => "weights",
            KeyName::Start => "start",
            KeyName::Rows => "rows",
            KeyName::File => "file",
            KeyName::Own => "own",
            KeyName::Other => "other",
            KeyName::First => "first",
            KeyName::Table => "table",
            KeyName::Plug => "plug",
            KeyName::Left => "left",
            KeyName::Right => "right",
            KeyName::Turns => "turns",
            KeyName::SelfPlay => "self_play",
            KeyName::Edges => "edges",
            KeyName::Pairs => "pairs",
            KeyName::Slices => "slices",
            KeyName::Neighbours => "neighbours",
            KeyName::Generations => "generations",
            KeyName::Second => "second",
            KeyName::Population => "population",
            KeyName::Wd => "wd",
            KeyName::Wn => "wn",
            KeyName::Of => "of",
            KeyName::Match => "match",
            KeyName::Tournament => "tournament",
            KeyName::Rota => "rota",
            KeyName::Board => "board",
            KeyName::Moran => "moran",
            KeyName::Best => "best",
            KeyName::Mean => "mean",
            KeyName::Certificate => "certificate",
            KeyName::Relation => "relation",
            KeyName::Ending => "ending",
            KeyName::Stable => "stable",
            KeyName::L => "l",
            KeyName::K => "k",
        }
    }
}

/// The place of a key in the lab file.
#[derive(Clone, Copy, Debug, PartialEq, Eq)]
pub struct Place {
    /// The table that the key stands in.
    pub table: TableName,
    /// The entry's number, counted from 1 in the order of the file; 0 outside entries.
    pub entry: u32,
    /// The key.
    pub key: KeyName,
}
