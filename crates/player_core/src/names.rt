//! Names of players.
ghost use Rattle.std.specs.Prelude.{◌≡◌, ◌↔◌, IsTrue};
ghost use Rattle.player_core.specs.State.{no_name};

use history_model::Name;

/// The name `-`, which every player has that is no plug, and every sheet that names none.
pub fn no_name() -> Name
    ensures { result ≡ no_name }
{
    match Name::read(b"-") {
        Some(name) => name,
        None => unreachable!(),
    }
}

/// Whether two names are equal.
pub fn same_name(one: Name, other: Name) -> bool
    ensures { IsTrue result ↔ one ≡ other }
{
    one.bytes() == other.bytes()
}
