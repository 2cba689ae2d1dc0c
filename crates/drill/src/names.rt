//! The names of the machines of a drill.
ghost use Rattle.std.specs.Prelude.{◌≡◌, ◌<◌};
ghost use Rattle.drill.specs.Drill.{drill_name};

use history_model::Name;

/// The name of the machine at a place: `d` and two digits, from `d00` to `d63`.
pub fn drill_name(place: u32) -> Name
    requires { place < 64 }
    ensures { result ≡ drill_name place }
{
    let tens = (place / 10) as u8;
    let units = (place % 10) as u8;
    match Name::read(&[b'd', b'0' + tens, b'0' + units]) {
        Some(name) => name,
        None => unreachable!(),
    }
}
