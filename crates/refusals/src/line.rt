//! The line that tells a refusal.
ghost use Rattle.std.specs.Prelude.{◌≡◌, ◌++◌, decimal};
ghost use Rattle.refusals.specs.Detail.{role_detail, place_detail, cause_name, row_detail, line_detail, detail_of, refusal_text};
ghost use Rattle.refusals.specs.Piece.{joined};

use crate::{FileRole, Piece, Place, Refusal, RowCause};

// A detail has at most six pieces; those that it doesn't need are empty.
const EMPTY: Piece = Piece::Text("");

fn words(text: &'static str) -> [Piece; 6]
    ensures { joined result ≡ text.now }
{
    [Piece::Text(text), EMPTY, EMPTY, EMPTY, EMPTY, EMPTY]
}

fn numbered(text: &'static str, number: u32) -> [Piece; 6]
    ensures { joined result ≡ text.now ++ decimal number }
{
    let number = Piece::Number(number);
    [Piece::Text(text), number, EMPTY, EMPTY, EMPTY, EMPTY]
}

fn role_detail(role: &FileRole) -> [Piece; 6]
    ensures { joined result ≡ role_detail role.now }
{
    match role {
        FileRole::Lab => words(" lab"),
        FileRole::Machine(entry) => numbered(" machine ", *entry),
        FileRole::Rows => words(" rows"),
        FileRole::Cert => words(" certificate"),
    }
}

fn place_detail(place: &Place) -> [Piece; 6]
    ensures { joined result ≡ place_detail place.now }
{
    let table = Piece::Text(place.table.word());
    let key = Piece::Text(place.key.word());
    let space = Piece::Text(" ");
    if place.entry == 0 {
        return [space, table, space, key, EMPTY, EMPTY];
    }
    [space, table, space, Piece::Number(place.entry), space, key]
}

fn cause_name(cause: &RowCause) -> &'static str
    ensures { result.now ≡ cause_name cause.now }
{
    match cause {
        RowCause::BadLine => "BadLine",
        RowCause::WrongPair => "WrongPair",
        RowCause::BadMark => "BadMark",
    }
}

fn row_detail(entry: u32, row: u32) -> [Piece; 6]
    ensures { joined result ≡ row_detail entry row }
{
    let entry = Piece::Number(entry);
    let row = Piece::Number(row);
    [
        Piece::Text(" entry "),
        entry,
        Piece::Text(" row "),
        row,
        EMPTY,
        EMPTY,
    ]
}

fn line_detail(line: u32, cause: &RowCause) -> [Piece; 6]
    ensures { joined result ≡ line_detail line cause.now }
{
    let line = Piece::Number(line);
    let cause = Piece::Text(cause_name(cause));
    [
        Piece::Text(" line "),
        line,
        Piece::Text(" "),
        cause,
        EMPTY,
        EMPTY,
    ]
}

fn detail_of(refusal: &Refusal) -> [Piece; 6]
    ensures { joined result ≡ detail_of refusal.now }
{
    match refusal {
        Refusal::TooLong(role) => role_detail(role),
        Refusal::MissingKey(place) | Refusal::WrongType(place) => place_detail(place),
        Refusal::OutOfRange(place) | Refusal::UnknownEntry(place) => place_detail(place),
        Refusal::BadName(entry) | Refusal::DoubledName(entry) => numbered(" entry ", *entry),
        Refusal::UnknownKind(entry) | Refusal::UnknownPlug(entry) => numbered(" entry ", *entry),
        Refusal::TooManyRows(entry) | Refusal::NotSure(entry) => numbered(" entry ", *entry),
        Refusal::NotVector(entry) => numbered(" entry ", *entry),
        Refusal::BadRows(entry, row) => row_detail(*entry, *row),
        Refusal::DoubledEdge(edge) => numbered(" edge ", *edge),
        Refusal::BadCheckpoint(line, cause) => line_detail(*line, cause),
        Refusal::BadCertificate(line) => numbered(" line ", *line),
        Refusal::Syntax | Refusal::Version | Refusal::NoJob => words(""),
        Refusal::TooManyTurns | Refusal::TooMuchWork => words(""),
        Refusal::NoFitness | Refusal::BadBoard | Refusal::NotBuilt => words(""),
    }
}

/// The pieces of the whole line that tells a refusal, as `axlab: refused 6 OutOfRange game p` with the end
/// of the line: the number, the name, and where the refused thing stands.
pub fn refusal_line(refusal: &Refusal) -> [Piece; 11]
    ensures { joined result ≡ refusal_text refusal.now }
{
    let number = Piece::Number(refusal.number());
    let name = Piece::Text(refusal.name());
    let [a, b, c, d, e, f] = detail_of(refusal);
    let head = Piece::Text("axlab: refused ");
    [
        head,
        number,
        Piece::Text(" "),
        name,
        a,
        b,
        c,
        d,
        e,
        f,
        Piece::Text("\n"),
    ]
}
