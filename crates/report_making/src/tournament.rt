//! Makes the reports of tournaments.
ghost use Rattle.std.specs.Prelude.{◌≡◌, ◌≢◌, ◌+◌, ◌*◌, ◌-◌, ◌^◌, ◌<◌, ◌≤◌, [], All, length, map, IfOk};
ghost use Rattle.std.specs.List.{AllPairs};
ghost use Rattle.history_model.specs.Name.{IsName};
ghost use Rattle.history_model.specs.Noise.{IsFlipRate};
ghost use Rattle.report_names.specs.Names.{place_in, with_names};
ghost use Rattle.report_rules.specs.Valid.{IsHead, IsValid, match_names};
ghost use Rattle.report_making.specs.Made.{AreResults, ShowsNames, moved_match, moved_matches, names_in_order, noise_of, noises_in_order, places_in, tournament_report_of};

use history_model::{Name, NoMemory, Noise};
use report_rules::{Body, Head, Names, Noises, Places, Report, names_grow, place_in};
use result_lines::{EntryLine, EntryLines, MatchLine, MatchLines, Totals};
use std::alloc::Global;

// The names that matches show, each where it first comes.
#[tactic(auto, using(crate::proofs::Gathering::one_longer))]
fn names_of_matches(alloc: Global, names: &[Name], matches: &[MatchLine]) -> Result<Names, NoMemory>
    requires few { length matches.now ≤ 2080 }
    requires left { All (λ line. line.left < length names.now) matches.now }
    requires right { All (λ line. line.right < length names.now) matches.now }
    ensures order { IfOk result (λ order. order ≡ with_names [] (match_names names.now matches.now)) }
    ensures few { IfOk result (λ order. length order ≤ 2 * length matches.now) }
{
    let mut order = Names::new(alloc);
    for line in matches {
        order.place(&names[line.left as usize])?;
        order.place(&names[line.right as usize])?;
    }
    Ok(order)
}

// The names of all entries, first those of the matches.
#[tactic(auto, using(crate::proofs::Gathering::names_then, crate::proofs::Gathering::one_longer))]
fn names_in_order(alloc: Global, names: &[Name], matches: &[MatchLine]) -> Result<Names, NoMemory>
    requires few_names { length names.now ≤ 64 }
    requires few { length matches.now ≤ 2080 }
    requires left { All (λ line. line.left < length names.now) matches.now }
    requires right { All (λ line. line.right < length names.now) matches.now }
    ensures order { IfOk result (λ order. order ≡ names_in_order names.now matches.now) }
    ensures few { IfOk result (λ order. length order ≤ 2 * length matches.now + length names.now) }
    ensures are_names { IfOk result (λ _. All IsName names.now) }
{
    let mut order = names_of_matches(alloc, names, matches)?;
    for name in names {
        // It is a name by its type.
        let _bytes = name.len();
        order.place(name)?;
    }
    Ok(order)
}

fn moved_match(names: &[Name], order: &Names, line: &MatchLine) -> MatchLine
    requires few { length order.now < 2 ^ 32 - 1 }
    requires left { line.now.left < length names.now }
    requires right { line.now.right < length names.now }
    ensures { result ≡ moved_match names.now order.now line.now }
{
    MatchLine {
        left: place_in(order.as_slice(), &names[line.left as usize]),
        right: place_in(order.as_slice(), &names[line.right as usize]),
        turns: line.turns,
        left_score: line.left_score,
        right_score: line.right_score,
        tally: line.tally,
    }
}

fn moved_matches(
    alloc: Global,
    names: &[Name],
    order: &Names,
    matches: &[MatchLine],
) -> Result<MatchLines, NoMemory>
    requires few { length order.now < 2 ^ 32 - 1 }
    requires left { All (λ line. line.left < length names.now) matches.now }
    requires right { All (λ line. line.right < length names.now) matches.now }
    ensures { IfOk result (λ moved. moved ≡ moved_matches names.now order.now matches.now) }
{
    let mut moved = Vec::new(alloc);
    for line in matches {
        moved.push(moved_match(names, order, line))?;
    }
    Ok(MatchLines::from_vec(moved))
}

// The place of each entry.
fn places_in(alloc: Global, order: &Names, names: &[Name]) -> Result<Places, NoMemory>
    requires few { length order.now < 2 ^ 32 - 1 }
    ensures { IfOk result (λ places. places ≡ places_in order.now names.now) }
{
    let mut places = Vec::new(alloc);
    for name in names {
        places.push(place_in(order.as_slice(), name))?;
    }
    Ok(Places::from_vec(places))
}

fn copied(alloc: Global, entries: &EntryLines) -> Result<EntryLines, NoMemory>
    ensures { IfOk result (λ copy. copy ≡ entries.now) }
{
    let items = Vec::from_slice(alloc, entries.as_slice())?;
    Ok(EntryLines::from_vec(items))
}

fn noise_of(names: &[Name], noises: &[Noise], name: &Name) -> Noise
    requires few { length names.now ≤ 64 }
    requires inside { place_in names.now name.now < length noises.now }
    ensures noise { result ≡ noise_of names.now noises.now name.now }
    ensures rate { IsFlipRate result }
{
    let noise = noises[place_in(names, name) as usize];
    // It is in range by its type.
    let _denominator = noise.denominator();
    noise
}

// The noise of each name in the order in which the report shows them.
fn moved_noises(
    alloc: Global,
    names: &[Name],
    noises: &[Noise],
    order: &Names,
) -> Result<Noises, NoMemory>
    requires few { length names.now ≤ 64 }
    requires inside { All (λ name. place_in names.now name < length noises.now) order.now }
    ensures noises { IfOk result (λ moved. moved ≡ map (noise_of names.now noises.now) order.now) }
    ensures are_noises { IfOk result (λ moved. All IsFlipRate moved) }
{
    let mut moved = Vec::new(alloc);
    for name in order.as_slice() {
        moved.push(noise_of(names, noises, name))?;
    }
    Ok(Noises::from_vec(moved))
}

// The same in version 2, and none in version 1.
fn noises_in_order(
    alloc: Global,
    version: u32,
    names: &[Name],
    noises: &[Noise],
    order: &Names,
) -> Result<Noises, NoMemory>
    requires few { length names.now ≤ 64 }
    requires inside { All (λ name. place_in names.now name < length noises.now) order.now }
    ensures noises { IfOk result (λ moved. moved ≡ noises_in_order version names.now noises.now order.now) }
    ensures are_noises { IfOk result (λ moved. All IsFlipRate moved) }
{
    if version == 1 {
        return Ok(Noises::from_vec(Vec::new(alloc)));
    }
    moved_noises(alloc, names, noises, order)
}

/// The report of a tournament of 1 to 64 entries of these names, which differ, and of these noises:
/// what `totals` says, whose places are those of the entries in `names`. In the report entries are
/// places in its own names, which stand in the order in which the text first shows them. In version 2
/// it shows the noise of each name.
///
/// # Errors
///
/// `NoMemory` alone.
pub fn tournament_report(
    alloc: Global,
    head: &Head,
    names: &[Name],
    noises: &[Noise],
    totals: &Totals,
) -> Result<Report, NoMemory>
    requires head { IsHead head.now }
    requires some_names { 1 ≤ length names.now }
    requires few_names { length names.now ≤ 64 }
    requires different { AllPairs (λ a b. a ≢ b) names.now }
    requires as_many { length noises.now ≡ length names.now }
    requires results { AreResults (length names.now) head.now totals.now }
    ensures report { IfOk result (λ report. report ≡ tournament_report_of head.now names.now noises.now totals.now) }
    ensures valid { IfOk result IsValid }
    ensures shows { IfOk result (λ _. ShowsNames names.now totals.now) }
{
    names_grow();
    // The parts are in range by their types.
    let _ranges = (head.game.unsigned(), head.noise.denominator());
    let matches = totals.matches.as_slice();
    let order = names_in_order(alloc, names, matches)?;
    let own = noises_in_order(alloc, head.version, names, noises, &order)?;
    let moved = moved_matches(alloc, names, &order, matches)?;
    let who = places_in(alloc, &order, names)?;
    let entries = copied(alloc, &totals.entries)?;
    Ok(Report {
        version: head.version,
        offset: head.offset,
        game: head.game,
        noise: head.noise,
        noises: own,
        names: order,
        body: Body::Tournament {
            matches: moved,
            who,
            entries,
        },
    })
}
