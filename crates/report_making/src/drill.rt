//! Makes the reports of drills.
ghost use Rattle.std.specs.Prelude.{◌≡◌, ◌<◌, ◌≤◌, ◌-◌, ◌^◌, [], All, length, IfOk};
ghost use Rattle.history_model.specs.Name.{IsName};
ghost use Rattle.report_rules.specs.Valid.{IsFirstOf, IsTotal, IsValid, first_names};
ghost use Rattle.report_making.specs.Made.{ShowsFirst, drill_report_of, first_order, moved_first, moved_line};

use history_model::{Name, NoMemory};
use report_rules::{
    Body, Leaders, Names, Noises, Report, drill_game, names_grow, no_noise, place_in,
};
use std::alloc::Global;

// The names of machines, each where it first comes.
fn first_order(alloc: Global, names: &[Name], first: &[(u32, i128)]) -> Result<Names, NoMemory>
    requires few { length first.now ≤ 64 }
    requires inside { All (λ line. line.0 < length names.now) first.now }
    ensures order { IfOk result (λ order. order ≡ first_order names.now first.now) }
    ensures few { IfOk result (λ order. length order ≤ 64) }
    ensures are_names { IfOk result (λ _. All IsName (first_names names.now first.now)) }
{
    let mut order = Names::new(alloc);
    for line in first {
        let name = &names[line.0 as usize];
        // It is a name by its type.
        let _bytes = name.len();
        order.place(name)?;
    }
    Ok(order)
}

fn moved_line(names: &[Name], order: &Names, line: &(u32, i128)) -> (u32, i128)
    requires few { length order.now < 2 ^ 32 - 1 }
    requires inside { line.now.0 < length names.now }
    ensures { result ≡ moved_line names.now order.now line.now }
{
    let place = place_in(order.as_slice(), &names[line.0 as usize]);
    (place, line.1)
}

fn moved_first(
    alloc: Global,
    names: &[Name],
    order: &Names,
    first: &[(u32, i128)],
) -> Result<Leaders, NoMemory>
    requires few { length order.now < 2 ^ 32 - 1 }
    requires inside { All (λ line. line.0 < length names.now) first.now }
    ensures { IfOk result (λ moved. moved ≡ moved_first names.now order.now first.now) }
{
    let mut moved = Vec::new(alloc);
    for line in first {
        moved.push(moved_line(names, order, line))?;
    }
    Ok(Leaders::from_vec(moved))
}

/// The report of the drill of a number: the machines of the first rank by their places in `names`, in
/// order, each with its total, and the sum of all totals, in units of 10^-12. In the report they are
/// places in its own names, which stand in the order in which the text first shows them.
///
/// # Errors
///
/// `NoMemory` alone.
pub fn drill_report(
    alloc: Global,
    number: u64,
    names: &[Name],
    first: &[(u32, i128)],
    sum: i128,
) -> Result<Report, NoMemory>
    requires few { length first.now ≤ 64 }
    requires machines { All (IsFirstOf (length names.now)) first.now }
    requires sum { IsTotal sum }
    ensures report { IfOk result (λ report. report ≡ drill_report_of number names.now first.now sum) }
    ensures valid { IfOk result IsValid }
    ensures shows { IfOk result (λ _. ShowsFirst names.now first.now) }
{
    names_grow();
    let order = first_order(alloc, names, first)?;
    let moved = moved_first(alloc, names, &order, first)?;
    Ok(Report {
        version: 1,
        offset: 0,
        game: drill_game(),
        noise: no_noise(),
        noises: Noises::from_vec(Vec::new(alloc)),
        names: order,
        body: Body::Drill {
            number,
            first: moved,
            sum,
        },
    })
}
