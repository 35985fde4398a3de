// The due column of one file (01, Due entries): due, not due or free for each of its entries, from the texts of AC2 and
// of the file. No value is held to it, so that it serves refused sets as well.
#![tactic(auto)]

ghost use Rattle.std.specs.Prelude.{◌≡◌, ◌++◌, ◌≤◌, length, drop};
ghost use Rattle.tables.specs.File.{least_places};
ghost use Rattle.due.specs.Due.{due_in};
ghost use Rattle.columns.specs.Column.{due_number, numbers_from, due_column, Gives, GivesForBooking};

use due::{Booking, Conditions, Due};
use places::PlacedText;
use refusals::{Refusal, RefusalKind};
use tables::AC2;

// What is said besides a column: the file's axle count, 0 for a file without axles, and how many entries it has.
#[derive(Debug, PartialEq, Eq, Clone, Copy)]
pub struct ColumnAcceptance {
    pub axles: u32,
    pub count: u32,
}

// What is asked of an entry, as the C interface's number. No `From`, which would have to stand in `due`, far from what C is handed.
fn due_number(due: Due) -> u32
    ensures { result ≡ due_number due }
{
    match due {
        Due::IsDue => 1,
        Due::NotDue => 2,
        Due::IsFree => 3,
    }
}

// The first `count` entries of a file, in entry order.
fn write_column(file: u32, conditions: Conditions, count: usize, column: &mut [u32])
    requires { count ≤ length column.old }
    ensures { column.new
        ≡ numbers_from (λ i. due_in file i conditions) 0 count ++ drop count column.old }
{
    for i in 0..count {
        column[i] = due_number(due::due_of(file, i, conditions));
    }
}

// A file beside what AC2 says: 16, 11, 3 to 9, then 18. ACC with category L is not read.
fn column_beside(
    file: u32,
    booking: Booking,
    text: &[u8],
    places: &mut [u32],
    column: &mut [u32],
) -> Result<ColumnAcceptance, Refusal>
    requires { least_places ≤ length places.old }
    ensures { GivesForBooking file booking text.now
        places.old places.new column.old column.new result }
{
    if !rules::is_read(file, booking, true) {
        places::clear(places, tables::least_places());
        return Ok(ColumnAcceptance { axles: 0, count: 0 });
    }
    let axles = files::read_alone(file, text, places)?.axles;
    let sections = axles as usize + tables::fixed_section_count(file);
    let count = tables::entries_before(file, sections);
    if column.len() < count {
        places::clear(places, tables::least_places());
        return Err(Refusal {
            kind: RefusalKind::OutputTooShort,
            file,
            line: 0,
        });
    }
    let conditions = due::conditions_of(file, booking, PlacedText { text, places });
    write_column(file, conditions, count, column);
    Ok(ColumnAcceptance {
        axles,
        count: count as u32,
    })
}

// The due column of the file of this number: 1 due, 2 not due, 3 free, for each of its entries. Refuses with 1; with 11
// and 3 to 9 of AC2; with 16, 11 and 3 to 9 of the file; and with 18 where the column is too short. Not refused, the
// places have the file's pairs and lines, and all others are 0.
pub fn due_column(
    file: u32,
    ac2: &[u8],
    text: &[u8],
    places: &mut [u32],
    column: &mut [u32],
) -> Result<ColumnAcceptance, Refusal>
    ensures { Gives file
        (due_column file ac2.now text.now places.old (length column.old))
        places.old places.new column.old column.new result }
{
    files::read_alone(AC2, ac2, places)?;
    let booking = due::booking_of(PlacedText { text: ac2, places });
    column_beside(file, booking, text, places, column)
}
