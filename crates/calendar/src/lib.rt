// The calendar of day numbers, and what the date and times of a measure say (02, 5/14).
#![tactic(auto)]

ghost use Rattle.std.specs.Prelude.{◌≡◌, ◌<◌, ◌≤◌, true};
ghost use Rattle.kinds.specs.Value.{is_gregorian};
ghost use Rattle.calendar.specs.Calendar.{last_number, calendar_number, day_number};
ghost use Rattle.calendar.specs.Measures.{time_of, measure_of};

use kinds::Date;

// A measure: the number of the day on which it ends, and its seconds.
#[derive(Debug, PartialEq, Eq, Clone, Copy)]
pub struct Measure {
    pub lastday: u32,
    pub seconds: u32,
}

// The number of a day. 1900 is no leap year, and of the years to 2099 each fourth one after it is.
#[tactic(auto, using(crate::proofs::Calendar::dates))]
fn calendar_number(date: Date) -> u32
    requires { is_gregorian date.day date.month date.year ≡ true }
    ensures { (result ≡ calendar_number date) × (result ≤ last_number) }
{
    let years = date.year - 1900;
    // The days of the months before, as if February had 30.
    let months = (367 * date.month - 362) / 12;
    if date.month <= 2 {
        365 * years + years.saturating_sub(1) / 4 + months + date.day
    } else {
        365 * years + years / 4 + months - 2 + date.day
    }
}

// The number of the day that a value says; 0 of one that is no D.
#[tactic(auto, unfolding(crate::specs::Calendar::day_number))]
pub fn day_number(value: &[u8]) -> u32
    ensures { (result ≡ day_number value.now) × (result ≤ last_number) }
{
    match kinds::read_date(value) {
        Some(date) => calendar_number(date),
        None => 0,
    }
}

// The time that a value says, in seconds; 0 of one that is no H.
#[tactic(auto, using(crate::proofs::Measures::times))]
fn time_of(value: &[u8]) -> u32
    ensures { (result ≡ time_of value.now) × (result < 86400) }
{
    kinds::read_time(value).unwrap_or(0)
}

// What DataMisura, InizioMisura and FineMisura say.
#[tactic(auto, unfolding(crate::specs::Measures::measure_of))]
pub fn measure_of(date: &[u8], start: &[u8], finish: &[u8]) -> Measure
    ensures { result ≡ measure_of date.now start.now finish.now }
{
    let day = day_number(date);
    let start = time_of(start);
    let finish = time_of(finish);
    if finish < start {
        Measure {
            lastday: day + 1,
            seconds: finish + 86400 - start,
        }
    } else {
        Measure {
            lastday: day,
            seconds: finish - start,
        }
    }
}
