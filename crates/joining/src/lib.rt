// Two drift files made one (02, 8/14): both judged, their headings compared, and the joined file written.
#![tactic(auto)]

ghost use Rattle.std.specs.Prelude.{◌≡◌, ◌+◌, ◌^◌, ◌≤◌, ◌<◌, length};
ghost use Rattle.lines.specs.Writing.{Wrote};
ghost use Rattle.refusals.specs.Answer.{answer_is};
ghost use Rattle.tables.specs.File.{most_axles};
ghost use Rattle.files.specs.Steps.{FilePlaces};
ghost use Rattle.joining.specs.Joining.{deriva_entries, may_differ, disagrees, joined, bytes_of, Joins};
ghost use Rattle.joining.specs.Steps.{input_in, HeldIn, DueReady, DueJudged, InputJudged, headings_checked, axles_checked, inputs_checked, deriva_text, JoinReady, JoinsInputs};

use due::{Booking, Conditions, Fuel, Links, Version};
use places::PlacedText;
use refusals::{Refusal, RefusalKind};
use tables::{DRIFT, MOST_AXLES, pairs};
use writing::WriteAcceptance;

// The inputs' numbers, which a refusal of one names as its file.
const FIRST_INPUT: u32 = 1;

const SECOND_INPUT: u32 = 2;

// The section [Deriva]; those after it are the axles', by number.
const DERIVA: usize = 0;

const FIRST_AXLE: usize = 1;

// The places of the two times among the entries of [Deriva].
const INIZIO_MISURA: usize = pairs::DRIFT_DATA_MISURA + pairs::INIZIO_MISURA_BEHIND
    - pairs::DRIFT_FIRST;

const FINE_MISURA: usize = pairs::DRIFT_DATA_MISURA + pairs::FINE_MISURA_BEHIND
    - pairs::DRIFT_FIRST;

// The pair of FineMisura.
const FINE_MISURA_PAIR: usize = pairs::DRIFT_FIRST + FINE_MISURA;

// As many places as there are up to the last of drift.
const DRIFT_PLACES: usize = places::PLACE_SIZE * pairs::SUSPENSION_FIRST;

// No entry of drift hangs on a condition, so that any will do for 10: those of an AC2 without values, whose category is none of the
// 17, and of no links.
const NO_CONDITIONS: Conditions = Conditions {
    booking: Booking {
        category: 17,
        six: false,
        fuel: Fuel::OtherFuel,
        late: false,
        nessuna: false,
    },
    links: Links {
        serial: false,
        external: false,
        device: Version::OtherVersion,
        counter: Version::OtherVersion,
        speedtest: Version::OtherVersion,
    },
};

// An input that passed: its text with the places of its values, and its axles.
#[derive(Debug, Clone, Copy)]
struct PlacedInput<'a> {
    values: PlacedText<'a>,
    axles: usize,
}

// 10 of an input that was read; its axles.
fn judge_due(number: u32, sections: usize, own: PlacedText<'_>) -> Result<usize, Refusal>
    requires { DueReady sections own.text.now own.places.now }
    ensures { DueJudged number sections own.entry.text.now own.entry.places.now result }
{
    let count = tables::entries_before(DRIFT, sections);
    let found = due::first_not_as_due(DRIFT, pairs::DRIFT_FIRST, count, NO_CONDITIONS, own.places);
    if let Some(entry) = found {
        return Err(Refusal {
            kind: RefusalKind::NotAsDue,
            file: number,
            line: places::line_among(own.places, pairs::DRIFT_FIRST, count, entry),
        });
    }
    Ok(sections - tables::fixed_section_count(DRIFT))
}

// The input of this number: 11, then 3 to 10; its axles. The pairs and lines of its values are in the places then.
fn judge_input(number: u32, text: &[u8], places: &mut [u32]) -> Result<usize, Refusal>
    requires { FilePlaces DRIFT places.old }
    ensures { InputJudged number text.now places.new result }
{
    if text.is_empty() {
        return Err(Refusal {
            kind: RefusalKind::SliceNotAsDue,
            file: number,
            line: 0,
        });
    }
    match files::read_text(DRIFT, text, places) {
        Err(x) => Err(Refusal { file: number, ..x }),
        Ok(read) => judge_due(number, read.sections, PlacedText { text, places }),
    }
}

// Whether an entry of [Deriva] is one of the two times.
fn may_differ(entry: usize) -> bool
    ensures { result ≡ may_differ entry }
{
    entry == INIZIO_MISURA || entry == FINE_MISURA
}

// Whether an entry of [Deriva] must have the same value in both and has not.
fn disagrees(first: PlacedInput<'_>, second: PlacedInput<'_>, entry: usize) -> bool
    requires { HeldIn first × HeldIn second × (entry < deriva_entries) }
    ensures { result ≡ disagrees (input_in first.entry).values (input_in second.entry).values entry }
{
    if may_differ(entry) {
        return false;
    }
    let pair = pairs::DRIFT_FIRST + entry;
    !lines::equal(first.values.value(pair), second.values.value(pair))
}

// 20: the first entry of [Deriva] that disagrees, at the second's line.
fn check_headings(first: PlacedInput<'_>, second: PlacedInput<'_>) -> Result<(), Refusal>
    requires { HeldIn first × HeldIn second }
    ensures { answer_is result ≡ headings_checked (input_in first.entry) (input_in second.entry) }
{
    let count = tables::entry_count(DRIFT, DERIVA);
    for entry in 0..count {
        if disagrees(first, second, entry) {
            return Err(Refusal {
                kind: RefusalKind::HeadingsDisagree,
                file: SECOND_INPUT,
                line: places::line_of(second.values.places, pairs::DRIFT_FIRST + entry),
            });
        }
    }
    Ok(())
}

// 21: more than nine axles together.
fn check_axles(first: PlacedInput<'_>, second: PlacedInput<'_>) -> Result<(), Refusal>
    requires { HeldIn first × HeldIn second }
    ensures { answer_is result ≡ axles_checked (input_in first.entry) (input_in second.entry) }
{
    if MOST_AXLES < (first.axles + second.axles) as u32 {
        return Err(Refusal {
            kind: RefusalKind::TooManyAxles,
            file: 0,
            line: 0,
        });
    }
    Ok(())
}

// 20, then 21.
fn check_inputs(first: PlacedInput<'_>, second: PlacedInput<'_>) -> Result<(), Refusal>
    requires { HeldIn first × HeldIn second }
    ensures { answer_is result ≡ inputs_checked (input_in first.entry) (input_in second.entry) }
{
    check_headings(first, second)?;
    check_axles(first, second)
}

// The length of the joined file: of all values of the first, the second's end in place of the first's, and the second's axles.
fn joined_length(first: PlacedInput<'_>, second: PlacedInput<'_>) -> usize
    requires { HeldIn first × HeldIn second × (first.axles + second.axles ≤ most_axles) }
    ensures { (result ≡ length (bytes_of (joined (input_in first.entry) (input_in second.entry)))) × (result < 2 ^ 32) }
{
    let count = tables::entry_count(DRIFT, DERIVA);
    let axles = first.axles + second.axles;
    let own = writing::pair_lengths(first.values.places, pairs::DRIFT_FIRST, count + first.axles);
    let other = writing::pair_lengths(
        second.values.places,
        pairs::DRIFT_FIRST + count,
        second.axles,
    );
    let second_end = second.values.length(FINE_MISURA_PAIR) as usize;
    writing::table_length(DRIFT, axles as u32) + own
        - first.values.length(FINE_MISURA_PAIR) as usize
        + second_end
        + other
}

// [Deriva] of the joined file at the beginning of `output`: the first's, with the second's FineMisura; its length.
fn write_deriva(first: PlacedInput<'_>, second: PlacedInput<'_>, output: &mut [u8]) -> usize
    requires { HeldIn first × HeldIn second × (length (deriva_text (input_in first) (input_in second)) ≤ length output.old) }
    ensures { Wrote output.old 0 (deriva_text (input_in first.entry) (input_in second.entry)) output.new result }
{
    let own = first.values;
    let after = FINE_MISURA + 1;
    let rest = tables::entry_count(DRIFT, DERIVA) - after;
    let mut end = tables::write_heading(DRIFT, DERIVA, output);
    end += writing::write_entries(
        own,
        DRIFT,
        DERIVA,
        0,
        FINE_MISURA,
        pairs::DRIFT_FIRST,
        &mut output[end..],
    );
    end += tables::write_entry(
        DRIFT,
        DERIVA,
        FINE_MISURA,
        second.values.value(FINE_MISURA_PAIR),
        &mut output[end..],
    );
    end += writing::write_entries(
        own,
        DRIFT,
        DERIVA,
        after,
        rest,
        FINE_MISURA_PAIR + 1,
        &mut output[end..],
    );
    end
}

// The joined file at the beginning of `output`; its length.
fn write_joined(first: PlacedInput<'_>, second: PlacedInput<'_>, output: &mut [u8]) -> usize
    requires { JoinReady (input_in first) (input_in second) (length output.old) × HeldIn first × HeldIn second }
    ensures { Wrote output.old 0 (bytes_of (joined (input_in first.entry) (input_in second.entry))) output.new result }
{
    let axle_pairs = pairs::DRIFT_FIRST + tables::entry_count(DRIFT, DERIVA);
    let numbered_on = FIRST_AXLE + first.axles;
    let mut end = write_deriva(first, second, output);
    end += writing::write_sections(
        first.values,
        DRIFT,
        FIRST_AXLE,
        first.axles,
        axle_pairs,
        &mut output[end..],
    );
    end += writing::write_sections(
        second.values,
        DRIFT,
        numbered_on,
        second.axles,
        axle_pairs,
        &mut output[end..],
    );
    end
}

// Two inputs that passed: 20, 21, 18, then the joined file into `output`.
fn join_passed(
    first: PlacedInput<'_>,
    second: PlacedInput<'_>,
    output: &mut [u8],
) -> Result<WriteAcceptance, Refusal>
    requires { HeldIn first × HeldIn second }
    ensures { JoinsInputs (input_in first.entry) (input_in second.entry) output.old output.new result }
{
    check_inputs(first, second)?;
    let length = joined_length(first, second);
    if output.len() < length {
        return Err(Refusal {
            kind: RefusalKind::OutputTooShort,
            file: 0,
            line: 0,
        });
    }
    write_joined(first, second, output);
    Ok(WriteAcceptance {
        length: length as u32,
    })
}

// Two drift files made one in `output`, in table order: both judged by 11 and 3 to 10, the first one first, then 20, 21, 18. Refused,
// the output stays.
pub fn join_files(
    first: &[u8],
    second: &[u8],
    output: &mut [u8],
) -> Result<WriteAcceptance, Refusal>
    ensures { Joins first.now second.now output.old output.new result }
{
    let mut first_places = [0; DRIFT_PLACES];
    let first_axles = judge_input(FIRST_INPUT, first, &mut first_places)?;
    let mut second_places = [0; DRIFT_PLACES];
    let second_axles = judge_input(SECOND_INPUT, second, &mut second_places)?;
    let first_input = PlacedInput {
        values: PlacedText {
            text: first,
            places: &first_places,
        },
        axles: first_axles,
    };
    let second_input = PlacedInput {
        values: PlacedText {
            text: second,
            places: &second_places,
        },
        axles: second_axles,
    };
    join_passed(first_input, second_input, output)
}
