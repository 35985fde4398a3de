// One file written from a text and its pairs (01, Writing): first all checks with the length, then the bytes. The lines beside
// the pairs are not looked at (02, 7/14).
#![tactic(auto)]

ghost use Rattle.std.specs.Prelude.{◌≡◌, Bool, true, ◌+◌, ◌*◌, ◌<◌, ◌≤◌, ltb, length, get_or};
ghost use Rattle.lines.specs.Writing.{Wrote};
ghost use Rattle.kinds.specs.Kind.{Kind};
ghost use Rattle.refusals.specs.Answer.{answer_is};
ghost use Rattle.places.specs.Places.{Pair, place_size, start_of, length_of, pairs_at};
ghost use Rattle.tables.specs.Section.{entries_of};
ghost use Rattle.tables.specs.Row.{entries_in, no_section, most_rows};
ghost use Rattle.tables.specs.File.{least_places, table_of, sections, of_number};
ghost use Rattle.reading.specs.Tables.{table_length};
ghost use Rattle.writing.specs.Writing.{axles_right, is_outside, is_right, quote, quote_right, quote_file, answer_of, Writes, Commits};
ghost use Rattle.writing.specs.Steps.{entry_count, first_kinds, RowsThere, Judges, WrongLine, pair_lengths, Ready, span, entries_text, section_text, sections_text};

use kinds::numbers::KIND_COUNT;
use places::PlacedText;
use refusals::{Refusal, RefusalKind};
use tables::{AC2, ACC, DRIFT, GAS, OPACITY, SUSPENSION, row_kinds};

// What an accepted writing says: the length of the written file.
#[derive(Clone, Copy, Debug, PartialEq, Eq)]
pub struct WriteAcceptance {
    pub length: u32,
}

// "1 to 9 axles"
fn are_axles(axles: u32) -> bool
    ensures { result ≡ axles_right true axles }
{
    match axles {
        1..=tables::MOST_AXLES => true,
        _ => false,
    }
}

// Number 16: whether there is such a file and it can have so many axles.
fn is_right(file: u32, axles: u32) -> bool
    ensures { result ≡ is_right file axles }
{
    match file {
        AC2 | ACC | GAS | OPACITY => axles == 0,
        DRIFT | SUSPENSION => are_axles(axles),
        _ => false,
    }
}

// Number 17: whether start plus length of pair k is above the text's length.
fn is_outside(values: PlacedText<'_>, k: usize) -> bool
    requires { place_size * (k + 1) ≤ length values.places.now }
    ensures { result ≡ ltb (length values.entry.text.now)
        (start_of values.entry.places.now k + length_of values.entry.places.now k) }
{
    let start = places::start_of(values.places, k) as usize;
    values.text.len() < start + values.length(k) as usize
}

// The line of the first entry that a test finds wrong, by the number of its kind and by its pair, in the first `count`
// rows of a file whose pairs stand from `first` on.
fn wrong_line<F: Fn(u8, usize) -> bool>(
    places: &[u32],
    file: u32,
    count: usize,
    first: usize,
    is_wrong: F,
) -> Option<usize>
    ghost wrong: { Kind → Pair → Bool }
    requires rows { RowsThere file count places.now first }
    requires judged { Judges (F.pre is_wrong) (F.post is_wrong) wrong places.now first (entry_count (first_kinds file count)) }
    ensures { WrongLine wrong file count places.now first result }
{
    // Entries alone have pairs, so `pair` does not go up with each row.
    let mut pair = first;
    for row in 0..count {
        let kind = row_kinds::row_kind(file, row);
        if kind < KIND_COUNT {
            if is_wrong(kind, pair) {
                return Some(row + 1);
            }
            pair += 1;
        }
    }
    None
}

// The lengths of `count` pairs from `first` on together.
pub fn pair_lengths(places: &[u32], first: usize, count: usize) -> usize
    requires { (place_size * (first + count) ≤ length places.now) × (count ≤ most_rows) }
    ensures { (result ≡ pair_lengths (pairs_at places.now first count)) × (result ≤ most_rows * 4294967295) }
{
    let mut sum = 0;
    for i in 0..count {
        sum += places::length_of(places, first + i) as usize;
    }
    sum
}

// The length of a file whose values are all empty: its headings, its names, each with `=`, and CR LF behind each line.
pub fn table_length(file: u32, axles: u32) -> usize
    ensures { result ≡ of_number 0 (λ f. table_length (sections f axles)) file }
{
    match file {
        AC2 => 268,
        ACC => 135,
        DRIFT => 247 + 25 * axles as usize,
        SUSPENSION => 252 + 63 * axles as usize,
        GAS => 1162,
        OPACITY => 1007,
        _ => 0,
    }
}

// How many sections a file with so many axles has.
fn section_count(file: u32, axles: u32) -> usize
    requires { is_right file axles ≡ true }
    ensures { result ≡ of_number 0 (λ f. length (sections f axles)) file }
{
    tables::fixed_section_count(file) + axles as usize
}

// 17, then 9, then the length, where 1 and 16 do not refuse.
fn quote_right(values: PlacedText<'_>, file: u32, axles: u32) -> Result<WriteAcceptance, Refusal>
    requires { (least_places ≤ length values.places.now) × (is_right file axles ≡ true) }
    ensures { answer_is result ≡ answer_of file (quote_right file axles values.entry.text.now values.entry.places.now) }
{
    let sections = section_count(file, axles);
    let count = tables::rows_before(file, sections);
    let first = tables::first_pair(file);
    let outside = |_, pair| is_outside(values, pair);
    if let Some(line) = wrong_line(values.places, file, count, first, outside) {
        return Err(Refusal {
            kind: RefusalKind::PairOutside,
            file,
            line: line as u32,
        });
    }
    let not_kept = |kind, pair| !kinds::kind_kept(kind, values.value(pair));
    if let Some(line) = wrong_line(values.places, file, count, first, not_kept) {
        return Err(Refusal {
            kind: RefusalKind::WrongKind,
            file,
            line: line as u32,
        });
    }
    let length = table_length(file, axles) + pair_lengths(values.places, first, count - sections);
    Ok(WriteAcceptance {
        length: length as u32,
    })
}

// All checks but the output's, in the order 1, 16, 17, 9, and the length of the file.
pub fn quote(values: PlacedText<'_>, file: u32, axles: u32) -> Result<WriteAcceptance, Refusal>
    ensures { answer_is result ≡ answer_of file (quote_file file axles values.entry.text.now values.entry.places.now) }
{
    let least = tables::least_places();
    if values.places.len() < least {
        return Err(Refusal {
            kind: RefusalKind::PlacesTooShort,
            file: 0,
            line: 0,
        });
    }
    if !is_right(file, axles) {
        return Err(Refusal {
            kind: RefusalKind::FileOrAxles,
            file,
            line: 0,
        });
    }
    quote_right(values, file, axles)
}

// The lines of `count` entries of a section, from entry `from` on, their pairs from `first` on, at the beginning of `output`; their
// length.
pub fn write_entries(
    values: PlacedText<'_>,
    file: u32,
    section: usize,
    from: usize,
    count: usize,
    first: usize,
    output: &mut [u8],
) -> usize
    requires { (from + count ≤ length (entries_in (table_of file) section))
        × Ready values.text.now values.places.now first count output.old
        (entries_text (span from count (entries_in (table_of file) section)) values.text.now values.places.now first) }
    ensures { Wrote output.old 0
        (entries_text (span from count (entries_in (table_of file) section)) values.entry.text.now values.entry.places.now first)
        output.new result }
{
    let mut end = 0;
    for i in 0..count {
        let value = values.value(first + i);
        end += tables::write_entry(file, section, from + i, value, &mut output[end..]);
    }
    end
}

// A section's lines, its heading and then its entries, at the beginning of `output`; their length.
pub fn write_section(
    values: PlacedText<'_>,
    file: u32,
    section: usize,
    first: usize,
    output: &mut [u8],
) -> usize
    requires { Ready values.text.now values.places.now first (length (entries_in (table_of file) section)) output.old
        (section_text (get_or (table_of file) section no_section) values.text.now values.places.now first) }
    ensures { Wrote output.old 0
        (section_text (get_or (table_of file) section no_section) values.entry.text.now values.entry.places.now first)
        output.new result }
{
    let count = tables::entry_count(file, section);
    let end = tables::write_heading(file, section, output);
    end + write_entries(values, file, section, 0, count, first, &mut output[end..])
}

// The lines of `count` sections of a file, from section `from` on, their pairs from `first` on, at the beginning of `output`; their
// length.
pub fn write_sections(
    values: PlacedText<'_>,
    file: u32,
    from: usize,
    count: usize,
    first: usize,
    output: &mut [u8],
) -> usize
    requires { (from + count ≤ length (table_of file))
        × Ready values.text.now values.places.now first (length (entries_of (span from count (table_of file)))) output.old
        (sections_text (span from count (table_of file)) values.text.now values.places.now first) }
    ensures { Wrote output.old 0
        (sections_text (span from count (table_of file)) values.entry.text.now values.entry.places.now first)
        output.new result }
{
    let mut pair = first;
    let mut end = 0;
    for k in 0..count {
        let section = from + k;
        end += write_section(values, file, section, pair, &mut output[end..]);
        pair += tables::entry_count(file, section);
    }
    end
}

// What was quoted into `output`, if that has room: the file in table order, an empty value for length 0.
fn write_quoted(
    values: PlacedText<'_>,
    file: u32,
    axles: u32,
    acceptance: WriteAcceptance,
    output: &mut [u8],
) -> Result<WriteAcceptance, Refusal>
    requires { quote_file file axles values.text.now values.places.now ≡ quote acceptance.length }
    ensures { Writes values.entry.text.now values.entry.places.now file axles
        output.old output.new result }
{
    if output.len() < acceptance.length as usize {
        return Err(Refusal {
            kind: RefusalKind::OutputTooShort,
            file,
            line: 0,
        });
    }
    let count = section_count(file, axles);
    write_sections(values, file, 0, count, tables::first_pair(file), output);
    Ok(acceptance)
}

// The file written, if this is its quoted length (02, 9/14).
pub fn commit(
    values: PlacedText<'_>,
    file: u32,
    axles: u32,
    length: u32,
    output: &mut [u8],
) -> Result<WriteAcceptance, Refusal>
    ensures { Commits values.entry.text.now values.entry.places.now file axles length
        output.old output.new result }
{
    let acceptance = quote(values, file, axles)?;
    if acceptance.length != length {
        return Err(Refusal {
            kind: RefusalKind::LengthDiffers,
            file,
            line: 0,
        });
    }
    write_quoted(values, file, axles, acceptance, output)
}

// Quote and commit together.
pub fn write_file(
    values: PlacedText<'_>,
    file: u32,
    axles: u32,
    output: &mut [u8],
) -> Result<WriteAcceptance, Refusal>
    ensures { Writes values.entry.text.now values.entry.places.now file axles
        output.old output.new result }
{
    let acceptance = quote(values, file, axles)?;
    write_quoted(values, file, axles, acceptance, output)
}
