// Judges stored cases by the rules: due entries against found ones (10), bookings (12), Differenza% (13), devices in date
// (19), slices (2, 11) and identification answers (14, 15).
// Standard input: for each case a title and two parts, each ended by a byte 00. The title's first word says what is
// judged:
//   due F    AC2, file F: each entry of F, what is asked of it and what was found; the first that is not as due
//   rules F  AC2, file F: the first rule of F that is broken
//   stem     a stem, nothing
//   given    AC2, a stem: for each file whether it may be left out, whether it may be given, whether it is read then
//   answer   gas or nothing, the answer or nothing
//   days     dates with a space between them, nothing: the number of each day
// F is one digit. With file 1 the second part is empty: AC2 is the file.
#![tactic(auto)]

ghost use Rattle.std.specs.Prelude.{◌≡◌, true, ◌+◌, ◌*◌, ◌<◌, ◌≤◌, length, IfOk, IfSome};
ghost use denote.Struct.Props.{props};
ghost use Rattle.places.specs.Places.{place_size, pairs_at, Within};
ghost use Rattle.places.proofs.Values.{within-prop};
ghost use Rattle.tables.specs.File.{ac2, gas as gas_file, entries, first_pair, least_places, of_number, most_axles};
ghost use Rattle.serial.specs.Reading.{Ordered};
ghost use Rattle.tables.specs.Value.{Held, NumberHeld};
ghost use Rattle.due.specs.Values.{new_values};
ghost use Rattle.due.specs.Booking.{booking_in};

use due::{Booking, Conditions, Due};
use places::{PLACE_SIZE, PlacedText};
use refusals::RefusalKind;
use rules::{NewBooking, Stated};
use serial::FieldEnds;
use std::io;
use std::io::{BufWriter, Read, Write};

// ---- reading a file

// 01, Judging; 02, 7/14: three numbers for each of the 194 entries.
const LEAST_PLACES: usize = PLACE_SIZE * 194;

// As many axles as a file has at most (01, Results).
const MOST_AXLES: usize = 9;

// The axle count of a file, which is 0 for a file without axles; its pairs and lines are in the places. None where it is refused.
fn read_file(
    out: &mut impl Write,
    file: u32,
    text: &[u8],
    places: &mut [u32],
) -> io::Result<Option<usize>>
    requires { least_places ≤ length places.old }
    ensures same_length { length places.new ≡ length places.old }
    ensures few { IfOk result (λ r. IfSome r (λ n. n ≤ most_axles)) }
{
    match files::read_text(file, text, places) {
        Err(x) => {
            writeln!(out, "refused {}, line {}", u32::from(x.kind), x.line)?;
            Ok(None)
        }
        Ok(read) => Ok(
            read.sections
                .checked_sub(tables::fixed_section_count(file))
                .filter(|n| *n <= MOST_AXLES),
        ),
    }
}

fn read_booking(out: &mut impl Write, text: &[u8], places: &mut [u32]) -> io::Result<Option<usize>>
    requires { least_places ≤ length places.old }
    ensures { length places.new ≡ length places.old }
{
    read_file(out, 1, text, places)
}

// ---- pairs within their text

// How many entries a file with this many axles has.
fn entry_count(file: u32, axles: usize) -> usize
    requires { axles ≤ most_axles }
    ensures { (result ≡ of_number 0 (λ f. length (entries f axles)) file)
        × (of_number 0 first_pair file + result ≤ 194) }
{
    match file {
        1 => 12,
        2 => 6,
        3 => 16 + axles,
        4 => 16 + 3 * axles,
        5 => 53,
        7 => 55,
        _ => 0,
    }
}

fn pair_within(own: PlacedText<'_>, k: usize) -> bool
    requires { place_size * (k + 1) ≤ length own.places.now }
    ensures { result ≡ true → Within own.entry.text.now (pairs_at own.entry.places.now k 1) }
{
    let start = places::start_of(own.places, k) as usize;
    let size = own.length(k) as usize;
    if own.text.len() < start {
        return false;
    }
    size <= own.text.len() - start
}

// Whether each of the pairs lies within the text. Reading makes sure of it; here it is looked at again, so that no fact
// about two readings into the same places is needed.
fn pairs_within(own: PlacedText<'_>, first: usize, count: usize) -> bool
    requires { place_size * (first + count) ≤ length own.places.now }
    ensures { result ≡ true → Within own.entry.text.now (pairs_at own.entry.places.now first count) }
{
    for i in 0..count {
        if !pair_within(own, first + i) {
            return false;
        }
    }
    true
}

fn is_held(file: u32, axles: usize, own: PlacedText<'_>) -> bool
    requires { (axles ≤ most_axles) × (least_places ≤ length own.places.now) }
    ensures { result ≡ true → NumberHeld file axles own.entry.text.now own.entry.places.now }
{
    let count = entry_count(file, axles);
    pairs_within(own, tables::first_pair(file), count)
}

// A file beside AC2, both read into the same places.
#[derive(Clone, Copy)]
struct Beside<'a> {
    file: u32,
    axles: usize,
    booking: &'a [u8],
    own: PlacedText<'a>,
    ghost few: { axles ≤ most_axles },
    ghost new_held: { Held ac2 0 booking.now own.places.now } by { Prim.hlevel (within-prop, props) },
    ghost own_held: { NumberHeld file axles own.text.now own.places.now } by { Prim.hlevel (within-prop, props) },
}

fn hold<'a>(file: u32, axles: usize, booking: &'a [u8], own: PlacedText<'a>) -> Option<Beside<'a>>
    requires { (axles ≤ most_axles) × (least_places ≤ length own.places.now) }
{
    let new = PlacedText {
        text: booking,
        places: own.places,
    };
    if !is_held(1, 0, new) || !is_held(file, axles, own) {
        return None;
    }
    Some(Beside {
        file,
        axles,
        booking,
        own,
    })
}

// ---- an entry by its name

// The name of the entry whose value starts here, as it stands in the text: from the line's first byte up to the `=`.
fn print_name(out: &mut impl Write, text: &[u8], start: usize) -> io::Result<()> {
    let Some((_, before)) = text.get(..start).and_then(|t| t.split_last()) else {
        return Ok(());
    };
    match before.rsplit(|b| *b == b'\n').next() {
        Some(name) => out.write_all(name),
        None => Ok(()),
    }
}

// A refusal at an entry of a file: its number, line and name. `none` where there is no such entry.
fn print_refusal(
    out: &mut impl Write,
    number: u32,
    entry: usize,
    case: Beside<'_>,
) -> io::Result<()> {
    let count = entry_count(case.file, case.axles);
    if count <= entry {
        return out.write_all(b"none\n");
    }
    let pair = tables::first_pair(case.file) + entry;
    let line = places::line_of(case.own.places, pair);
    write!(out, "refused {number}, line {line}: ")?;
    let start = places::start_of(case.own.places, pair) as usize;
    print_name(out, case.own.text, start)?;
    out.write_all(b"\n")
}

// ---- due entries

fn print_due(out: &mut impl Write, due: Due) -> io::Result<()> {
    out.write_all(match due {
        Due::IsDue => b"due     ",
        Due::NotDue => b"not due ",
        Due::IsFree => b"free    ",
    })
}

fn print_found(out: &mut impl Write, filled: bool) -> io::Result<()> {
    out.write_all(if filled { b"filled  " } else { b"empty   " })
}

fn differs(due: Due, filled: bool) -> bool {
    match due {
        Due::IsDue => !filled,
        Due::NotDue => filled,
        Due::IsFree => false,
    }
}

fn show_entry(out: &mut impl Write, due: Due, own: PlacedText<'_>, k: usize) -> io::Result<()>
    requires { place_size * (k + 1) ≤ length own.places.now }
{
    let filled = 0 < own.length(k);
    print_due(out, due)?;
    print_found(out, filled)?;
    print_name(out, own.text, places::start_of(own.places, k) as usize)?;
    if differs(due, filled) {
        out.write_all(b"  <- differs")?;
    }
    out.write_all(b"\n")
}

fn show_entries(
    out: &mut impl Write,
    file: u32,
    first: usize,
    count: usize,
    c: Conditions,
    own: PlacedText<'_>,
) -> io::Result<()>
    requires { place_size * (first + count) ≤ length own.places.now }
{
    for i in 0..count {
        show_entry(out, due::due_of(file, i, c), own, first + i)?;
    }
    Ok(())
}

fn show_mark(out: &mut impl Write, marked: bool) -> io::Result<()> {
    if marked {
        out.write_all(b"marked\n")
    } else {
        Ok(())
    }
}

// What AC2 says.
fn new_booking(case: Beside<'_>) -> Booking
    ensures { result ≡ booking_in (new_values case.entry.booking.now case.entry.own.places.now) }
{
    due::booking_of(PlacedText {
        text: case.booking,
        places: case.own.places,
    })
}

fn show_due(out: &mut impl Write, case: Beside<'_>) -> io::Result<()> {
    let c = due::conditions_of(case.file, new_booking(case), case.own);
    let first = tables::first_pair(case.file);
    let count = entry_count(case.file, case.axles);
    show_entries(out, case.file, first, count, c, case.own)?;
    match due::first_not_as_due(case.file, first, count, c, case.own.places) {
        Some(entry) => print_refusal(out, u32::from(RefusalKind::NotAsDue), entry, case)?,
        None => out.write_all(b"none\n")?,
    }
    show_mark(out, rules::is_marked(case.file, case.axles, case.own))
}

// ---- bookings, Differenza% and devices

fn show_rules(out: &mut impl Write, case: Beside<'_>) -> io::Result<()> {
    let new = NewBooking {
        text: case.booking,
        says: new_booking(case),
    };
    let measure = rules::measure_of(case.file, case.axles, case.own);
    match rules::first_broken(case.file, case.axles, &new, case.own, measure.lastday) {
        Ok(()) => out.write_all(b"kept\n"),
        Err(x) => print_refusal(out, u32::from(x.kind), x.entry, case),
    }
}

fn show_days(out: &mut impl Write, dates: &[u8]) -> io::Result<()> {
    for date in dates.split(|&c| c == b' ') {
        out.write_all(date)?;
        writeln!(out, " {}", calendar::day_number(date))?;
    }
    Ok(())
}

// ---- a file beside AC2

// Both are read; of file 1 AC2 is the text. None where one is refused, or its pairs do not lie within its text.
fn read_beside<'a>(
    out: &mut impl Write,
    file: u32,
    booking: &'a [u8],
    text: &'a [u8],
    places: &'a mut [u32],
) -> io::Result<Option<Beside<'a>>>
    requires { least_places ≤ length places.old }
{
    if read_booking(out, booking, places)? != Some(0) {
        return Ok(None);
    }
    let text = if file == 1 { booking } else { text };
    let Some(axles) = read_file(out, file, text, places)? else {
        return Ok(None);
    };
    let case = hold(file, axles, booking, PlacedText { text, places });
    if case.is_none() {
        out.write_all(b"not within\n")?;
    }
    Ok(case)
}

// ---- the stem and the slices

fn print_verdict(out: &mut impl Write, right: bool) -> io::Result<()> {
    out.write_all(if right { b"right" } else { b"wrong" })
}

fn show_stem(out: &mut impl Write, stem: &[u8]) -> io::Result<()> {
    if rules::good_stem(stem) {
        out.write_all(b"good stem\n")
    } else {
        out.write_all(b"refused 2\n")
    }
}

fn show_slice(out: &mut impl Write, file: u32, stated: Stated, booking: Booking) -> io::Result<()> {
    write!(out, "file {file}: left out ")?;
    print_verdict(out, rules::slice_right(file, stated, booking, false))?;
    out.write_all(b", given ")?;
    print_verdict(out, rules::slice_right(file, stated, booking, true))?;
    if rules::is_read(file, booking, true) {
        out.write_all(b", read\n")
    } else {
        out.write_all(b", not read\n")
    }
}

// Files 1 to 5 and 7; of slice 6, which is no such file, `answer` has the cases.
fn show_slices(out: &mut impl Write, stated: Stated, booking: Booking) -> io::Result<()> {
    for file in [1, 2, 3, 4, 5, 7] {
        show_slice(out, file, stated, booking)?;
    }
    Ok(())
}

fn show_booking(out: &mut impl Write, new: PlacedText<'_>, stem: &[u8]) -> io::Result<()>
    requires { least_places ≤ length new.places.now }
{
    if is_held(1, 0, new) {
        show_slices(out, rules::stated_of(stem), due::booking_of(new))
    } else {
        Ok(())
    }
}

fn show_given(out: &mut impl Write, booking: &[u8], stem: &[u8]) -> io::Result<()> {
    let mut places = [0u32; LEAST_PLACES];
    if read_booking(out, booking, &mut places)? != Some(0) {
        return Ok(());
    }
    let new = PlacedText {
        text: booking,
        places: &places,
    };
    show_booking(out, new, stem)
}

// ---- the identification answer

// The field between two ends.
fn print_field(out: &mut impl Write, answer: &[u8], last: usize, end: usize) -> io::Result<()>
    requires { (last < end) × (end ≤ length answer.now) }
{
    out.write_all(b"  ")?;
    out.write_all(&answer[last + 1..end])?;
    out.write_all(b"\n")
}

fn show_fields(out: &mut impl Write, answer: &[u8], e: FieldEnds) -> io::Result<()>
    requires { Ordered (length answer.now) e }
{
    print_field(out, answer, e.gas, e.address)?;
    print_field(out, answer, e.id, e.mar)?;
    print_field(out, answer, e.mar, e.model)?;
    print_field(out, answer, e.model, e.numom)?;
    print_field(out, answer, e.numom, e.numser)?;
    print_field(out, answer, e.numser, e.datasca)?;
    print_field(out, answer, e.datasca, e.numver)?;
    print_field(out, answer, e.numver, e.vermctcnet)
}

fn show_read(out: &mut impl Write, answer: &[u8], gas: PlacedText<'_>) -> io::Result<()>
    requires { Held gas_file 0 gas.text.now gas.places.now }
{
    let Some(ends) = serial::read_identification(answer) else {
        return out.write_all(b"refused 14\n");
    };
    show_fields(out, answer, ends)?;
    if rules::same_fields(answer, ends, gas) {
        out.write_all(b"equal\n")
    } else {
        out.write_all(b"refused 15\n")
    }
}

fn show_judged(out: &mut impl Write, answer: &[u8], gas: PlacedText<'_>) -> io::Result<()>
    requires { Held gas_file 0 gas.text.now gas.places.now }
{
    let given = !answer.is_empty();
    if !rules::identification_right(gas, given) {
        out.write_all(b"refused 11\n")?;
    }
    if given {
        show_read(out, answer, gas)
    } else {
        Ok(())
    }
}

fn show_answered(out: &mut impl Write, answer: &[u8], gas: PlacedText<'_>) -> io::Result<()>
    requires { least_places ≤ length gas.places.now }
{
    if is_held(5, 0, gas) {
        show_judged(out, answer, gas)
    } else {
        Ok(())
    }
}

fn show_answer(out: &mut impl Write, gas: &[u8], answer: &[u8]) -> io::Result<()> {
    let mut places = [0u32; LEAST_PLACES];
    if !gas.is_empty() && read_file(out, 5, gas, &mut places)? != Some(0) {
        return Ok(());
    }
    let gas = PlacedText {
        text: gas,
        places: &places,
    };
    show_answered(out, answer, gas)
}

// ---- cases

// The file number that stands in the title at this place; 0, which no file has, where none does, and then it is read as such.
fn file_at(title: &[u8], place: usize) -> u32 {
    match title.get(place) {
        Some(digit @ (b'1'..=b'5' | b'7')) => u32::from(*digit - b'0'),
        _ => 0,
    }
}

// Judges by the due entries or the rules of a file beside AC2. The places of both stand here, so that no other case fills these.
fn show_beside(out: &mut impl Write, title: &[u8], booking: &[u8], text: &[u8]) -> io::Result<()> {
    let mut places = [0u32; LEAST_PLACES];
    if title.starts_with(b"due") {
        let file = file_at(title, 4);
        match read_beside(out, file, booking, text, &mut places)? {
            Some(case) => show_due(out, case),
            None => Ok(()),
        }
    } else {
        let file = file_at(title, 6);
        match read_beside(out, file, booking, text, &mut places)? {
            Some(case) => show_rules(out, case),
            None => Ok(()),
        }
    }
}

// The cases for which files are read. Not inlined, so that the others make no room for places.
#[inline(never)]
fn show_read_case(
    out: &mut impl Write,
    title: &[u8],
    first: &[u8],
    second: &[u8],
) -> io::Result<()> {
    if title.starts_with(b"due") || title.starts_with(b"rules") {
        show_beside(out, title, first, second)
    } else if title.starts_with(b"given") {
        show_given(out, first, second)
    } else if title.starts_with(b"answer") {
        show_answer(out, first, second)
    } else {
        Ok(())
    }
}

fn show_case(out: &mut impl Write, title: &[u8], first: &[u8], second: &[u8]) -> io::Result<()> {
    if title.starts_with(b"stem") {
        show_stem(out, first)
    } else if title.starts_with(b"days") {
        show_days(out, first)
    } else {
        show_read_case(out, title, first, second)
    }
}

// The part before the first byte 00, and what stands behind that byte. Stands in three programs: a library for eight lines would be
// no plainer.
fn split_part(input: &[u8]) -> (&[u8], &[u8])
    ensures no_longer { length result.1.now ≤ length input.now }
    ensures shorter { 0 < length input.now → length result.1.now < length input.now }
{
    match input.iter().position(|b| *b == 0) {
        Some(end) => (&input[..end], &input[end + 1..]),
        None => (input, &input[input.len()..]),
    }
}

fn show_all(out: &mut impl Write, input: &[u8]) -> io::Result<()> {
    let mut input = input;
    while !input.is_empty() {
        let (title, rest) = split_part(input);
        let (first, rest) = split_part(rest);
        let (second, rest) = split_part(rest);
        out.write_all(b"-- ")?;
        out.write_all(title)?;
        out.write_all(b"\n")?;
        show_case(out, title, first, second)?;
        input = rest;
    }
    Ok(())
}

fn main(rt: HostRuntime) -> io::Result<()> {
    let mut input = Vec::new(rt.alloc());
    rt.stdin().read_to_end(&mut input)?;
    let mut out = BufWriter::new(rt.alloc(), rt.stdout())?;
    show_all(&mut out, input.as_slice())?;
    out.flush()
}
