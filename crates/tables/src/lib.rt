// The tables of the files (01, Bookings and Results): headings, entry names and first pairs, by the numbers of a file
// (from 1), a section and an entry (from 0). No number is forbidden: what there is not, has nothing in it.
#![tactic(auto)]

pub mod groups; // groups.rt: the names of the entries, with their tags
mod headings; // headings.rt: the headings of the sections
pub mod lookup; // lookup.rt: a group of names, and the look-up among them
pub mod pairs; // pairs.rt: the pairs of entries that conditions and rules look at
pub mod row_kinds; // row_kinds.rt: the kinds of the rows

ghost use Rattle.std.specs.Prelude.{◌≡◌, ◌+◌, ◌≤◌, length, get_or};
ghost use Rattle.lines.specs.Line.{heading as heading_line, entry as entry_line, written_line, written_length};
ghost use Rattle.lines.specs.Writing.{Wrote};
ghost use Rattle.tables.specs.File.{table_of, of_number, is_file, least_sections, fixed_sections, room as room_of, first_pair, least_places};
ghost use Rattle.tables.specs.Row.{entries_in, name_at, heading_at, section_of, rows_before, entries_before, row_count, most_rows};
ghost use Rattle.tables.specs.LookUps.{looked_up};
ghost use Rattle.tables.specs.Groups.{section_digit, likely_section, lent_by, StandsAt, IsPlaceOf};

use lookup::{Group, LookUp};

// The numbers of the files (01, the set). Numbers and no enum: the C interface passes them, and each function here takes any.
pub const AC2: u32 = 1;

pub const ACC: u32 = 2;

pub const DRIFT: u32 = 3;

pub const SUSPENSION: u32 = 4;

pub const GAS: u32 = 5;

// No file of sections and entries: the identification answer.
pub const IDENTIFICATION: u32 = 6;

pub const OPACITY: u32 = 7;

// As many rows as any table has: the size of an array with a number for each row.
pub const MOST_ROWS: usize = 64;

// As many axles as a file has at most.
pub const MOST_AXLES: u32 = 9;

// A section for all look-ups under its heading: its names, and how many rows of its table stand before it.
#[derive(Clone, Copy)]
pub struct SectionPlace<'a> {
    pub group: Group<'a>,
    pub before: usize,
}

// The number that a table has for a file, by the file's number; 0 where it has none. Each function has its own numbers beside it:
// one table of structs would hold them apart from what says what they are.
fn of_file(table: &[u8], file: u32) -> usize
    ensures { result ≡ get_or table.now file 0 }
{
    table.get(file as usize).map_or(0, |n| usize::from(*n))
}

// How many sections a file has with all its axles.
pub fn section_count(file: u32) -> usize
    ensures { result ≡ length (table_of file) }
{
    of_file(&[0, 1, 1, 10, 10, 2, 0, 1], file)
}

// Whether a file has that number.
pub fn is_file(file: u32) -> bool
    ensures { result ≡ is_file file }
{
    0 < section_count(file)
}

// How many of a file's sections are no axle's.
pub fn fixed_section_count(file: u32) -> usize
    ensures { result ≡ of_number 0 (λ f. length (fixed_sections f)) file }
{
    of_file(&[0, 1, 1, 1, 1, 2, 0, 1], file)
}

// How many of a file's sections must be there.
pub fn least_sections(file: u32) -> usize
    ensures { result ≡ of_number 0 least_sections file }
{
    of_file(&[0, 1, 1, 2, 2, 2, 0, 1], file)
}

// The first pair of a file's places.
pub fn first_pair(file: u32) -> usize
    ensures { result ≡ of_number 0 first_pair file }
{
    of_file(&[0, 0, 12, 18, 43, 86, 0, 139], file)
}

// How many pairs a file has.
pub fn room(file: u32) -> usize
    ensures { result ≡ of_number 0 room_of file }
{
    of_file(&[0, 12, 6, 25, 43, 53, 0, 55], file)
}

// How many numbers a caller lends at least for the places (01, Judging).
pub fn least_places() -> usize
    ensures { result ≡ least_places }
{
    582
}

// How many entries a section has.
pub fn entry_count(file: u32, section: usize) -> usize
    ensures { result ≡ length (entries_in (table_of file) section) }
{
    match file {
        AC2 => match section {
            0 => 12,
            _ => 0,
        },
        ACC => match section {
            0 => 6,
            _ => 0,
        },
        DRIFT => match section {
            0 => 16,
            1..=9 => 1,
            _ => 0,
        },
        SUSPENSION => match section {
            0 => 16,
            1..=9 => 3,
            _ => 0,
        },
        GAS => match section {
            0 => 46,
            1 => 7,
            _ => 0,
        },
        OPACITY => match section {
            0 => 55,
            _ => 0,
        },
        _ => 0,
    }
}

// The row of a section's first entry in its file's group. A group begins with the first section's entries.
fn section_start(file: u32, section: usize) -> usize
    ensures { StandsAt file section result }
{
    if section == 0 {
        return 0;
    }
    match file {
        DRIFT => 16,
        SUSPENSION => 17,
        GAS => 46,
        _ => 0,
    }
}

// How many rows stand before a section; for a section that there is not, before the end.
pub fn rows_before(file: u32, section: usize) -> usize
    ensures { result ≡ rows_before (table_of file) section }
{
    match file {
        AC2 => match section {
            0 => 0,
            _ => 13,
        },
        ACC => match section {
            0 => 0,
            _ => 7,
        },
        DRIFT => match section {
            0 => 0,
            1..=9 => 17 + (section - 1) * 2,
            _ => 35,
        },
        SUSPENSION => match section {
            0 => 0,
            1..=9 => 17 + (section - 1) * 4,
            _ => 53,
        },
        GAS => match section {
            0 => 0,
            1 => 47,
            _ => 55,
        },
        OPACITY => match section {
            0 => 0,
            _ => 56,
        },
        _ => 0,
    }
}

// How many entries stand before a section of the file, or before its end: the rows without the sections' headings.
pub fn entries_before(file: u32, section: usize) -> usize
    requires { section ≤ length (table_of file) }
    ensures { result ≡ entries_before (table_of file) section }
{
    rows_before(file, section) - section
}

// How many rows a file's table has.
pub fn row_count(file: u32) -> usize
    ensures { result ≡ row_count (table_of file) }
{
    of_file(&[0, 13, 7, 35, 53, 55, 0, 56], file)
}

// The digit 1 to 9 that a byte is; 0 for any other byte, since the heading without a digit is that of section 0.
fn section_digit(byte: u8) -> usize
    ensures { result ≡ section_digit byte }
{
    match byte {
        b'1'..=b'9' => usize::from(byte - b'0'),
        _ => 0,
    }
}

// The one section that a heading can be; 0, the first, where it ends in no digit.
fn likely_section(part: &[u8]) -> usize
    ensures { result ≡ likely_section part.now }
{
    match part {
        [.., digit, _] => section_digit(*digit),
        _ => 0,
    }
}

// The section of a heading; the number of sections where it is none of the file's: no section has that number, which stands for 'no
// heading yet' in a scan too. Only the likely one is compared.
pub fn find_section(file: u32, part: &[u8]) -> usize
    ensures { result ≡ section_of (table_of file) part.now }
{
    let headings = headings::headings_of(file);
    let likely = likely_section(part);
    if likely < headings.len() && lines::equal(part, headings[likely]) {
        likely
    } else {
        headings.len()
    }
}

// The place of a section. One that there is not has no names.
pub fn section_place(file: u32, section: usize) -> SectionPlace<'static>
    ensures { IsPlaceOf file section result }
{
    let start = section_start(file, section);
    SectionPlace {
        group: groups::group_of(file).part(start, entry_count(file, section)),
        before: rows_before(file, section),
    }
}

// The row of the entry of a name in the section of that place; None where it is none of the section's.
pub fn find_row(place: SectionPlace<'_>, part: &[u8]) -> Option<LookUp>
    requires { place.before ≤ most_rows }
    ensures { result ≡ looked_up part.now (lent_by place.entry.group) (place.entry.before + 1) }
{
    let found = place.group.find(part)?;
    Some(LookUp {
        row: place.before + 1 + found.row,
        compared: found.compared,
    })
}

// The heading of a section, brackets included; what has no section has the empty heading.
pub fn heading(file: u32, section: usize) -> &'static [u8]
    ensures { result.now ≡ heading_at (table_of file) section }
{
    headings::headings_of(file)
        .get(section)
        .copied()
        .unwrap_or(b"")
}

// The line of a section's heading at the beginning of `out`; its length.
pub fn write_heading(file: u32, section: usize, out: &mut [u8]) -> usize
    requires { written_length (heading_line (heading_at (table_of file) section)) ≤ length out.old }
    ensures { Wrote out.old 0 (written_line (heading_line (heading_at (table_of file) section))) out.new result }
{
    lines::write_heading(out, heading(file, section))
}

// The name of an entry; what is no entry has the empty name.
pub fn name(file: u32, section: usize, entry: usize) -> &'static [u8]
    ensures { result.now ≡ name_at (table_of file) section entry }
{
    if entry < entry_count(file, section) {
        groups::group_of(file).names[section_start(file, section) + entry]
    } else {
        b""
    }
}

// The line of an entry with that value at the beginning of `out`; its length.
pub fn write_entry(file: u32, section: usize, entry: usize, value: &[u8], out: &mut [u8]) -> usize
    requires { written_length (entry_line (name_at (table_of file) section entry) value.now) ≤ length out.old }
    ensures { Wrote out.old 0 (written_line (entry_line (name_at (table_of file) section entry) value.now)) out.new result }
{
    lines::write_entry(out, name(file, section, entry), value)
}
