// One file read by its table (01, Judging), for a set and alone.
#![tactic(auto)]

ghost use Rattle.std.specs.Prelude.{◌≡◌, map, ◌+◌, ◌≤◌, ◌<◌, length, take, true};
ghost use Rattle.lines.specs.Bytes.{all_printable};
ghost use Rattle.refusals.specs.Refusals.{refusal_with};
ghost use Rattle.places.specs.Places.{value_at};
ghost use Rattle.tables.specs.File.{table_of, is_file, of_number, least_sections, least_places};
ghost use Rattle.tables.specs.Value.{values_of, NumberHeld};
ghost use Rattle.tables.specs.Row.{row_count, row_kind};
ghost use Rattle.reading.specs.Tables.{most_bytes};
ghost use Rattle.reading.specs.Reading.{sections_found, check_gap, check_absent, check_kinds, kept_row, owner_row};
ghost use Rattle.reading.specs.Scanning.{Took, Ready};
ghost use Rattle.files.specs.Files.{by_hand_in};
ghost use Rattle.files.specs.Steps.{KindsOf, slots_of, ScansFile, SlotsEmpty, ValuesReady, RowsReady, WritesRows, failure, check_is, JudgesSlots, WriteReady, WritesRead, ReadsSlots, FilePlaces, ReadsText};
ghost use Rattle.files.specs.Alone.{refused_as, ReadsCleared, ReadsAlone};

use kinds::numbers::KIND_COUNT;
use lines::{Cursor, LineRead};
use places::PlacedText;
use refusals::{Refusal, RefusalKind};
use tables::row_kinds::HEADING;
use tables::{MOST_ROWS, pairs, row_kinds};

// As many bytes as a file has at most (01, Lines).
const MOST_BYTES: usize = 16384;

// What an accepted file says: its axle count, 0 for a file without axles, and whether its idle speed was entered by hand.
#[derive(Debug, Clone, Copy, PartialEq, Eq)]
pub struct FileAcceptance {
    pub axles: u32,
    pub byhand: bool,
}

// What a text that was read says: its number of sections, and the number of entry names compared (02, 4/14).
#[derive(Debug, Clone, Copy, PartialEq, Eq)]
pub struct TextRead {
    pub sections: usize,
    pub compared: usize,
}

// Why a text is refused: the kind, and the line.
#[derive(Debug, PartialEq, Eq, Clone, Copy)]
pub struct Fault {
    pub kind: RefusalKind,
    pub line: u32,
}

impl Fault {
    // The refusal of the file of this number for this fault.
    pub fn in_file(self, file: u32) -> Refusal
        ensures { result ≡ refusal_with self.kind file self.line }
    {
        Refusal {
            kind: self.kind,
            file,
            line: self.line,
        }
    }
}

// What a scan leaves of a row: the number of its line; start and length of its value. Where it was not found 0, which is no line's
// number: an `Option` would be a fourth number in each of the 64 slots that are cleared for a file. Its kind stands apart, in
// bytes copied from the table at once: in the slot it would be copied row by row.
#[derive(Clone, Copy)]
struct Slot {
    line: u32,
    start: u32,
    length: u32,
}

const EMPTY: Slot = Slot {
    line: 0,
    start: 0,
    length: 0,
};

// A row that has no line yet takes this one, with its value's place.
fn take_row(slots: &mut [Slot], row: usize, line: usize, start: usize, size: usize) -> bool
    requires { (row < length slots.old) × (line ≤ most_bytes) × (start + size ≤ most_bytes) }
    ensures { Took (slots_of slots.old) (slots_of slots.new) row line start size result }
{
    if slots[row].line != 0 {
        return false;
    }
    slots[row] = Slot {
        line: line as u32,
        start: start as u32,
        length: size as u32,
    };
    true
}

// Not inlined: the loop below ends at many places, and takes fewer instructions so (docs/BENCH.md).
#[inline(never)]
fn failed(kind: RefusalKind, line: usize) -> Result<usize, Fault>
    requires { line ≤ most_bytes }
    ensures { result ≡ failure kind line }
{
    Err(Fault {
        kind,
        line: line as u32,
    })
}

// All lines of the text, into the rows of the file's table: the first with 4, 5 or 6, or the number of entry names compared.
fn scan_lines(file: u32, text: &[u8], slots: &mut [Slot]) -> Result<usize, Fault>
    requires { Ready (table_of file) text.now (slots_of slots.old) }
    ensures { ScansFile file text.now (slots_of slots.old) (slots_of slots.new) result }
{
    // Before the first heading: the number that `find_section` answers for no section too, so an Option would be no plainer.
    let none = tables::section_count(file);
    let mut c = Cursor::new();
    let mut cur = none;
    let mut place = tables::section_place(file, none);
    let mut compared = 0;
    // No condition ends it: each kind of line goes on or returns from its own arm.
    loop {
        match c.read_line(text) {
            LineRead::End => {
                return Ok(compared);
            }
            LineRead::Bad { line } => {
                return failed(RefusalKind::LineForm, line);
            }
            LineRead::Heading { start, end, next } => {
                let section = tables::find_section(file, &text[start..end]);
                let line = next.line;
                if none <= section {
                    return failed(RefusalKind::HeadingNotExpected, line);
                }
                let found = tables::section_place(file, section);
                if !take_row(slots, found.before, line, 0, 0) {
                    return failed(RefusalKind::HeadingNotExpected, line);
                }
                cur = section;
                place = found;
                c = next;
            }
            LineRead::Entry {
                start,
                equals,
                end,
                next,
            } => {
                let line = next.line;
                if none <= cur {
                    return failed(RefusalKind::LineForm, line);
                }
                let Some(found) = tables::find_row(place, &text[start..equals]) else {
                    return failed(RefusalKind::EntryNotExpected, line);
                };
                let from = equals + 1;
                if !take_row(slots, found.row, line, from, end - from) {
                    return failed(RefusalKind::EntryNotExpected, line);
                }
                compared += found.compared;
                c = next;
            }
        }
    }
}

// How many sections were found, up to the first that was not.
fn sections_found(file: u32, slots: &[Slot]) -> usize
    requires { length slots.now ≡ row_count (table_of file) }
    ensures { result ≡ sections_found (table_of file) (slots_of slots.now).line_numbers }
{
    let n = tables::section_count(file);
    for c in 0..n {
        if slots[tables::rows_before(file, c)].line == 0 {
            return c;
        }
    }
    n
}

// 7: a line of a section after one that was not found.
fn check_gap(slots: &[Slot], rows: usize) -> Result<(), Fault>
    requires { rows ≤ length slots.now }
    ensures { check_is result ≡ check_gap (slots_of slots.now).line_numbers rows }
{
    if slots[rows..].iter().any(|slot| 0 < slot.line) {
        return Err(Fault {
            kind: RefusalKind::SectionAbsent,
            line: 0,
        });
    }
    Ok(())
}

// The row of the heading that a row stands under.
fn owner_row(kinds: &[u8], row: usize) -> usize
    requires { row < length kinds.now }
    ensures { (result ≡ owner_row (map row_kind kinds.now) row) × (result ≤ row) }
{
    for r in (1..=row).rev() {
        if KIND_COUNT <= kinds[r] {
            return r;
        }
    }
    0
}

// 8: the first row that was not found.
fn check_absent(kinds: &[u8], slots: &[Slot], rows: usize) -> Result<(), Fault>
    requires { (rows ≤ length kinds.now) × (rows ≤ length slots.now) }
    ensures { check_is result ≡ check_absent (map row_kind kinds.now) (slots_of slots.now).line_numbers rows }
{
    for r in 0..rows {
        if slots[r].line == 0 {
            return Err(Fault {
                kind: RefusalKind::EntryAbsent,
                line: slots[owner_row(kinds, r)].line,
            });
        }
    }
    Ok(())
}

// Whether the value of a row is empty or of its kind.
fn row_kept(kind: u8, text: &[u8], slot: Slot) -> bool
    requires { (slot.start + slot.length ≤ length text.now)
        × (all_printable (value_at text.now (slot.start, slot.length)) ≡ true) }
    ensures { result ≡ kept_row (row_kind kind) (value_at text.now (slot.start, slot.length)) }
{
    if slot.length == 0 || KIND_COUNT <= kind {
        return true;
    }
    let start = slot.start as usize;
    let end = start + slot.length as usize;
    kinds::printable_kind_ok(kind, &text[start..end])
}

// 9: the first row whose value is of the wrong kind.
fn check_kinds(kinds: &[u8], text: &[u8], slots: &[Slot], rows: usize) -> Result<(), Fault>
    requires { ValuesReady kinds.now text.now slots.now rows }
    ensures { check_is result ≡ check_kinds (map row_kind kinds.now) text.now (slots_of slots.now) rows }
{
    for r in 0..rows {
        if !row_kept(kinds[r], text, slots[r]) {
            return Err(Fault {
                kind: RefusalKind::WrongKind,
                line: slots[r].line,
            });
        }
    }
    Ok(())
}

// 7, 8, 9, of a text that was scanned.
fn judge_slots(file: u32, kinds: &[u8], text: &[u8], slots: &[Slot]) -> Result<usize, Fault>
    requires { KindsOf file kinds.now × Ready (table_of file) text.now (slots_of slots.now) }
    ensures { JudgesSlots (table_of file) (of_number 0 least_sections file) text.now (slots_of slots.now) result }
{
    let count = sections_found(file, slots);
    let rows = tables::rows_before(file, count);
    if count < tables::least_sections(file) {
        return Err(Fault {
            kind: RefusalKind::SectionAbsent,
            line: 0,
        });
    }
    check_gap(slots, rows)?;
    check_absent(kinds, slots, rows)?;
    check_kinds(kinds, text, slots, rows)?;
    Ok(count)
}

// The entries among the first rows, each with its pair and its line, from a first pair on.
fn write_rows(kinds: &[u8], first: usize, slots: &[Slot], rows: usize, places: &mut [u32])
    requires { RowsReady kinds.now first slots.now rows places.old }
    ensures { WritesRows (take rows (map row_kind kinds.now)) first (slots_of slots.now) places.old places.new }
{
    // Entries alone have places, so `k` does not go up with each row.
    let mut k = first;
    for r in 0..rows {
        if kinds[r] < KIND_COUNT {
            let slot = slots[r];
            places::set_triple(places, k, slot.start, slot.length, slot.line);
            k += 1;
        }
    }
}

// The entries of a text that was read, of its first sections.
fn write_read(file: u32, kinds: &[u8], sections: usize, slots: &[Slot], places: &mut [u32])
    requires { KindsOf file kinds.now × WriteReady file sections slots.now places.old }
    ensures { WritesRead file sections (slots_of slots.now) places.old places.new }
{
    let rows = tables::rows_before(file, sections);
    let first = tables::first_pair(file);
    write_rows(kinds, first, slots, rows, places);
}

// 4 to 9, into slots that are empty.
fn read_slots(file: u32, kinds: &[u8], text: &[u8], slots: &mut [Slot]) -> Result<TextRead, Fault>
    requires { SlotsEmpty file kinds.now text.now (slots_of slots.old) }
    ensures { ReadsSlots file text.now (slots_of slots.new) result }
{
    let compared = scan_lines(file, text, slots)?;
    let sections = judge_slots(file, kinds, text, slots)?;
    Ok(TextRead { sections, compared })
}

// 4 to 9, into slots that are empty; then the places of what was read.
fn read_into(
    file: u32,
    kinds: &[u8],
    text: &[u8],
    slots: &mut [Slot],
    places: &mut [u32],
) -> Result<TextRead, Refusal>
    requires { FilePlaces file places.old × SlotsEmpty file kinds.now text.now (slots_of slots.old) }
    ensures { ReadsText file text.now result places.old places.new }
{
    let read = read_slots(file, kinds, text, slots).map_err(|x| x.in_file(file))?;
    write_read(file, kinds, read.sections, slots, places);
    Ok(read)
}

// 3 to 9 of one file, the pairs and the lines of its entries into the places. Refused, these stay.
pub fn read_text(file: u32, text: &[u8], places: &mut [u32]) -> Result<TextRead, Refusal>
    requires { FilePlaces file places.old }
    ensures { ReadsText file text.now result places.old places.new }
{
    if MOST_BYTES < text.len() {
        return Err(Refusal {
            kind: RefusalKind::FileTooLong,
            file,
            line: 0,
        });
    }
    let mut slots = [EMPTY; MOST_ROWS];
    let mut kinds = [HEADING; MOST_ROWS];
    row_kinds::write_kinds(file, &mut kinds);
    let n = tables::row_count(file);
    read_into(file, &kinds[..n], text, &mut slots[..n], places)
}

fn refused(kind: RefusalKind, file: u32, line: u32) -> Result<FileAcceptance, Refusal>
    ensures { result ≡ refused_as kind file line }
{
    Err(Refusal { kind, file, line })
}

// Whether the idle speed of a file whose pairs are in the places was entered by hand (02, 1/14). Only gas has one.
pub fn is_by_hand(file: u32, axles: usize, own: PlacedText<'_>) -> bool
    requires { NumberHeld file axles own.text.now own.places.now }
    ensures { result ≡ by_hand_in file (λ f. values_of f axles own.entry.text.now own.entry.places.now) }
{
    if file != tables::GAS {
        return false;
    }
    kinds::is_by_hand(own.value(pairs::GAS_NUM_GIRI_MOTORE_MIN))
}

// One file alone, whose places are cleared: 11, then 3 to 9.
fn read_cleared(file: u32, text: &[u8], places: &mut [u32]) -> Result<FileAcceptance, Refusal>
    requires { (least_places ≤ length places.old) × (is_file file ≡ true) }
    ensures { ReadsCleared file text.now places.old places.new result }
{
    if text.is_empty() {
        return refused(RefusalKind::SliceNotAsDue, file, 0);
    }
    let read = read_text(file, text, places)?;
    let axles = read.sections - tables::fixed_section_count(file);
    let byhand = is_by_hand(file, axles, PlacedText { text, places });
    Ok(FileAcceptance {
        axles: axles as u32,
        byhand,
    })
}

// One file read alone (01, Writing): 1, 16, 11, then 3 to 9.
pub fn read_alone(file: u32, text: &[u8], places: &mut [u32]) -> Result<FileAcceptance, Refusal>
    ensures { ReadsAlone file text.now places.old places.new result }
{
    let least = tables::least_places();
    if places.len() < least {
        return refused(RefusalKind::PlacesTooShort, 0, 0);
    }
    places::clear(places, least);
    if !tables::is_file(file) {
        return refused(RefusalKind::FileOrAxles, file, 0);
    }
    read_cleared(file, text, places)
}
