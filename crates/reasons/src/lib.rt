// Why an entry is due or not, and a file given or not (01, Due entries and row 11): what is asked of it, and the values
// that decide, each with its file, its entry and the test that it must pass. Tests, too, are answered here, of a value alone.
#![tactic(auto)]

ghost use Rattle.std.specs.Prelude.{◌≡◌, ◌++◌, true};
ghost use Rattle.tables.specs.File.{File};
ghost use Rattle.due.specs.Booking.{category_in};
ghost use Rattle.reasons.specs.Tests.{is_test, test_of, passes_some};
ghost use Rattle.reasons.specs.Reasons.{four, reason_numbers, reasons_of, own_of, own_numbered};
ghost use Rattle.reasons.specs.Asked.{asked_number, asked_of, entry_asked, entry_reasons, file_asked, file_reasons, is_of_seven, field_entry};

use due::{Condition, Version};
use kinds::numbers::CATEGORIES;
use tables::{AC2, ACC, DRIFT, GAS, IDENTIFICATION, OPACITY, SUSPENSION, pairs};

// What is asked. Numbers and no enum, as those of the tests: the C interface passes them, and a caller may ask of any.
const ALWAYS: u32 = 1;

const FREE: u32 = 3;

const WHEN: u32 = 4;

const ONLY_WHEN: u32 = 5;

// The numbers of the tests.
const MOPED: u32 = 1;

const MOTORCYCLE: u32 = 2;

const M_OR_N: u32 = 3;

const NOT_O: u32 = 4;

const NOT_L: u32 = 5;

const SIX_BYTES: u32 = 6;

const PETROL: u32 = 7;

const DIESEL: u32 = 8;

const LATE_DIRECTIVE: u32 = 9;

const NO_DIRECTIVE: u32 = 10;

const SERIAL_LINK: u32 = 11;

const EXTERNAL_COUNTER: u32 = 12;

const VERSION_200: u32 = 13;

const VERSION_210: u32 = 14;

const NINE_STEM: u32 = 15;

// Entries of AC2 and of gas, by their places in entry order: each its pair less the file's first.
const PLATE: u32 = pairs::AC2_TARGA_NOMINALE as u32;

const CATEGORY: u32 = pairs::AC2_CATEGORIA_INTERNAZIONALE as u32;

const FUEL: u32 = pairs::AC2_ALIMENTAZIONE_1 as u32;

const CAR_DIRECTIVE: u32 = pairs::AC2_DIRETTIVA_BENZINA_AUTO as u32;

const MOTORCYCLE_DIRECTIVE: u32 = pairs::AC2_DIRETTIVA_MOTOCICLO as u32;

const VERSION: u32 = (pairs::GAS_NUM_VERSIONE_PROTOCOLLO - pairs::GAS_FIRST) as u32;

const LINK: u32 = (pairs::GAS_TIPO_COLLEGAMENTO - pairs::GAS_FIRST) as u32;

// The number of a file with links, and its own entries that conditions look at; the number of its entries for one that it has not: a
// number as all that C is handed.
#[derive(Clone, Copy)]
struct OwnEntries {
    file: u32,
    link: u32,
    version: u32,
    counterlink: u32,
    counterversion: u32,
    benchversion: u32,
}

const GAS_ENTRIES: OwnEntries = OwnEntries {
    file: GAS,
    link: LINK,
    version: VERSION,
    counterlink: (pairs::GAS_TIPO_COLLEGAMENTO_CONTAGIRI - pairs::GAS_FIRST) as u32,
    counterversion: (pairs::GAS_NUM_VERSIONE_PROTOCOLLO_CONTAGIRI - pairs::GAS_FIRST) as u32,
    benchversion: (pairs::GAS_NUM_VERSIONE_PROTOCOLLO_PROVA_VELOCITA - pairs::GAS_FIRST) as u32,
};

const OPACITY_ENTRIES: OwnEntries = OwnEntries {
    file: OPACITY,
    link: (pairs::OPACITY_TIPO_COLLEGAMENTO - pairs::OPACITY_FIRST) as u32,
    version: (pairs::OPACITY_NUM_VERSIONE_PROTOCOLLO - pairs::OPACITY_FIRST) as u32,
    counterlink: (pairs::OPACITY_TIPO_COLLEGAMENTO_CONTAGIRI - pairs::OPACITY_FIRST) as u32,
    counterversion: (pairs::OPACITY_NUM_VERSIONE_PROTOCOLLO_CONTAGIRI
        - pairs::OPACITY_FIRST) as u32,
    benchversion: 55,
};

// The seven of the identification answer, in the order of its fields.
static FIELDS: [u32; 7] = [
    (pairs::GAS_MARCA_ANALIZZATORE - pairs::GAS_FIRST) as u32,
    (pairs::GAS_TIPO_ANALIZZATORE - pairs::GAS_FIRST) as u32,
    (pairs::GAS_NUM_OMOLOGA_ANALIZZATORE - pairs::GAS_FIRST) as u32,
    (pairs::GAS_NUM_SERIE_ANALIZZATORE - pairs::GAS_FIRST) as u32,
    (pairs::GAS_DATA_SCADENZA_ANALIZZATORE - pairs::GAS_FIRST) as u32,
    (pairs::GAS_NUM_VERS_SOFTWARE_ANALIZZATORE - pairs::GAS_FIRST) as u32,
    VERSION,
];

#[tactic(auto, unfolding(kinds::specs::Value::words_of, kinds::specs::Value::numbered_lists))]
fn category_of(value: &[u8]) -> usize
    ensures { result ≡ category_in value.now }
{
    kinds::word_index(CATEGORIES, value)
}

// Whether there is a test of this number.
#[tactic(auto, unfolding(crate::specs::Tests::test_of))]
pub fn is_test(test: u32) -> bool
    ensures { result ≡ is_test test }
{
    matches!(test, 1..=15)
}

// Whether a value passes the test of this number; none passes where there is no such test.
#[tactic(auto, unfolding(crate::specs::Tests::passes, crate::specs::Tests::test_of))]
pub fn passes(test: u32, value: &[u8]) -> bool
    ensures { result ≡ passes_some (test_of test) value.now }
{
    match test {
        MOPED => due::is_moped(category_of(value)),
        MOTORCYCLE => due::is_motorcycle(category_of(value)),
        M_OR_N => due::is_m_or_n(category_of(value)),
        NOT_O => !due::is_o(category_of(value)),
        NOT_L => !due::is_l(category_of(value)),
        SIX_BYTES => value.len() == 6,
        PETROL => due::is_petrol(due::fuel_of(value)),
        DIESEL => due::is_diesel(due::fuel_of(value)),
        LATE_DIRECTIVE => due::is_late(value),
        NO_DIRECTIVE => due::is_nessuna(value),
        SERIAL_LINK => due::is_serial(value),
        EXTERNAL_COUNTER => due::is_external(value),
        VERSION_200 => due::version_of(value) == Version::V200,
        VERSION_210 => due::version_of(value) == Version::V210,
        NINE_STEM => rules::stated_of(value).nine,
        _ => false,
    }
}

// What a condition asks of its entries, as the C interface's number. No `From`, which would have to stand in `due`, far from the tests.
#[tactic(auto, unfolding(crate::specs::Asked::asked_of))]
fn asked_number(condition: Condition) -> u32
    ensures { result ≡ asked_number (asked_of condition) }
{
    match condition {
        Condition::Always => ALWAYS,
        Condition::Free => FREE,
        _ => WHEN,
    }
}

// What is asked of an entry; 0 where there is no such entry, a number as all that are asked for.
#[tactic(auto, unfolding(crate::specs::Asked::entry_asked))]
pub fn entry_asked(file: u32, entry: u32) -> u32
    ensures { result ≡ entry_asked file entry }
{
    if (entry as usize) < tables::room(file) {
        return asked_number(due::condition_at(file, entry as usize));
    }
    0
}

// What is asked of a file; 0 where there is no such file, a number as all that are asked for.
#[tactic(auto, unfolding(crate::specs::Asked::file_asked, crate::specs::Asked::given_asked, tables::specs::File::of_number))]
pub fn file_asked(file: u32) -> u32
    ensures { result ≡ file_asked file }
{
    match file {
        AC2 => ALWAYS,
        ACC => ONLY_WHEN,
        DRIFT | SUSPENSION => FREE,
        GAS | IDENTIFICATION | OPACITY => WHEN,
        _ => 0,
    }
}

// A reason in numbers: its test, the file and the entry of its value, its group. Of a group one reason must hold.
type Reason = [u32; 4];

const NO_REASON: Reason = [0; 4];

// At most three. One array of numbers, as the C interface hands it out; number by number, which three copies would not make plainer.
fn joined(a: Reason, b: Reason, c: Reason) -> [u32; 12]
    ensures { result ≡ four a ++ (four b ++ four c) }
{
    [
        a[0], a[1], a[2], a[3], b[0], b[1], b[2], b[3], c[0], c[1], c[2], c[3],
    ]
}

const NO_REASONS: [u32; 12] = [0; 12];

// Whose own entries are looked at for the file of this number; of a file without links no condition looks at any.
fn own_of(file: u32) -> OwnEntries
    ensures { result ≡ own_of (own_numbered file) }
{
    match file {
        OPACITY => OPACITY_ENTRIES,
        _ => GAS_ENTRIES,
    }
}

// The reasons of a condition in the file that has these entries.
#[tactic(auto, unfolding(crate::specs::Reasons::reasons_of, tables::specs::Value::place_of, kinds::specs::Value::word_index, lines::specs::Bytes::same_bytes, tables::specs::File::entries, tables::specs::Section::entries_of, tables::specs::File::sections, tables::specs::File::fixed_sections, tables::specs::File::axle_sections, tables::specs::Entries::new_booking))]
fn condition_reasons(condition: Condition, own: OwnEntries) -> [u32; 12]
    ensures { (f : File) → own ≡ own_of f → result ≡ reason_numbers (reasons_of f condition) }
{
    match condition {
        Condition::Always => NO_REASONS,
        Condition::Free => NO_REASONS,
        Condition::CodiceCIC => joined(
            [MOPED, AC2, CATEGORY, 1],
            [SIX_BYTES, AC2, PLATE, 2],
            NO_REASON,
        ),
        Condition::Alimentazione => joined([NOT_O, AC2, CATEGORY, 1], NO_REASON, NO_REASON),
        Condition::DieselEntry => joined([DIESEL, AC2, FUEL, 1], NO_REASON, NO_REASON),
        Condition::CarDirective => joined(
            [PETROL, AC2, FUEL, 1],
            [M_OR_N, AC2, CATEGORY, 2],
            NO_REASON,
        ),
        Condition::MotorcycleDirective => joined(
            [PETROL, AC2, FUEL, 1],
            [MOTORCYCLE, AC2, CATEGORY, 2],
            NO_REASON,
        ),
        Condition::COMinAcc => joined(
            [LATE_DIRECTIVE, AC2, CAR_DIRECTIVE, 1],
            NO_REASON,
            NO_REASON,
        ),
        Condition::ExternalCounter => joined(
            [EXTERNAL_COUNTER, own.file, own.counterlink, 1],
            NO_REASON,
            NO_REASON,
        ),
        Condition::SpeedTest => joined(
            [MOPED, AC2, CATEGORY, 1],
            [NO_DIRECTIVE, AC2, MOTORCYCLE_DIRECTIVE, 1],
            NO_REASON,
        ),
        Condition::DeviceKey => joined(
            [VERSION_210, own.file, own.version, 1],
            [SERIAL_LINK, own.file, own.link, 2],
            NO_REASON,
        ),
        Condition::DeviceChecksum => joined(
            [VERSION_200, own.file, own.version, 1],
            [SERIAL_LINK, own.file, own.link, 2],
            NO_REASON,
        ),
        Condition::CounterKey => joined(
            [VERSION_210, own.file, own.counterversion, 1],
            [EXTERNAL_COUNTER, own.file, own.counterlink, 2],
            NO_REASON,
        ),
        Condition::CounterChecksum => joined(
            [VERSION_200, own.file, own.counterversion, 1],
            [EXTERNAL_COUNTER, own.file, own.counterlink, 2],
            NO_REASON,
        ),
        Condition::SpeedTestKey => joined(
            [VERSION_210, own.file, own.benchversion, 1],
            [MOPED, AC2, CATEGORY, 2],
            [NO_DIRECTIVE, AC2, MOTORCYCLE_DIRECTIVE, 2],
        ),
        Condition::SpeedTestChecksum => joined(
            [VERSION_200, own.file, own.benchversion, 1],
            [MOPED, AC2, CATEGORY, 2],
            [NO_DIRECTIVE, AC2, MOTORCYCLE_DIRECTIVE, 2],
        ),
    }
}

// The reasons of an entry, by its file's number and its place in entry order.
pub fn entry_reasons(file: u32, entry: u32) -> [u32; 12]
    ensures { result ≡ entry_reasons file entry }
{
    condition_reasons(due::condition_at(file, entry as usize), own_of(file))
}

// The reasons for which a file is given or not.
pub fn file_reasons(file: u32) -> [u32; 12]
    ensures { result ≡ file_reasons file }
{
    match file {
        ACC => joined([NOT_L, AC2, CATEGORY, 1], [NINE_STEM, 0, 0, 1], NO_REASON),
        GAS => joined([PETROL, AC2, FUEL, 1], NO_REASON, NO_REASON),
        IDENTIFICATION => joined([SERIAL_LINK, GAS, LINK, 1], NO_REASON, NO_REASON),
        OPACITY => joined(
            [DIESEL, AC2, FUEL, 1],
            [M_OR_N, AC2, CATEGORY, 2],
            NO_REASON,
        ),
        _ => NO_REASONS,
    }
}

// Whether a field of the identification answer, counted from 0, is one of the seven that gas has too.
pub fn is_of_seven(field: u32) -> bool
    ensures { result ≡ is_of_seven field }
{
    matches!(field, 3..=9)
}

// The entry of gas whose value that field is.
pub fn field_entry(field: u32) -> u32
    requires { is_of_seven field ≡ true }
    ensures { result ≡ field_entry field }
{
    FIELDS[(field - 3) as usize]
}
