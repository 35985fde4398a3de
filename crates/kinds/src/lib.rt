// Kinds of value (01, Kinds of value): judges and readers of a value's own bytes.
#![tactic(auto)]

pub mod numbers; // numbers.rt: the numbers of the kinds and of the lists of words
pub mod shapes; // shapes.rt: what a filled value of a kind must look like
pub mod words; // words.rt: the words of the kinds

ghost use Rattle.std.specs.Prelude.{◌≡◌, ℕ, IsTrue, IfSome, get_or, true, cond, ◌+◌, ◌*◌, ◌≤◌, ◌<◌, ◌^◌, [], ◌∷◌, length, take, drop, leb, position, Some, None};
ghost use Rattle.lines.specs.Bytes.{all_printable, same_bytes};
ghost use Rattle.kinds.specs.Kind.{kind_of};
ghost use Rattle.kinds.specs.Digits.{is_digit, all_digits, number as Digits·number};
ghost use Rattle.kinds.specs.Value.{is_number, is_fixed, is_leap, days_in, is_year, is_gregorian, are_digits, is_day, is_time, word_index, is_word, words_of, is_drift, bare as Value·bare, is_temperature, is_plate, is_first_date, is_first_day, is_s_or_n, all_s_or_n, is_positions, kind_ok, kind_kept};
ghost use Rattle.kinds.specs.Meaning.{number_read, hundredths as Meaning·hundredths, signed as Meaning·signed, signed_read, drift_read, revs, revs_read, first_day_read, date_of, date_read, seconds_of, time_read};

// The parts of ddmmyyyy.
#[derive(Debug, PartialEq, Eq, Clone, Copy)]
pub struct Date {
    pub day: u32,
    pub month: u32,
    pub year: u32,
}

// Revolutions per minute, and whether they were entered by hand.
#[derive(Debug, PartialEq, Eq, Clone, Copy)]
pub struct Revs {
    pub number: u32,
    pub byhand: bool,
}

fn is_digit(c: u8) -> bool
    ensures { result ≡ is_digit c }
{
    matches!(c, b'0'..=b'9')
}

pub fn all_digits(part: &[u8]) -> bool
    ensures { result ≡ all_digits part.now }
{
    part.iter().all(|&c| is_digit(c))
}

// The number that digits spell: nine of them fit.
#[tactic(auto, unfolding(crate::specs::Digits::number_from), using(crate::proofs::Laws::numbers))]
fn number(part: &[u8]) -> u32
    requires { (length part.now ≤ 9) × (all_digits part.now ≡ true) }
    ensures { (result ≡ Digits·number part.now) × (result < 10 ^ length part.now) }
{
    let mut n = 0;
    for &c in part {
        n = n * 10 + u32::from(c - b'0');
    }
    n
}

// N w
#[tactic(auto, unfolding(crate::specs::Value::is_number))]
fn is_number(value: &[u8], width: usize) -> bool
    ensures value { result ≡ is_number width value.now }
    ensures digits { IsTrue result → (length value.now ≤ width) × (all_digits value.now ≡ true) }
{
    1 <= value.len() && value.len() <= width && all_digits(value)
}

// N(d) w
#[tactic(auto, unfolding(crate::specs::Value::is_fixed))]
fn is_fixed(value: &[u8], decimals: usize, width: usize) -> bool
    requires { decimals < 16 }
    ensures { result ≡ is_fixed decimals width value.now }
{
    let n = value.len();
    if n < decimals + 2 {
        return false;
    }
    let p = n - decimals - 1;
    n <= width && value[p] == b'.' && all_digits(&value[..p]) && all_digits(&value[p + 1..])
}

#[tactic(auto, unfolding(crate::specs::Value::is_leap))]
fn is_leap(year: u32) -> bool
    ensures { result ≡ is_leap year }
{
    year % 4 == 0 && (year % 100 != 0 || year % 400 == 0)
}

#[tactic(auto, unfolding(crate::specs::Value::days_in))]
fn days_in(year: u32, month: u32) -> u32
    ensures { result ≡ days_in year month }
{
    match month {
        2 => if is_leap(year) { 29 } else { 28 },
        4 | 6 | 9 | 11 => 30,
        _ => 31,
    }
}

// Whether a month has this day: each has 28, so that most days are not looked up.
#[tactic(auto, unfolding(crate::specs::Value::days_in))]
fn has_day(year: u32, month: u32, day: u32) -> bool
    ensures { result ≡ leb day (days_in year month) }
{
    day <= 28 || day <= days_in(year, month)
}

#[tactic(auto, unfolding(crate::specs::Value::is_year))]
fn is_year(year: u32) -> bool
    ensures { result ≡ is_year year }
{
    matches!(year, 1900..=2099)
}

#[tactic(auto, unfolding(crate::specs::Value::is_gregorian))]
fn is_gregorian(date: Date) -> bool
    ensures { result ≡ is_gregorian date.day date.month date.year }
{
    let Date { day, month, year } = date;
    is_year(year) && matches!(month, 1..=12) && 1 <= day && has_day(year, month, day)
}

// Exactly `count` digits.
#[tactic(auto, unfolding(crate::specs::Value::are_digits))]
fn are_digits(value: &[u8], count: usize) -> bool
    ensures { result ≡ are_digits count value.now }
{
    value.len() == count && all_digits(value)
}

// The numbers that four pairs of digits spell. All eight bytes are taken at once, as one number with the first lowest: without its
// 30 hex a digit is 0 to 9, and 76 hex more sets the high bit of what is 10 or more. Then ten times each digit and the one after it
// are at most 99, so that no sum carries into the next, and every other sum is a pair's.
fn pairs_of(bytes: [u8; 8]) -> Option<[u32; 4]>
    ensures small { IfSome result (λ ns. (k : ℕ) → get_or ns k 0 < 256) }
    ensures numbers { result ≡ cond (all_digits bytes) (Some (Digits·number (take 2 bytes) ∷ Digits·number (take 2 (drop 2 bytes)) ∷ Digits·number (take 2 (drop 4 bytes)) ∷ Digits·number (take 2 (drop 6 bytes)) ∷ [])) None }
{
    let digits = u64::from_le_bytes(bytes) ^ 0x3030303030303030;
    let above = (digits & 0x7f7f7f7f7f7f7f7f) + 0x7676767676767676;
    if (above | digits) & 0x8080808080808080 != 0 {
        return None;
    }
    let sums = digits * 10 + digits / 0x100;
    Some([
        (sums % 0x100) as u32,
        (sums / 0x10000 % 0x100) as u32,
        (sums / 0x100000000 % 0x100) as u32,
        (sums / 0x1000000000000 % 0x100) as u32,
    ])
}

// The date that eight digits spell, which need be no day.
#[tactic(auto, unfolding(crate::specs::Value::are_digits), using(crate::proofs::Pairs::dates))]
fn date_of(value: &[u8]) -> Option<Date>
    ensures { result ≡ cond (are_digits 8 value.now) (Some (date_of value.now)) None }
{
    let bytes = <[u8; 8]>::try_from(value).ok()?;
    let [day, month, century, year] = pairs_of(bytes)?;
    Some(Date {
        day,
        month,
        year: century * 100 + year,
    })
}

// A D as its date.
#[tactic(auto, unfolding(crate::specs::Meaning::date_read, crate::specs::Value::is_day))]
pub fn read_date(value: &[u8]) -> Option<Date>
    ensures { result ≡ date_read value.now }
{
    let date = date_of(value)?;
    is_gregorian(date).then_some(date)
}

// D
#[tactic(auto, unfolding(crate::specs::Meaning::date_read))]
fn is_day(value: &[u8]) -> bool
    ensures { result ≡ is_day value.now }
{
    read_date(value).is_some()
}

// An H as the seconds of its day that are over. Two zeros make eight digits of its six.
#[tactic(auto, unfolding(crate::specs::Meaning::time_read, crate::specs::Meaning::seconds_of, crate::specs::Value::is_time, crate::specs::Value::are_digits), using(crate::proofs::Pairs::times))]
pub fn read_time(value: &[u8]) -> Option<u32>
    ensures { result ≡ time_read value.now }
{
    let &[a, b, c, d, e, f] = value else {
        return None;
    };
    let [hour, minute, second, _] = pairs_of([a, b, c, d, e, f, b'0', b'0'])?;
    if hour <= 23 && minute <= 59 && second <= 59 {
        Some(hour * 3600 + minute * 60 + second)
    } else {
        None
    }
}

// H
#[tactic(auto, unfolding(crate::specs::Meaning::time_read))]
fn is_time(value: &[u8]) -> bool
    ensures { result ≡ is_time value.now }
{
    read_time(value).is_some()
}

// A day of DataPrimaImm: 00 is a day that is not known, and with it month 00 one that is not known.
#[tactic(auto, unfolding(crate::specs::Value::is_first_date))]
fn is_first_date(date: Date) -> bool
    ensures { result ≡ is_first_date date.day date.month date.year }
{
    if date.day == 0 {
        is_year(date.year) && matches!(date.month, 0..=12)
    } else {
        is_gregorian(date)
    }
}

// DataPrimaImm
#[tactic(auto, unfolding(crate::specs::Meaning::first_day_read))]
fn is_first_day(value: &[u8]) -> bool
    ensures { result ≡ is_first_day value.now }
{
    read_first_day(value).is_some()
}

// Deriva
#[tactic(auto, unfolding(crate::specs::Value::is_drift, crate::specs::Value::starts_with))]
fn is_drift(value: &[u8]) -> bool
    ensures { result ≡ is_drift value.now }
{
    match value {
        [b'-', rest @ ..] => is_fixed(rest, 2, 5),
        _ => is_fixed(value, 2, 5),
    }
}

// A value without the `#` that stands before it where it was entered by hand.
#[tactic(auto, unfolding(crate::specs::Value::bare, crate::specs::Value::starts_with))]
fn bare(value: &[u8]) -> &[u8]
    ensures { result.now ≡ Value·bare value.now }
{
    match value {
        [b'#', rest @ ..] => rest,
        _ => value,
    }
}

// TempAmbiente without `#`: -99 to 999.
#[tactic(auto, unfolding(crate::specs::Value::is_temperature, crate::specs::Value::starts_with))]
fn is_temperature(value: &[u8]) -> bool
    ensures { result ≡ is_temperature value.now }
{
    match value {
        [b'-', rest @ ..] => is_number(rest, 2),
        _ => is_number(value, 3),
    }
}

fn is_s_or_n(c: u8) -> bool
    ensures { result ≡ is_s_or_n c }
{
    c == b'S' || c == b'N'
}

fn all_s_or_n(part: &[u8]) -> bool
    ensures { result ≡ all_s_or_n part.now }
{
    part.iter().all(|&c| is_s_or_n(c))
}

// PosAssiStaz
#[tactic(auto, unfolding(crate::specs::Value::is_positions))]
fn is_positions(value: &[u8]) -> bool
    ensures { result ≡ is_positions value.now }
{
    value.len() == 9 && all_s_or_n(value)
}

// Where a value stands among words.
fn place_among(words: &[&[u8]], value: &[u8]) -> Option<usize>
    ensures { result ≡ position (λ w. same_bytes value.now w.now) words.now }
{
    words.iter().position(|word| lines::equal(value, word))
}

// The place of a value among the words of a list, by the list's number; their count where it is none of them: callers go by
// ranges of places, in which that is one more, so an Option would be no plainer.
pub fn word_index(list: u8, value: &[u8]) -> usize
    ensures { result ≡ word_index (words_of list) value.now }
{
    let words = words::in_list(list);
    place_among(words, value).unwrap_or(words.len())
}

// a word
fn is_word(list: u8, value: &[u8]) -> bool
    ensures { result ≡ is_word (words_of list) value.now }
{
    place_among(words::in_list(list), value).is_some()
}

// S and C of a filled value of printable bytes: only the length is left to test.
#[tactic(auto, unfolding(crate::specs::Value::kind_ok, crate::specs::Value::is_string, crate::specs::Value::is_exact, crate::specs::Kind::kind_of, crate::specs::Kind::numbered))]
fn length_ok(kind: u8, value: &[u8]) -> bool
    requires { (kind ≤ 6) × (1 ≤ length value.now) × (all_printable value.now ≡ true) }
    ensures { result ≡ kind_ok (kind_of kind) value.now }
{
    match kind {
        numbers::S_10 => value.len() <= 10,
        numbers::S_64 => value.len() <= 64,
        numbers::S_92 => value.len() <= 92,
        numbers::S_320 => value.len() <= 320,
        numbers::C_4 => value.len() == 4,
        numbers::C_5 => value.len() == 5,
        _ => value.len() == 172,
    }
}

// S and C.
#[tactic(auto, using(crate::proofs::Laws::texts))]
fn is_text(kind: u8, value: &[u8]) -> bool
    requires { kind ≤ 6 }
    ensures { result ≡ kind_ok (kind_of kind) value.now }
{
    1 <= value.len() && lines::all_printable(value) && length_ok(kind, value)
}

// Targa
#[tactic(auto, unfolding(crate::specs::Value::is_plate, crate::specs::Value::kind_ok, crate::specs::Kind::kind_of, crate::specs::Kind::numbered))]
fn is_plate(value: &[u8]) -> bool
    ensures { result ≡ is_plate value.now }
{
    4 <= value.len() && is_text(numbers::S_10, value)
}

// All other kinds; a number that no kind has lets no value in. The nine kinds with words stand in `of_kind` too: one arm for
// them, which would go by it, lists them all the same, and tells them apart twice (it was tried).
#[tactic(auto, unfolding(crate::specs::Value::kind_ok, crate::specs::Value::words_of, crate::specs::Value::numbered_lists, crate::specs::Kind::kind_of, crate::specs::Kind::numbered))]
fn is_other(kind: u8, value: &[u8]) -> bool
    requires { 7 ≤ kind }
    ensures { result ≡ kind_ok (kind_of kind) value.now }
{
    match kind {
        numbers::N_1 => is_number(value, 1),
        numbers::N_2 => is_number(value, 2),
        numbers::N_3 => is_number(value, 3),
        numbers::N_5 => is_number(value, 5),
        numbers::FIXED_3_5 => is_fixed(value, 3, 5),
        numbers::FIXED_2_5 => is_fixed(value, 2, 5),
        numbers::D => is_day(value),
        numbers::H => is_time(value),
        numbers::DERIVA => is_drift(value),
        numbers::N_BY_HAND_5 => is_number(bare(value), 5),
        numbers::DATA_PRIMA_IMM => is_first_day(value),
        numbers::ANNO_PRIMA_IMM => are_digits(value, 4),
        numbers::POS_ASSI_STAZ => is_positions(value),
        numbers::VEHICLE_TYPE => is_word(numbers::VEHICLE_TYPES, value),
        numbers::CATEGORY => is_word(numbers::CATEGORIES, value),
        numbers::YES_NO => is_word(numbers::YES_NO_WORDS, value),
        numbers::PETROL_DIRECTIVE => is_word(numbers::PETROL_DIRECTIVES, value),
        numbers::BRAKE_CONTROL => is_word(numbers::BRAKE_CONTROLS, value),
        numbers::LINK => is_word(numbers::LINKS, value),
        numbers::GAS_LINK => is_word(numbers::GAS_LINKS, value),
        numbers::COUNTER_LINK => is_word(numbers::COUNTER_LINKS, value),
        numbers::TARGA => is_plate(value),
        numbers::FIXED_1_3 => is_fixed(value, 1, 3),
        numbers::FIXED_BY_HAND_1_5 => is_fixed(bare(value), 1, 5),
        numbers::TEMP_AMBIENTE => is_temperature(bare(value)),
        numbers::N_BY_HAND_3 => is_number(bare(value), 3),
        numbers::OUTCOME => is_word(numbers::OUTCOMES, value),
        _ => false,
    }
}

// The judge of a value by the number of its kind; a number that no kind has lets no value in.
pub fn kind_ok(kind: u8, value: &[u8]) -> bool
    ensures { result ≡ kind_ok (kind_of kind) value.now }
{
    if kind <= numbers::C_172 {
        is_text(kind, value)
    } else {
        is_other(kind, value)
    }
}

// As `kind_ok`, of a filled value of printable bytes, which one that was read from a line is.
pub fn printable_kind_ok(kind: u8, value: &[u8]) -> bool
    requires { (1 ≤ length value.now) × (all_printable value.now ≡ true) }
    ensures { result ≡ kind_ok (kind_of kind) value.now }
{
    if kind <= numbers::C_172 {
        length_ok(kind, value)
    } else {
        is_other(kind, value)
    }
}

// Whether a value is empty, or filled and of its kind.
#[tactic(auto, unfolding(crate::specs::Value::kind_kept))]
pub fn kind_kept(kind: u8, value: &[u8]) -> bool
    ensures { result ≡ kind_kept (kind_of kind) value.now }
{
    value.is_empty() || kind_ok(kind, value)
}

// A number of 1 to 9 digits.
#[tactic(auto, unfolding(crate::specs::Meaning::number_read))]
pub fn read_number(value: &[u8]) -> Option<u32>
    ensures { result ≡ number_read value.now }
{
    is_number(value, 9).then(|| number(value))
}

// The hundredths that one or two digits, a point and two digits spell.
#[tactic(auto, unfolding(crate::specs::Meaning::hundredths, crate::specs::Value::is_fixed))]
fn hundredths(value: &[u8]) -> u32
    requires { is_fixed 2 5 value.now ≡ true }
    ensures { (result ≡ Meaning·hundredths value.now) × (result < 10000) }
{
    let p = value.len() - 3;
    let whole = number(&value[..p]);
    let rest = number(&value[p + 1..]);
    whole * 100 + rest
}

#[tactic(auto, unfolding(crate::specs::Meaning::signed))]
fn signed(minus: bool, n: u32) -> i32
    requires { n < 10000 }
    ensures { result ≡ Meaning·signed minus n }
{
    if minus { -(n as i32) } else { n as i32 }
}

// A drift, from what follows its sign and whether that was a minus.
#[tactic(auto, unfolding(crate::specs::Meaning::signed_read))]
fn read_signed(minus: bool, value: &[u8]) -> Option<i32>
    ensures { result ≡ signed_read minus value.now }
{
    is_fixed(value, 2, 5).then(|| signed(minus, hundredths(value)))
}

// A drift as hundredths of a metre per kilometre.
#[tactic(auto, unfolding(crate::specs::Meaning::drift_read, crate::specs::Meaning::drift, crate::specs::Meaning::signed_read, crate::specs::Value::is_drift, crate::specs::Value::starts_with))]
pub fn read_drift(value: &[u8]) -> Option<i32>
    ensures { result ≡ drift_read value.now }
{
    match value {
        [b'-', rest @ ..] => read_signed(true, rest),
        _ => read_signed(false, value),
    }
}

// Whether revs were entered by hand (02, 1/14), where their number is not asked for.
#[tactic(auto, unfolding(crate::specs::Meaning::revs, crate::specs::Value::starts_with))]
pub fn is_by_hand(value: &[u8]) -> bool
    ensures { result ≡ (revs value.now).byhand }
{
    matches!(value, [b'#', ..])
}

// The revolutions per minute, and whether `#` stood before them.
#[tactic(auto, unfolding(crate::specs::Meaning::revs_read, crate::specs::Meaning::revs))]
pub fn read_revs(value: &[u8]) -> Option<Revs>
    ensures { result ≡ revs_read value.now }
{
    let digits = bare(value);
    is_number(digits, 5).then(|| Revs {
        number: number(digits),
        byhand: is_by_hand(value),
    })
}

// A day of D or DataPrimaImm as the number yyyymmdd.
#[tactic(auto, unfolding(crate::specs::Meaning::first_day_read, crate::specs::Meaning::date_number, crate::specs::Value::is_first_day))]
pub fn read_first_day(value: &[u8]) -> Option<u32>
    ensures { result ≡ first_day_read value.now }
{
    let date = date_of(value)?;
    is_first_date(date).then(|| date_number(date))
}

#[tactic(auto, unfolding(crate::specs::Value::is_first_date, crate::specs::Value::is_gregorian, crate::specs::Value::is_year, crate::specs::Value::days_in))]
fn date_number(date: Date) -> u32
    requires { is_first_date date.day date.month date.year ≡ true }
    ensures { result ≡ date.year * 10000 + date.month * 100 + date.day }
{
    let Date { day, month, year } = date;
    year * 10000 + month * 100 + day
}
