// The rules of bookings (01, Bookings; row 12): AC2's own, and ACC against AC2. Each test is of values.
ghost use Rattle.std.specs.Prelude.{◌≡◌, cond, List, [], ◌∷◌, ◌++◌, map, ℕ, ◌-◌, ◌≤◌, Some, Ok};
ghost use Rattle.kinds.specs.Value.{is_word};
ghost use Rattle.kinds.specs.Meaning.{first_day_read};
ghost use Rattle.tables.specs.File.{ac2, acc};
ghost use Rattle.tables.specs.Value.{values_of, Held};
ghost use Rattle.due.specs.Values.{new_values};
ghost use Rattle.due.specs.Booking.{booking_in};
ghost use Rattle.rules.specs.Rules.{Says};
ghost use Rattle.rules.specs.Rule.{broken, first_broken};
ghost use Rattle.rules.specs.Bookings.{type_of, type_is, parking_brake_fits, descriptions_of, special_words, descriptions, year_fits, directive_of, period_of, petrol_word, petrol_fits, diesel_fits, fuel_fits, old_brake_fits, number_is, count_of, parking_axles_fit, new_rules, old_rules};
ghost use Rattle.rules.specs.declared.Directive.{Directive};
ghost use Rattle.refusals.specs.declared.RefusalKind.{RefusalKind};

use crate::{BrokenRule, Descriptions, Directive, NewBooking, Period, PetrolWord, VehicleType};
use places::PlacedText;
use tables::pairs;

// ---- categories

static TYPES: [VehicleType; 17] = [
    VehicleType::Leggero, // M1
    VehicleType::Pesante, // M2
    VehicleType::Pesante, // M3
    VehicleType::Leggero, // N1
    VehicleType::Pesante, // N2
    VehicleType::Pesante, // N3
    VehicleType::Leggero, // O1
    VehicleType::Leggero, // O2
    VehicleType::Pesante, // O3
    VehicleType::Pesante, // O4
    VehicleType::Motoveicolo, // L1e
    VehicleType::Motoveicolo, // L2e
    VehicleType::Motoveicolo, // L3e
    VehicleType::Motoveicolo, // L4e
    VehicleType::Motoveicolo, // L5e
    VehicleType::Motoveicolo, // L6e
    VehicleType::Motoveicolo, // L7e
];

fn vehicle_type(category: usize) -> VehicleType
    ensures { result ≡ type_of category }
{
    TYPES.get(category).map_or(VehicleType::NoType, |x| *x)
}

static DESCRIPTIONS: [Descriptions; 17] = [
    Descriptions::OfM1, // M1
    Descriptions::OfM2M3, // M2
    Descriptions::OfM2M3, // M3
    Descriptions::OfN, // N1
    Descriptions::OfN, // N2
    Descriptions::OfN, // N3
    Descriptions::OfO, // O1
    Descriptions::OfO, // O2
    Descriptions::OfO, // O3
    Descriptions::OfO, // O4
    Descriptions::OfNone, // L1e
    Descriptions::OfNone, // L2e
    Descriptions::OfNone, // L3e
    Descriptions::OfNone, // L4e
    Descriptions::OfNone, // L5e
    Descriptions::OfNone, // L6e
    Descriptions::OfNone, // L7e
];

fn descriptions_of(category: usize) -> Descriptions
    ensures { result ≡ descriptions_of category }
{
    DESCRIPTIONS
        .get(category)
        .map_or(Descriptions::OfNone, |x| *x)
}

// ---- AC2's own rules

fn type_fits(category: usize, value: &[u8]) -> bool
    ensures { result ≡ type_is (type_of category) value.now }
{
    match vehicle_type(category) {
        VehicleType::Leggero => lines::equal(value, b"LEGGERO"),
        VehicleType::Pesante => lines::equal(value, b"PESANTE"),
        VehicleType::Motoveicolo => lines::equal(value, b"MOTOVEICOLO"),
        VehicleType::NoType => false,
    }
}

#[tactic(auto, unfolding(crate::specs::Bookings::parking_brake_fits))]
fn parking_brake_fits(category: usize, value: &[u8]) -> bool
    ensures { result ≡ parking_brake_fits category value.now }
{
    due::is_l(category) || !lines::equal(value, b"NON PRESENTE")
}

// A booking rule of the entry of this pair, in the file whose first pair is `first`.
fn keep(holds: bool, first: usize, pair: usize) -> Result<(), BrokenRule>
    requires { first ≤ pair }
    ensures { result ≡ cond holds (Ok tt) (broken (pair - first) RefusalKind.BookingRule) }
{
    if holds {
        return Ok(());
    }
    Err(BrokenRule {
        entry: pair - first,
        kind: refusals::RefusalKind::BookingRule,
    })
}

// AC2's own rules, in their order.
pub fn check_new_booking(new: &NewBooking<'_>, places: &[u32]) -> Result<(), BrokenRule>
    requires { Says new.now.text.now places.now new.now.says }
    ensures { result ≡ first_broken ac2 (new_rules (new_values new.now.text.now places.now)) }
{
    let category = new.says.category;
    let new = PlacedText {
        text: new.text,
        places,
    };
    let kind = new.value(pairs::AC2_TIPO_VEICOLO);
    let brake = new.value(pairs::AC2_AZIONAMENTO_FRENO_STAZIONAMENTO);
    keep(
        type_fits(category, kind),
        pairs::AC2_FIRST,
        pairs::AC2_TIPO_VEICOLO,
    )?;
    keep(
        parking_brake_fits(category, brake),
        pairs::AC2_FIRST,
        pairs::AC2_AZIONAMENTO_FRENO_STAZIONAMENTO,
    )
}

// ---- ACC against AC2

// One of the words.
fn is_among(words: &[&[u8]], value: &[u8]) -> bool
    ensures { result ≡ is_word (map (λ w. w.now) words.now) value.now }
{
    words.iter().any(|word| lines::equal(value, word))
}

// The words that M1 and N share.
static SPECIAL_WORDS: [&[u8]; 2] = [b"TRASPORTO SPECIFICO", b"USO SPECIALE"];

// One of these words, or of those.
fn is_description(words: &[&[u8]], value: &[u8]) -> bool
    ensures { result ≡ is_word (map (λ w. w.now) words.now ++ special_words) value.now }
{
    is_among(words, value) || is_among(&SPECIAL_WORDS, value)
}

#[tactic(auto, unfolding(kinds::specs::Value::is_word, kinds::specs::Value::word_index))]
fn description_fits(category: usize, old: &[u8]) -> bool
    ensures { result ≡ is_word (descriptions (descriptions_of category)) old.now }
{
    match descriptions_of(category) {
        Descriptions::OfM1 => {
            is_description(&[b"AUTOVETTURA", b"PROMISCUO", b"AUTOCARAVAN"], old)
        }
        Descriptions::OfM2M3 => is_among(&[b"AUTOBUS"], old),
        Descriptions::OfN => is_description(
            &[
                b"AUTOCARRO",
                b"TRATTORE STRADALE",
                b"TRATTORE PER SEMIRIMORCHIO",
            ],
            old,
        ),
        Descriptions::OfO => is_among(&[b"RIMORCHIO", b"SEMIRIMORCHIO"], old),
        Descriptions::OfNone => false,
    }
}

#[tactic(auto, unfolding(crate::specs::Bookings::year_fits))]
fn year_fits(date: &[u8], old: &[u8]) -> bool
    ensures { result ≡ year_fits date.now old.now }
{
    lines::equal(old, &date[date.len().min(4)..])
}

// By the place in the list of petrol directives.
#[tactic(auto, unfolding(crate::specs::Bookings::directive_of, kinds::specs::Value::words_of, kinds::specs::Value::numbered_lists))]
fn directive_of(value: &[u8]) -> Directive
    ensures { result ≡ directive_of value.now }
{
    match kinds::word_index(kinds::numbers::PETROL_DIRECTIVES, value) {
        0 => Directive::Nessuna,
        1 => Directive::Rt1902,
        2 => Directive::Catalyst,
        3 => Directive::Catalyst,
        _ => Directive::NoDirective,
    }
}

// Of every value that reads as this day, the number yyyymmdd. Both fuel dates are the first of their month, and day 00 counts as
// that day (02, 3/14): so the month decides, whose first number is that of its day 00.
fn period_at(day: u32) -> Period
    ensures { (v : List ℕ) → first_day_read v ≡ Some day → result ≡ period_of v }
{
    if day < 19861000 {
        return Period::Before1986;
    }
    if day < 20020700 {
        return Period::Before2002;
    }
    Period::Later
}

fn period_of(date: &[u8]) -> Period
    ensures { result ≡ period_of date.now }
{
    match kinds::read_first_day(date) {
        Some(day) => period_at(day),
        None => Period::Later,
    }
}

fn petrol_word(directive: Directive, period: Period) -> PetrolWord
    ensures { result ≡ petrol_word directive period }
{
    match (directive, period) {
        (Directive::Catalyst, _) => PetrolWord::Cat,
        (Directive::Nessuna | Directive::Rt1902, Period::Before1986) => PetrolWord::Under86,
        (Directive::Rt1902, Period::Before2002) => PetrolWord::NoCat,
        _ => PetrolWord::NoWord,
    }
}

fn petrol_fits(word: PetrolWord, old: &[u8]) -> bool
    ensures { result ≡ petrol_fits word old.now }
{
    match word {
        PetrolWord::Cat => lines::equal(old, b"BENZINA CAT"),
        PetrolWord::Under86 => lines::equal(old, b"BENZINA<86"),
        PetrolWord::NoCat => lines::equal(old, b"BENZINA NO CAT"),
        PetrolWord::NoWord => false,
    }
}

#[tactic(auto, unfolding(crate::specs::Bookings::diesel_fits))]
fn diesel_fits(turbo: &[u8], corrector: &[u8], old: &[u8]) -> bool
    ensures { result ≡ diesel_fits turbo.now corrector.now old.now }
{
    if lines::equal(turbo, b"S") {
        return lines::equal(old, b"DIESEL TURBO COMPRESSO");
    }
    if lines::equal(corrector, b"N") {
        return lines::equal(old, b"DIESEL ASPIRATO SENZA CORRETTORE");
    }
    lines::equal(old, b"DIESEL ASPIRATO CON CORRETTORE")
}

// ACC's Alimentazione_1, by AC2's fuel and the values that it leads to.
fn fuel_fits(fuel: due::Fuel, new: PlacedText<'_>, old: &[u8]) -> bool
    requires { Held ac2 0 new.text.now new.places.now × (fuel ≡ (booking_in (new_values new.text.now new.places.now)).fuel) }
    ensures { result ≡ fuel_fits (new_values new.entry.text.now new.entry.places.now) old.now }
{
    match fuel {
        due::Fuel::Petrol => petrol_fits(
            petrol_word(
                directive_of(new.value(pairs::AC2_DIRETTIVA_BENZINA_AUTO)),
                period_of(new.value(pairs::AC2_DATA_PRIMA_IMM)),
            ),
            old,
        ),
        due::Fuel::Diesel => diesel_fits(
            new.value(pairs::AC2_TURBO),
            new.value(pairs::AC2_CORRETTORE_PRESSIONE),
            old,
        ),
        due::Fuel::OtherFuel => lines::equal(old, new.value(pairs::AC2_ALIMENTAZIONE_1)),
    }
}

#[tactic(auto, unfolding(crate::specs::Bookings::old_brake_fits))]
fn old_brake_fits(new: &[u8], old: &[u8]) -> bool
    ensures { result ≡ old_brake_fits new.now old.now }
{
    if lines::equal(new, b"ELETTRICO") {
        return is_among(&[b"MANO", b"PEDALE"], old);
    }
    lines::equal(old, new)
}

// How many bytes of the part are S.
fn count_s(part: &[u8]) -> usize
    ensures { result ≡ count_of 83 part.now }
{
    part.iter().filter(|c| **c == b'S').count()
}

#[tactic(auto, unfolding(crate::specs::Bookings::number_is, kinds::specs::Meaning::number_read))]
pub fn number_is(value: &[u8], n: usize) -> bool
    ensures { result ≡ number_is value.now n }
{
    kinds::read_number(value).is_some_and(|m| m as usize == n)
}

#[tactic(auto, unfolding(crate::specs::Bookings::parking_axles_fit))]
fn parking_axles_fit(positions: &[u8], old: &[u8]) -> bool
    ensures { result ≡ parking_axles_fit positions.now old.now }
{
    number_is(old, count_s(positions))
}

// The rules of ACC against AC2, in their order; `own` is ACC.
pub fn check_old_booking(new: &NewBooking<'_>, own: PlacedText<'_>) -> Result<(), BrokenRule>
    requires { Says new.now.text.now own.places.now new.now.says × Held acc 0 own.text.now own.places.now }
    ensures { result ≡ first_broken acc (old_rules (new_values new.now.text.now own.entry.places.now) (values_of acc 0 own.entry.text.now own.entry.places.now)) }
{
    let due::Booking { category, fuel, .. } = new.says;
    let new = PlacedText {
        text: new.text,
        places: own.places,
    };
    let kind = new.value(pairs::AC2_TIPO_VEICOLO);
    let date = new.value(pairs::AC2_DATA_PRIMA_IMM);
    let brake = new.value(pairs::AC2_AZIONAMENTO_FRENO_STAZIONAMENTO);
    let positions = new.value(pairs::AC2_POS_ASSI_STAZ);
    let old_kind = own.value(pairs::ACC_TIPO_VEICOLO);
    let description = own.value(pairs::ACC_DESCRIZIONE_VEICOLO);
    let year = own.value(pairs::ACC_ANNO_PRIMA_IMM);
    let old_fuel = own.value(pairs::ACC_ALIMENTAZIONE_1);
    let old_brake = own.value(pairs::ACC_FRENO_STAZIONAMENTO);
    let axles = own.value(pairs::ACC_NUM_ASSI_STAZIONAMENTO);
    keep(
        lines::equal(old_kind, kind),
        pairs::ACC_FIRST,
        pairs::ACC_TIPO_VEICOLO,
    )?;
    keep(
        description_fits(category, description),
        pairs::ACC_FIRST,
        pairs::ACC_DESCRIZIONE_VEICOLO,
    )?;
    keep(
        year_fits(date, year),
        pairs::ACC_FIRST,
        pairs::ACC_ANNO_PRIMA_IMM,
    )?;
    keep(
        fuel_fits(fuel, new, old_fuel),
        pairs::ACC_FIRST,
        pairs::ACC_ALIMENTAZIONE_1,
    )?;
    keep(
        old_brake_fits(brake, old_brake),
        pairs::ACC_FIRST,
        pairs::ACC_FRENO_STAZIONAMENTO,
    )?;
    keep(
        parking_axles_fit(positions, axles),
        pairs::ACC_FIRST,
        pairs::ACC_NUM_ASSI_STAZIONAMENTO,
    )
}
