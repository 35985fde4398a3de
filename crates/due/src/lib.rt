// Due entries (01, Due entries): conditions made from values, and what they ask of each entry.
#![tactic(auto)]

ghost use Rattle.std.specs.Prelude.{◌≡◌, ◌+◌, ◌*◌, ◌≤◌, ltb, length, List, [], get_or};
ghost use Rattle.places.specs.Places.{place_size, length_of, pairs_at};
ghost use Rattle.tables.specs.File.{ac2, of_number};
ghost use Rattle.due.specs.Values.{new_values};
ghost use Rattle.tables.specs.Value.{Held, NumberHeld, PairHeld};
ghost use Rattle.due.specs.Booking.{fuel_in, is_late, is_nessuna, is_petrol, is_diesel, is_o, is_l, booking_in};
ghost use Rattle.due.specs.Conditions.{is200, is210, version_in, is_serial_link, is_external_link, links_at, links_numbered, with_links};
ghost use Rattle.due.specs.declared.Condition.{Condition};
ghost use Rattle.due.specs.Due.{fixed_conditions, condition_in, is_moped, is_motorcycle, is_m_or_n, condition_p, when, holds_in, due_in, filled_pairs, as_due, first_not_as_due_from, found_below};

use kinds::numbers::{CATEGORIES, PETROL_DIRECTIVES};
use places::PlacedText;
use tables::{AC2, ACC, DRIFT, GAS, OPACITY, SUSPENSION, pairs};

#[derive(Debug, PartialEq, Eq, Clone, Copy)]
pub enum Fuel {
    Petrol,
    Diesel,
    OtherFuel,
}

// What the rules ask of AC2, each reduced to the few cases that matter: the category's place in 01's list, whether
// TargaNominale has six bytes, the fuel, whether DirettivaEmissioniGasBenzinaAuto is 91/441/CEE or later, and whether
// DirettivaEmissioniGasMotociclo is NESSUNA.
#[derive(Debug, PartialEq, Eq, Clone, Copy)]
pub struct Booking {
    pub category: usize,
    pub six: bool,
    pub fuel: Fuel,
    pub late: bool,
    pub nessuna: bool,
}

#[derive(Debug, PartialEq, Eq, Clone, Copy)]
pub enum Version {
    V200,
    V210,
    OtherVersion,
}

// What due entries ask of a file with device links: whether TipoCollegamento is RS SENZA ESITO, whether
// TipoCollegamentoContagiri is ESTERNO, and the protocol version of each device.
#[derive(Debug, PartialEq, Eq, Clone, Copy)]
pub struct Links {
    pub serial: bool,
    pub external: bool,
    pub device: Version,
    pub counter: Version,
    pub speedtest: Version,
}

// The pairs of four values that links are made from.
#[derive(Clone, Copy)]
struct LinkPairs {
    link: usize,
    version: usize,
    counterlink: usize,
    counterversion: usize,
}

const GAS_LINKS: LinkPairs = LinkPairs {
    link: pairs::GAS_TIPO_COLLEGAMENTO,
    version: pairs::GAS_NUM_VERSIONE_PROTOCOLLO,
    counterlink: pairs::GAS_TIPO_COLLEGAMENTO_CONTAGIRI,
    counterversion: pairs::GAS_NUM_VERSIONE_PROTOCOLLO_CONTAGIRI,
};

const OPACITY_LINKS: LinkPairs = LinkPairs {
    link: pairs::OPACITY_TIPO_COLLEGAMENTO,
    version: pairs::OPACITY_NUM_VERSIONE_PROTOCOLLO,
    counterlink: pairs::OPACITY_TIPO_COLLEGAMENTO_CONTAGIRI,
    counterversion: pairs::OPACITY_NUM_VERSIONE_PROTOCOLLO_CONTAGIRI,
};

// Of a file without links.
const NO_LINKS: Links = Links {
    serial: false,
    external: false,
    device: Version::OtherVersion,
    counter: Version::OtherVersion,
    speedtest: Version::OtherVersion,
};

// All that due entries depend on.
#[derive(Debug, PartialEq, Eq, Clone, Copy)]
pub struct Conditions {
    pub booking: Booking,
    pub links: Links,
}

// What is asked of an entry: filled, empty, or nothing.
#[derive(Debug, PartialEq, Eq, Clone, Copy)]
pub enum Due {
    IsDue,
    NotDue,
    IsFree,
}

// What an entry hangs on, in 01's order. DieselEntry: Turbo and CorrettorePressione. SpeedTest: condition P.
// The last six: the key and the checksum of each device.
#[derive(Debug, PartialEq, Eq, Clone, Copy)]
pub enum Condition {
    Always,
    Free,
    CodiceCIC,
    Alimentazione,
    DieselEntry,
    CarDirective,
    MotorcycleDirective,
    COMinAcc,
    ExternalCounter,
    SpeedTest,
    DeviceKey,
    DeviceChecksum,
    CounterKey,
    CounterChecksum,
    SpeedTestKey,
    SpeedTestChecksum,
}

// What the entries of each file's fixed sections hang on, in entry order. Static data: a loop over the entries lays nothing out.
static AC2_CONDITIONS: [Condition; 12] = [
    Condition::Always, // AC2: TargaNominale
    Condition::Always, // AC2: TipoVeicolo
    Condition::Always, // AC2: CategoriaInternazionale
    Condition::CodiceCIC, // AC2: CodiceCIC
    Condition::Always, // AC2: DataPrimaImm
    Condition::Alimentazione, // AC2: Alimentazione_1
    Condition::DieselEntry, // AC2: Turbo
    Condition::DieselEntry, // AC2: CorrettorePressione
    Condition::CarDirective, // AC2: DirettivaEmissioniGasBenzinaAuto
    Condition::MotorcycleDirective, // AC2: DirettivaEmissioniGasMotociclo
    Condition::Always, // AC2: AzionamentoFrenoStazionamento
    Condition::Always, // AC2: PosAssiStaz
];

static ACC_CONDITIONS: [Condition; 6] = [
    Condition::Always, // ACC: TipoVeicolo
    Condition::Always, // ACC: DescrizioneVeicolo
    Condition::Always, // ACC: AnnoPrimaImm
    Condition::Free, // ACC: Alimentazione_1
    Condition::Always, // ACC: FrenoStazionamento
    Condition::Always, // ACC: NumAssiStazionamento
];

static DRIFT_CONDITIONS: [Condition; 16] = [
    Condition::Always, // drift, suspension: Marca
    Condition::Always, // drift, suspension: Tipo
    Condition::Always, // drift, suspension: NumOmologa
    Condition::Always, // drift, suspension: NumSerie
    Condition::Always, // drift, suspension: DataScadenza
    Condition::Always, // drift, suspension: NumVersioneSoftware
    Condition::Free, // drift, suspension: Note
    Condition::Always, // drift, suspension: NumVersioneProtocollo
    Condition::Always, // drift, suspension: DataVersioneProtocollo
    Condition::Always, // drift, suspension: TipoCollegamento
    Condition::Always, // drift, suspension: CircolareApplicata
    Condition::Free, // drift, suspension: CodErrore
    Condition::Always, // drift, suspension: DataMisura
    Condition::Always, // drift, suspension: InizioMisura
    Condition::Always, // drift, suspension: FineMisura
    Condition::Always, // drift, suspension: Operatore
];

static GAS_CONDITIONS: [Condition; 53] = [
    Condition::Always, // gas: MarcaAnalizzatore
    Condition::Always, // gas: TipoAnalizzatore
    Condition::Always, // gas: NumOmologaAnalizzatore
    Condition::Always, // gas: NumSerieAnalizzatore
    Condition::Always, // gas: NumVersSoftwareAnalizzatore
    Condition::Always, // gas: DataScadenzaAnalizzatore
    Condition::Always, // gas: MarcaContagiri
    Condition::Always, // gas: TipoContagiri
    Condition::Always, // gas: NumOmologaContagiri
    Condition::Always, // gas: NumSerieContagiri
    Condition::Always, // gas: NumVersioneSoftwareContagiri
    Condition::Always, // gas: DataScadenzaContagiri
    Condition::Always, // gas: TipoCollegamentoContagiri
    Condition::ExternalCounter, // gas: NumVersioneProtocolloContagiri
    Condition::SpeedTest, // gas: MarcaProvaVelocita
    Condition::SpeedTest, // gas: TipoProvaVelocita
    Condition::SpeedTest, // gas: NumOmologaProvaVelocita
    Condition::SpeedTest, // gas: NumSerieProvaVelocita
    Condition::SpeedTest, // gas: NumVersioneSoftwareProvaVelocita
    Condition::SpeedTest, // gas: NumVersioneProtocolloProvaVelocita
    Condition::SpeedTest, // gas: DataScadenzaProvaVelocita
    Condition::Free, // gas: Note
    Condition::Always, // gas: NumVersioneProtocollo
    Condition::Always, // gas: DataVersioneProtocollo
    Condition::Always, // gas: TipoCollegamento
    Condition::Always, // gas: CircolareApplicata
    Condition::DeviceKey, // gas: IDChiaveRS
    Condition::DeviceKey, // gas: DataRegChiaveRS
    Condition::CounterKey, // gas: IDChiaveContagiriRS
    Condition::CounterKey, // gas: DataRegChiaveContagiriRS
    Condition::SpeedTestKey, // gas: IDChiaveProvaVelocitaRS
    Condition::SpeedTestKey, // gas: DataRegChiaveProvaVelocitaRS
    Condition::DeviceChecksum, // gas: ChecksumRS
    Condition::DeviceKey, // gas: ModuloChiaveRS
    Condition::DeviceKey, // gas: EsponenteChiaveRS
    Condition::CounterChecksum, // gas: ChecksumContagiriRS
    Condition::CounterKey, // gas: ModuloChiaveContagiriRS
    Condition::CounterKey, // gas: EsponenteChiaveContagiriRS
    Condition::SpeedTestChecksum, // gas: ChecksumProvaVelocitaRS
    Condition::SpeedTestKey, // gas: ModuloChiaveProvaVelocitaRS
    Condition::SpeedTestKey, // gas: EsponenteChiaveProvaVelocitaRS
    Condition::Free, // gas: CodErrore
    Condition::Always, // gas: DataMisura
    Condition::Always, // gas: InizioMisura
    Condition::Always, // gas: FineMisura
    Condition::Always, // gas: Operatore
    Condition::Always, // gas: COMin
    Condition::Always, // gas: COCorrettoMin
    Condition::Always, // gas: CO2Min
    Condition::Always, // gas: HCMin
    Condition::Always, // gas: O2Min
    Condition::Always, // gas: NumGiriMotoreMin
    Condition::COMinAcc, // gas: COMinAcc
];

static OPACITY_CONDITIONS: [Condition; 55] = [
    Condition::Always, // opacity: MarcaOpacimetro
    Condition::Always, // opacity: TipoOpacimetro
    Condition::Always, // opacity: NumOmologaOpacimetro
    Condition::Always, // opacity: NumSerieOpacimetro
    Condition::Always, // opacity: NumVersSoftwareOpacimetro
    Condition::Always, // opacity: DataScadenzaOpacimetro
    Condition::Always, // opacity: MarcaContagiri
    Condition::Always, // opacity: TipoContagiri
    Condition::Always, // opacity: NumOmologaContagiri
    Condition::Always, // opacity: NumSerieContagiri
    Condition::Always, // opacity: NumVersSoftwareContagiri
    Condition::Always, // opacity: DataScadenzaContagiri
    Condition::Always, // opacity: TipoCollegamentoContagiri
    Condition::ExternalCounter, // opacity: NumVersioneProtocolloContagiri
    Condition::Always, // opacity: Targa
    Condition::Always, // opacity: NumGiriMotoreMax
    Condition::Always, // opacity: LimiteK
    Condition::Always, // opacity: DirettivaEmissioni
    Condition::Always, // opacity: NumGiriMotoreMinMis
    Condition::Always, // opacity: NumGiriMotoreMaxMis
    Condition::Always, // opacity: TempOlioMotore
    Condition::Free, // opacity: TempMinOlioMotore
    Condition::Always, // opacity: ValoreK1
    Condition::Always, // opacity: ValoreK2
    Condition::Always, // opacity: ValoreK3
    Condition::Free, // opacity: ValoreK4
    Condition::Free, // opacity: ValoreK5
    Condition::Free, // opacity: ValoreK6
    Condition::Free, // opacity: ValoreK7
    Condition::Free, // opacity: ValoreK8
    Condition::Free, // opacity: OpacitaMedia
    Condition::Always, // opacity: PressAtmosferica
    Condition::Always, // opacity: TempAmbiente
    Condition::Always, // opacity: UmiditaRelativa
    Condition::Always, // opacity: Esito
    Condition::Free, // opacity: Note
    Condition::Always, // opacity: NumVersioneProtocollo
    Condition::Always, // opacity: DataVersioneProtocollo
    Condition::Always, // opacity: TipoCollegamento
    Condition::Always, // opacity: CircolareApplicata
    Condition::DeviceKey, // opacity: IDChiaveRS
    Condition::DeviceKey, // opacity: DataRegChiaveRS
    Condition::CounterKey, // opacity: IDChiaveContagiriRS
    Condition::CounterKey, // opacity: DataRegChiaveContagiriRS
    Condition::DeviceChecksum, // opacity: ChecksumRS
    Condition::DeviceKey, // opacity: ModuloChiaveRS
    Condition::DeviceKey, // opacity: EsponenteChiaveRS
    Condition::CounterChecksum, // opacity: ChecksumContagiriRS
    Condition::CounterKey, // opacity: ModuloChiaveContagiriRS
    Condition::CounterKey, // opacity: EsponenteChiaveContagiriRS
    Condition::Free, // opacity: CodErrore
    Condition::Always, // opacity: DataMisura
    Condition::Always, // opacity: InizioMisura
    Condition::Always, // opacity: FineMisura
    Condition::Always, // opacity: Operatore
];

// Suspension has drift's.
fn fixed_conditions(file: u32) -> &'static [Condition]
    ensures { result.now ≡ of_number [] fixed_conditions file }
{
    match file {
        AC2 => &AC2_CONDITIONS,
        ACC => &ACC_CONDITIONS,
        DRIFT => &DRIFT_CONDITIONS,
        SUSPENSION => &DRIFT_CONDITIONS,
        GAS => &GAS_CONDITIONS,
        OPACITY => &OPACITY_CONDITIONS,
        _ => &[],
    }
}

// An axle's entries, which follow those of the fixed sections, are always due.
fn condition_among(conditions: &[Condition], entry: usize) -> Condition
    ensures { result ≡ get_or conditions.now entry Condition.Always }
{
    conditions.get(entry).map_or(Condition::Always, |x| *x)
}

// What an entry hangs on, by its file's number and its place in entry order.
pub fn condition_at(file: u32, entry: usize) -> Condition
    ensures { result ≡ condition_in file entry }
{
    condition_among(fixed_conditions(file), entry)
}

// L1e, L2e, L6e
pub fn is_moped(category: usize) -> bool
    ensures { result ≡ is_moped category }
{
    matches!(category, 10 | 11 | 15)
}

// L3e, L4e, L5e, L7e
pub fn is_motorcycle(category: usize) -> bool
    ensures { result ≡ is_motorcycle category }
{
    matches!(category, 12 | 13 | 14 | 16)
}

// L1e to L7e
pub fn is_l(category: usize) -> bool
    ensures { result ≡ is_l category }
{
    matches!(category, 10..=16)
}

pub fn is_o(category: usize) -> bool
    ensures { result ≡ is_o category }
{
    matches!(category, 6..=9)
}

// M or N
pub fn is_m_or_n(category: usize) -> bool
    ensures { result ≡ is_m_or_n category }
{
    category < 6
}

// BENZINA. This and the next have the rules' names for one comparison each, which a parameter would hide.
pub fn is_petrol(fuel: Fuel) -> bool
    ensures { result ≡ is_petrol fuel }
{
    fuel == Fuel::Petrol
}

pub fn is_diesel(fuel: Fuel) -> bool
    ensures { result ≡ is_diesel fuel }
{
    fuel == Fuel::Diesel
}

#[tactic(auto, unfolding(crate::specs::Due::condition_p))]
fn condition_p(c: Conditions) -> bool
    ensures { result ≡ condition_p c }
{
    is_moped(c.booking.category) || c.booking.nessuna
}

fn due_when(holds: bool) -> Due
    ensures { result ≡ when holds }
{
    if holds { Due::IsDue } else { Due::NotDue }
}

// What a condition asks of the entries that hang on it. Version 210: key ID, date, module, exponent; 200: the checksum.
#[tactic(auto, unfolding(crate::specs::Due::holds_in))]
fn holds_in(condition: Condition, c: Conditions) -> Due
    ensures { result ≡ holds_in condition c }
{
    let Conditions { booking, links } = c;
    match condition {
        Condition::Always => Due::IsDue,
        Condition::Free => Due::IsFree,
        Condition::CodiceCIC => due_when(is_moped(booking.category) && booking.six),
        Condition::Alimentazione => due_when(!is_o(booking.category)),
        Condition::DieselEntry => due_when(is_diesel(booking.fuel)),
        Condition::CarDirective => due_when(is_petrol(booking.fuel) && is_m_or_n(booking.category)),
        Condition::MotorcycleDirective => {
            due_when(is_petrol(booking.fuel) && is_motorcycle(booking.category))
        }
        Condition::COMinAcc => due_when(booking.late),
        Condition::ExternalCounter => due_when(links.external),
        Condition::SpeedTest => due_when(condition_p(c)),
        Condition::DeviceKey => due_when(links.device == Version::V210 && links.serial),
        Condition::DeviceChecksum => due_when(links.device == Version::V200 && links.serial),
        Condition::CounterKey => due_when(links.counter == Version::V210 && links.external),
        Condition::CounterChecksum => due_when(links.counter == Version::V200 && links.external),
        Condition::SpeedTestKey => due_when(links.speedtest == Version::V210 && condition_p(c)),
        Condition::SpeedTestChecksum => {
            due_when(links.speedtest == Version::V200 && condition_p(c))
        }
    }
}

// What is asked of an entry, by its file's number and its place in entry order.
#[tactic(auto, unfolding(crate::specs::Due::due_in))]
pub fn due_of(file: u32, entry: usize, c: Conditions) -> Due
    ensures { result ≡ due_in file entry c }
{
    holds_in(condition_at(file, entry), c)
}

fn as_due(due: Due, filled: bool) -> bool
    ensures { result ≡ as_due due filled }
{
    match due {
        Due::IsDue => filled,
        Due::NotDue => !filled,
        Due::IsFree => true,
    }
}

// Whether an entry is as its condition asks. Most are always due: these are told apart first.
#[tactic(auto, unfolding(crate::specs::Due::holds_in))]
fn is_as_due(condition: Condition, c: Conditions, filled: bool) -> bool
    ensures { result ≡ as_due (holds_in condition c) filled }
{
    match condition {
        Condition::Always => filled,
        _ => as_due(holds_in(condition, c), filled),
    }
}

fn is_filled(places: &[u32], k: usize) -> bool
    requires { place_size * (k + 1) ≤ length places.now }
    ensures { result ≡ ltb 0 (length_of places.now k) }
{
    0 < places::length_of(places, k)
}

// Number 10: the first of a file's `count` entries that is filled and not due, or due and empty.
// The file's pairs stand from pair `first` on. Lengths alone decide: no value is looked at.
pub fn first_not_as_due(
    file: u32,
    first: usize,
    count: usize,
    c: Conditions,
    places: &[u32],
) -> Option<usize>
    requires { place_size * (first + count) ≤ length places.now }
    ensures { result ≡ found_below count (first_not_as_due_from (λ i. due_in file i c) 0 (filled_pairs (pairs_at places.now first count))) }
{
    let conditions = fixed_conditions(file);
    for i in 0..count {
        let filled = is_filled(places, first + i);
        if !is_as_due(condition_among(conditions, i), c, filled) {
            return Some(i);
        }
    }
    None
}

#[tactic(auto, unfolding(crate::specs::Booking::fuel_in))]
pub fn fuel_of(value: &[u8]) -> Fuel
    ensures { result ≡ fuel_in value.now }
{
    if lines::equal(value, b"BENZINA") {
        return Fuel::Petrol;
    }
    if lines::equal(value, b"DIESEL") {
        return Fuel::Diesel;
    }
    Fuel::OtherFuel
}

#[tactic(auto, unfolding(crate::specs::Conditions::version_in))]
pub fn version_of(value: &[u8]) -> Version
    ensures { result ≡ version_in value.now }
{
    if lines::equal(value, b"200") {
        return Version::V200;
    }
    if lines::equal(value, b"210") {
        return Version::V210;
    }
    Version::OtherVersion
}

// 91/441/CEE or later: by the place in the list of petrol directives, which is in order of time.
#[tactic(auto, unfolding(crate::specs::Booking::is_late, kinds::specs::Value::is_word, kinds::specs::Value::words_of, kinds::specs::Value::numbered_lists, kinds::specs::Kind::words))]
pub fn is_late(value: &[u8]) -> bool
    ensures { result ≡ is_late value.now }
{
    matches!(kinds::word_index(PETROL_DIRECTIVES, value), 2..=3)
}

// Whether a motorcycle's directive is NESSUNA.
pub fn is_nessuna(directive: &[u8]) -> bool
    ensures { result ≡ is_nessuna directive.now }
{
    lines::equal(directive, b"NESSUNA")
}

// What AC2 says. Its pairs lie within its text, as reading it has made sure.
pub fn booking_of(own: PlacedText<'_>) -> Booking
    requires { Held ac2 0 own.text.now own.places.now }
    ensures { result ≡ booking_in (new_values own.entry.text.now own.entry.places.now) }
{
    let category = kinds::word_index(CATEGORIES, own.value(pairs::AC2_CATEGORIA_INTERNAZIONALE));
    Booking {
        category,
        six: own.length(pairs::AC2_TARGA_NOMINALE) == 6,
        fuel: fuel_of(own.value(pairs::AC2_ALIMENTAZIONE_1)),
        late: is_late(own.value(pairs::AC2_DIRETTIVA_BENZINA_AUTO)),
        nessuna: is_nessuna(own.value(pairs::AC2_DIRETTIVA_MOTOCICLO)),
    }
}

// Whether a value of TipoCollegamento is RS SENZA ESITO.
#[tactic(auto, unfolding(crate::specs::Conditions::is_serial_link))]
pub fn is_serial(link: &[u8]) -> bool
    ensures { result ≡ is_serial_link link.now }
{
    lines::equal(link, b"RS SENZA ESITO")
}

// Whether the rev counter's link is ESTERNO.
pub fn is_external(link: &[u8]) -> bool
    ensures { result ≡ is_external_link link.now }
{
    lines::equal(link, b"ESTERNO")
}

// The links at these pairs, with this version of the bench.
fn links_at(k: LinkPairs, speedtest: Version, own: PlacedText<'_>) -> Links
    requires { PairHeld own.text.now own.places.now k.link × PairHeld own.text.now own.places.now k.version × PairHeld own.text.now own.places.now k.counterlink × PairHeld own.text.now own.places.now k.counterversion }
    ensures { result ≡ links_at k speedtest own.entry.text.now own.entry.places.now }
{
    Links {
        serial: is_serial(own.value(k.link)),
        external: is_external(own.value(k.counterlink)),
        device: version_of(own.value(k.version)),
        counter: version_of(own.value(k.counterversion)),
        speedtest,
    }
}

// What the file of this number says of its links: its pairs lie within its text, as reading it has made sure. A file
// without links is not looked at.
fn links_of(file: u32, own: PlacedText<'_>) -> Links
    requires { NumberHeld file 0 own.text.now own.places.now }
    ensures { result ≡ links_numbered file own.entry.text.now own.entry.places.now }
{
    match file {
        GAS => {
            let speedtest = version_of(own.value(
                pairs::GAS_NUM_VERSIONE_PROTOCOLLO_PROVA_VELOCITA,
            ));
            links_at(GAS_LINKS, speedtest, own)
        }
        OPACITY => links_at(OPACITY_LINKS, Version::OtherVersion, own),
        _ => NO_LINKS,
    }
}

// The conditions of the file of this number, from what AC2 says and the file's own text.
pub fn conditions_of(file: u32, booking: Booking, own: PlacedText<'_>) -> Conditions
    requires { NumberHeld file 0 own.text.now own.places.now }
    ensures { result ≡ with_links booking (links_numbered file own.entry.text.now own.entry.places.now) }
{
    Conditions {
        booking,
        links: links_of(file, own),
    }
}
