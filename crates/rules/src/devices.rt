// Devices in date (02, 5/14): what the measure of a result file says, and whether each due date covers its end.
ghost use Rattle.std.specs.Prelude.{◌≡◌, ◌+◌, ◌≤◌, [], Ok, map};
ghost use Rattle.places.specs.Places.{value_of};
ghost use Rattle.tables.specs.File.{of_number, most_axles};
ghost use Rattle.tables.specs.Value.{values_of, pair_of, NumberHeld, PairHeld};
ghost use Rattle.calendar.specs.Measures.{measure_of};
ghost use Rattle.rules.specs.Rule.{first_broken};
ghost use Rattle.rules.specs.Devices.{due_dates, covers, device_rules, measure_at};

use crate::BrokenRule;
use calendar::Measure;
use places::PlacedText;
use tables::{DRIFT, GAS, OPACITY, SUSPENSION, pairs};

// The measure whose DataMisura has this pair.
fn measure_from(own: PlacedText<'_>, date: usize) -> Measure
    requires { PairHeld own.text.now own.places.now date × PairHeld own.text.now own.places.now (date + 1) × PairHeld own.text.now own.places.now (date + 2) }
    ensures { result ≡ measure_of (value_of own.entry.text.now own.entry.places.now date) (value_of own.entry.text.now own.entry.places.now (date + 1)) (value_of own.entry.text.now own.entry.places.now (date + 2)) }
{
    calendar::measure_of(
        own.value(date),
        own.value(date + pairs::INIZIO_MISURA_BEHIND),
        own.value(date + pairs::FINE_MISURA_BEHIND),
    )
}

// The measure of the file of this number; bookings have none.
pub fn measure_of(file: u32, axles: usize, own: PlacedText<'_>) -> Measure
    requires { (axles ≤ most_axles) × NumberHeld file axles own.text.now own.places.now }
    ensures { result ≡ measure_at file axles own.entry.text.now own.entry.places.now }
{
    match file {
        DRIFT => measure_from(own, pairs::DRIFT_DATA_MISURA),
        SUSPENSION => measure_from(own, pairs::SUSPENSION_DATA_MISURA),
        GAS => measure_from(own, pairs::GAS_DATA_MISURA),
        OPACITY => measure_from(own, pairs::OPACITY_DATA_MISURA),
        _ => Measure {
            lastday: 0,
            seconds: 0,
        },
    }
}

static DRIFT_DUE_DATES: [usize; 1] = [pairs::DRIFT_DATA_SCADENZA];

static SUSPENSION_DUE_DATES: [usize; 1] = [pairs::SUSPENSION_DATA_SCADENZA];

static GAS_DUE_DATES: [usize; 3] = [
    pairs::GAS_DATA_SCADENZA_ANALIZZATORE,
    pairs::GAS_DATA_SCADENZA_CONTAGIRI,
    pairs::GAS_DATA_SCADENZA_PROVA_VELOCITA,
];

static OPACITY_DUE_DATES: [usize; 2] = [
    pairs::OPACITY_DATA_SCADENZA_OPACIMETRO,
    pairs::OPACITY_DATA_SCADENZA_CONTAGIRI,
];

// The pairs of the due dates of the file of this number.
fn due_dates(file: u32) -> &'static [usize]
    ensures { result.now ≡ of_number [] (λ f. map (pair_of f) (due_dates f)) file }
{
    match file {
        DRIFT => &DRIFT_DUE_DATES,
        SUSPENSION => &SUSPENSION_DUE_DATES,
        GAS => &GAS_DUE_DATES,
        OPACITY => &OPACITY_DUE_DATES,
        _ => &[],
    }
}

#[tactic(auto, unfolding(crate::specs::Devices::covers))]
fn covers(due: &[u8], lastday: u32) -> bool
    ensures { result ≡ covers due.now lastday }
{
    due.is_empty() || lastday <= calendar::day_number(due)
}

// 19: the first due date that does not cover the day on which the measure ends.
pub fn check_devices(
    file: u32,
    axles: usize,
    own: PlacedText<'_>,
    lastday: u32,
) -> Result<(), BrokenRule>
    requires { (axles ≤ most_axles) × NumberHeld file axles own.text.now own.places.now × (lastday ≡ (measure_at file axles own.text.now own.places.now).lastday) }
    ensures { result ≡ of_number (Ok tt) (λ f. first_broken f (device_rules f (values_of f axles own.entry.text.now own.entry.places.now))) file }
{
    let first = tables::first_pair(file);
    for &pair in due_dates(file) {
        if !covers(own.value(pair), lastday) {
            return Err(BrokenRule {
                entry: pair - first,
                kind: refusals::RefusalKind::DeviceOutOfDate,
            });
        }
    }
    Ok(())
}
