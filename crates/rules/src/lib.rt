// Rules over values (01, Bookings, Results and Judging; 02, 5/14): bookings (12), Differenza% (13), devices in date (19), which
// slices are due (11), the stem (2), and what the identification answer must equal (15).
#![tactic(auto)]

mod bookings; // bookings.rt: the rules of bookings
mod devices; // devices.rt: devices in date
mod differences; // differences.rt: Differenza%
mod identification; // identification.rt: the identification answer against gas
mod marks; // marks.rt: what acceptance says of a result file
mod slices; // slices.rt: the stem, and which slices are due and read

ghost use Rattle.std.specs.Prelude.{◌≡◌, ◌≤◌, Ok};
ghost use Rattle.tables.specs.File.{of_number, most_axles};
ghost use Rattle.tables.specs.Value.{values_of, NumberHeld};
ghost use Rattle.due.specs.Values.{new_values};
ghost use Rattle.rules.specs.Rule.{first_broken};
ghost use Rattle.rules.specs.Devices.{measure_at};
ghost use Rattle.rules.specs.Rules.{other_rules, Says, first_broken_at};

pub use devices::measure_of;
pub use identification::same_fields;
pub use marks::is_marked;
use places::PlacedText;
pub use slices::{good_stem, identification_right, is_read, slice_right, stated_of};
use tables::{AC2, ACC, SUSPENSION};

// But for `Period`, each of these enums has a case for no word or no directive: rules go by all cases in one `match`, as the
// definitions do, so an `Option` would be no plainer.

// The word that TipoVeicolo must be.
#[derive(Debug, PartialEq, Eq, Clone, Copy)]
pub enum VehicleType {
    Leggero,
    Pesante,
    Motoveicolo,
    NoType,
}

// The words that DescrizioneVeicolo may be.
#[derive(Debug, PartialEq, Eq, Clone, Copy)]
pub enum Descriptions {
    OfM1,
    OfM2M3,
    OfN,
    OfO,
    OfNone,
}

// DirettivaEmissioniGasBenzinaAuto: Catalyst is 91/441/CEE or 98/69/CE.
#[derive(Debug, PartialEq, Eq, Clone, Copy)]
pub enum Directive {
    Nessuna,
    Rt1902,
    Catalyst,
    NoDirective,
}

// Where a day of first registration stands to 01/10/1986 and 01/07/2002.
#[derive(Debug, PartialEq, Eq, Clone, Copy)]
pub enum Period {
    Before1986,
    Before2002,
    Later,
}

// What ACC's Alimentazione_1 must be with BENZINA.
#[derive(Debug, PartialEq, Eq, Clone, Copy)]
pub enum PetrolWord {
    Cat,
    Under86,
    NoCat,
    NoWord,
}

// What the caller states: whether the stem's first digit is 9.
#[derive(Debug, PartialEq, Eq, Clone, Copy)]
pub struct Stated {
    pub nine: bool,
}

// AC2 that was read: its text, and what it says.
#[derive(Debug, Clone, Copy)]
pub struct NewBooking<'a> {
    pub text: &'a [u8],
    pub says: due::Booking,
}

// A rule that does not hold: its entry's place in entry order, and its refusal.
#[derive(Debug, PartialEq, Eq, Clone, Copy)]
pub struct BrokenRule {
    pub entry: usize,
    pub kind: refusals::RefusalKind,
}

// 12 and 13.
fn check_other_rules(
    file: u32,
    axles: usize,
    new: &NewBooking<'_>,
    own: PlacedText<'_>,
) -> Result<(), BrokenRule>
    requires { (axles ≤ most_axles) × Says new.now.text.now own.places.now new.now.says × NumberHeld file axles own.text.now own.places.now }
    ensures { result ≡ of_number (Ok tt) (λ f. first_broken f (other_rules f (new_values new.now.text.now own.entry.places.now) (values_of f axles own.entry.text.now own.entry.places.now) axles)) file }
{
    match file {
        AC2 => bookings::check_new_booking(new, own.places),
        ACC => bookings::check_old_booking(new, own),
        SUSPENSION => differences::check_differences(axles, own),
        _ => Ok(()),
    }
}

// 19, then 12 and 13: the first rule of the file, by its number, that its values and AC2's do not keep. Its clauses stay: see `places`.
// `lastday` is the last day of its measure.
pub fn first_broken(
    file: u32,
    axles: usize,
    new: &NewBooking<'_>,
    own: PlacedText<'_>,
    lastday: u32,
) -> Result<(), BrokenRule>
    requires { (axles ≤ most_axles) × Says new.now.text.now own.places.now new.now.says × NumberHeld file axles own.text.now own.places.now × (lastday ≡ (measure_at file axles own.text.now own.places.now).lastday) }
    ensures { result ≡ of_number (Ok tt) (λ f. first_broken_at f axles new.now.text.now own.entry.text.now own.entry.places.now) file }
{
    devices::check_devices(file, axles, own, lastday)?;
    check_other_rules(file, axles, new, own)
}
