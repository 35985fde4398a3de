// The stem (2), which slices are due (11), and which files are read (01, Due entries and Judging).
ghost use Rattle.std.specs.Prelude.{◌≡◌, true, ◌<◌, ltb, length};
ghost use Rattle.tables.specs.File.{gas, of_number};
ghost use Rattle.tables.specs.Value.{values_of, Held};
ghost use Rattle.rules.specs.Slices.{good_stem, stated_of, exactly, old_booking_right, opacity_due, slice_right, is_read, identification_right};

use crate::Stated;
use places::PlacedText;
use tables::{AC2, ACC, GAS, OPACITY, pairs};

// 2
#[tactic(auto, unfolding(crate::specs::Slices::good_stem))]
pub fn good_stem(stem: &[u8]) -> bool
    ensures { result ≡ good_stem stem.now }
{
    stem.len() == 8
        && stem[0].is_ascii_uppercase()
        && stem[1].is_ascii_uppercase()
        && kinds::all_digits(&stem[2..])
}

#[tactic(auto, unfolding(crate::specs::Slices::stated_of))]
pub fn stated_of(stem: &[u8]) -> Stated
    ensures { result ≡ stated_of stem.now }
{
    Stated {
        nine: stem.len() > 2 && stem[2] == b'9',
    }
}

fn is_exactly(due: bool, given: bool) -> bool
    ensures { result ≡ exactly due given }
{
    due == given
}

#[tactic(auto, unfolding(crate::specs::Slices::old_booking_right))]
fn old_booking_right(stated: Stated, category: usize, given: bool) -> bool
    ensures { result ≡ old_booking_right stated category given }
{
    !given || !due::is_l(category) || stated.nine
}

// DIESEL with a category M or N
#[tactic(auto, unfolding(crate::specs::Slices::opacity_due))]
fn opacity_due(b: due::Booking) -> bool
    ensures { result ≡ opacity_due b }
{
    due::is_diesel(b.fuel) && due::is_m_or_n(b.category)
}

// 11 of the file of this number.
#[tactic(auto, unfolding(crate::specs::Slices::slice_right, tables::specs::File::of_number))]
pub fn slice_right(file: u32, stated: Stated, booking: due::Booking, given: bool) -> bool
    ensures { result ≡ of_number true (λ f. slice_right f stated booking given) file }
{
    match file {
        AC2 => given,
        ACC => old_booking_right(stated, booking.category, given),
        GAS => is_exactly(due::is_petrol(booking.fuel), given),
        OPACITY => is_exactly(opacity_due(booking), given),
        _ => true,
    }
}

// Whether the file of this number is read.
#[tactic(auto, unfolding(crate::specs::Slices::is_read, tables::specs::File::of_number))]
pub fn is_read(file: u32, booking: due::Booking, given: bool) -> bool
    ensures { result ≡ of_number given (λ f. is_read f booking given) file }
{
    match file {
        ACC => given && !due::is_l(booking.category),
        _ => given,
    }
}

// 11 of slice 6; `own` is gas. Of gas that is not given no value is looked at.
pub fn identification_right(own: PlacedText<'_>, given: bool) -> bool
    requires { 0 < length own.text.now → Held gas 0 own.text.now own.places.now }
    ensures { result ≡ identification_right (ltb 0 (length own.entry.text.now)) (values_of gas 0 own.entry.text.now own.entry.places.now) given }
{
    let serial = own.text.len() > 0 && due::is_serial(own.value(pairs::GAS_TIPO_COLLEGAMENTO));
    is_exactly(serial, given)
}
