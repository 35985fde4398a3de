// Differenza% of each axle (01, Results: Suspension; row 13).
ghost use Rattle.std.specs.Prelude.{◌≡◌, ◌≤◌};
ghost use Rattle.tables.specs.File.{suspension, most_axles};
ghost use Rattle.tables.specs.Value.{values_of, Held};
ghost use Rattle.rules.specs.Rule.{first_broken};
ghost use Rattle.rules.specs.Differences.{difference, difference_fits, differences_from};

use crate::{BrokenRule, bookings};
use places::PlacedText;
use tables::pairs;

fn axle_fits(left: &[u8], right: &[u8], value: &[u8]) -> bool
    ensures { result ≡ difference_fits left.now right.now value.now }
{
    match (kinds::read_number(left), kinds::read_number(right)) {
        (Some(m), Some(n)) => bookings::number_is(value, m.abs_diff(n) as usize),
        _ => false,
    }
}

pub fn check_differences(axles: usize, own: PlacedText<'_>) -> Result<(), BrokenRule>
    requires { (axles ≤ most_axles) × Held suspension axles own.text.now own.places.now }
    ensures { result ≡ first_broken suspension (differences_from (values_of suspension axles own.entry.text.now own.entry.places.now) 0 axles) }
{
    for i in 0..axles {
        let k = pairs::SUSPENSION_AXLE_PAIRS * i;
        let left = own.value(pairs::SUSPENSION_ADERENZA_SX + k);
        let right = own.value(pairs::SUSPENSION_ADERENZA_DX + k);
        let pair = pairs::SUSPENSION_DIFFERENZA + k;
        if !axle_fits(left, right, own.value(pair)) {
            return Err(BrokenRule {
                entry: pair - pairs::SUSPENSION_FIRST,
                kind: refusals::RefusalKind::DifferenceRule,
            });
        }
    }
    Ok(())
}
