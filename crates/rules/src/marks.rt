// What acceptance says of a result file (01, Judging).
ghost use Rattle.std.specs.Prelude.{◌≡◌, false};
ghost use Rattle.tables.specs.File.{of_number};
ghost use Rattle.tables.specs.Value.{values_of, NumberHeld};
ghost use Rattle.rules.specs.Marks.{is_marked};

use places::PlacedText;
use tables::{DRIFT, GAS, OPACITY, SUSPENSION, pairs};

// Whether CodErrore is filled.
pub fn is_marked(file: u32, axles: usize, own: PlacedText<'_>) -> bool
    requires { NumberHeld file axles own.text.now own.places.now }
    ensures { result ≡ of_number false (λ f. is_marked f (values_of f axles own.entry.text.now own.entry.places.now)) file }
{
    match file {
        DRIFT => own.length(pairs::DRIFT_COD_ERRORE) > 0,
        SUSPENSION => own.length(pairs::SUSPENSION_COD_ERRORE) > 0,
        GAS => own.length(pairs::GAS_COD_ERRORE) > 0,
        OPACITY => own.length(pairs::OPACITY_COD_ERRORE) > 0,
        _ => false,
    }
}
