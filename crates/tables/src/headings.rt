// The headings of the files' sections, each once, as a whole line without its end.
ghost use Rattle.std.specs.Prelude.{◌≡◌, map};
ghost use Rattle.tables.specs.File.{table_of};
ghost use Rattle.tables.specs.Row.{headings};

use crate::{AC2, ACC, DRIFT, GAS, OPACITY, SUSPENSION};

static BOOKING_HEADINGS: [&[u8]; 1] = [b"[DatiLibrettoVeicolo]"];

static DRIFT_HEADINGS: [&[u8]; 10] = [
    b"[Deriva]",
    b"[DerivaAsse_1]",
    b"[DerivaAsse_2]",
    b"[DerivaAsse_3]",
    b"[DerivaAsse_4]",
    b"[DerivaAsse_5]",
    b"[DerivaAsse_6]",
    b"[DerivaAsse_7]",
    b"[DerivaAsse_8]",
    b"[DerivaAsse_9]",
];

static SUSPENSION_HEADINGS: [&[u8]; 10] = [
    b"[Sospensioni]",
    b"[SospensioniAsse_1]",
    b"[SospensioniAsse_2]",
    b"[SospensioniAsse_3]",
    b"[SospensioniAsse_4]",
    b"[SospensioniAsse_5]",
    b"[SospensioniAsse_6]",
    b"[SospensioniAsse_7]",
    b"[SospensioniAsse_8]",
    b"[SospensioniAsse_9]",
];

static GAS_HEADINGS: [&[u8]; 2] = [b"[AnalisiGas]", b"[AnalisiGasAlimentazione_1]"];

static OPACITY_HEADINGS: [&[u8]; 1] = [b"[AnalisiOpacita]"];

// The headings of a file's sections.
pub fn headings_of(file: u32) -> &'static [&'static [u8]]
    ensures { map (λ h. h.now) result.now ≡ headings (table_of file) }
{
    match file {
        AC2 | ACC => &BOOKING_HEADINGS,
        DRIFT => &DRIFT_HEADINGS,
        SUSPENSION => &SUSPENSION_HEADINGS,
        GAS => &GAS_HEADINGS,
        OPACITY => &OPACITY_HEADINGS,
        _ => &[],
    }
}
