// The judge of a whole set (01, Judging): the answer, and the pairs and lines of its values in the places.
#![tactic(auto)]

ghost use Rattle.std.specs.Prelude.{◌≡◌, ◌≤◌, ◌<◌, ◌^◌, length};
ghost use Rattle.tables.specs.File.{ac2 as booking_file, files, most_axles, least_places};
ghost use Rattle.tables.specs.Value.{values_of, NumberHeld};
ghost use Rattle.rules.specs.Devices.{measure_at};
ghost use Rattle.rules.specs.Rules.{Says};
ghost use Rattle.sets.specs.Records.{caller_of, each_file};
ghost use Rattle.sets.specs.Judge.{figures_from, acceptance_with, judge_text, judge_booking, judge_slices};
ghost use Rattle.judge.specs.Steps.{file_numbered, IsNumber, FileReady, ValuesReady, JudgesValues, JudgesFile, text_judged, file_judged, JudgesBooking, identification_judged, JudgesIdentification, IdentificationReady, identification_refused, JudgesSlices, BookingFigures, TotalFits, JudgesLater};
ghost use Rattle.judge.specs.Judged.{slices_in, SetJudged};

use due::Booking;
use files::TextRead;
use places::PlacedText;
use refusals::{Refusal, RefusalKind};
use rules::{NewBooking, Stated};
use sets::{Acceptance, Figures};
use tables::{AC2, ACC, DRIFT, GAS, IDENTIFICATION, OPACITY, SUSPENSION};

// The slices of a set; one that is not given is empty.
#[derive(Debug, Clone, Copy)]
pub struct SetSlices<'a> {
    pub ac2: &'a [u8],
    pub acc: &'a [u8],
    pub drift: &'a [u8],
    pub suspension: &'a [u8],
    pub gas: &'a [u8],
    pub identification: &'a [u8],
    pub opacity: &'a [u8],
}

// Of a file that is not read, and of slice 6.
const NO_FIGURES: Figures = Figures {
    axles: 0,
    mark: false,
    byhand: false,
    compared: 0,
    seconds: 0,
};

// AC2 that passed: what its values say, for all slices after it, and its figures.
#[derive(Clone, Copy)]
struct Booked {
    booking: Booking,
    figures: Figures,
}

// The figures of a file whose pairs are in the places; `compared` counts the entry names compared to read it,
// `seconds` those of its measure.
fn figures_of(
    file: u32,
    axles: usize,
    compared: usize,
    seconds: u32,
    own: PlacedText<'_>,
) -> Figures
    requires { IsNumber file × (axles ≤ most_axles) × (compared < 2 ^ 32) × NumberHeld file axles own.text.now own.places.now
        × (seconds ≡ (measure_at file axles own.text.now own.places.now).seconds) }
    ensures { result ≡ figures_from (file_numbered file) axles
        (values_of (file_numbered file) axles own.entry.text.now own.entry.places.now) compared }
{
    Figures {
        axles: axles as u32,
        mark: rules::is_marked(file, axles, own),
        byhand: files::is_by_hand(file, axles, own),
        compared: compared as u32,
        seconds,
    }
}

// All of 10, then 19, 12 or 13, of a file whose pairs and lines are in the places.
fn judge_values(
    file: u32,
    read: TextRead,
    new: &NewBooking<'_>,
    own: PlacedText<'_>,
) -> Result<Figures, Refusal>
    requires { ValuesReady file read.sections read.compared new.now.says new.now.text.now own.text.now own.places.now }
    ensures { JudgesValues (file_numbered file) read.sections new.now.text.now own.entry.text.now
        own.entry.places.now result }
{
    let conditions = due::conditions_of(file, new.says, own);
    let count = tables::entries_before(file, read.sections);
    let first = tables::first_pair(file);
    let found = due::first_not_as_due(file, first, count, conditions, own.places);
    if let Some(entry) = found {
        return Err(Refusal {
            kind: RefusalKind::NotAsDue,
            file,
            line: places::line_among(own.places, first, count, entry),
        });
    }
    let axles = read.sections - tables::fixed_section_count(file);
    let measure = rules::measure_of(file, axles, own);
    match rules::first_broken(file, axles, new, own, measure.lastday) {
        Err(x) => Err(Refusal {
            kind: x.kind,
            file,
            line: places::line_among(own.places, first, count, x.entry),
        }),
        Ok(()) => Ok(figures_of(file, axles, read.compared, measure.seconds, own)),
    }
}

// AC2's text: 3 to 9, then the values, by what they say themselves.
fn judge_booking_text(text: &[u8], places: &mut [u32]) -> Result<Booked, Refusal>
    requires { least_places ≤ length places.old }
    ensures { JudgesBooking (judge_text booking_file (λ own. own) text.now) result
        places.old places.new }
{
    let read = files::read_text(AC2, text, places)?;
    let own = PlacedText { text, places };
    let booking = due::booking_of(own);
    let new = NewBooking {
        text,
        says: booking,
    };
    let figures = judge_values(AC2, read, &new, own)?;
    Ok(Booked { booking, figures })
}

// AC2: 11, then the rest.
fn judge_booking(text: &[u8], places: &mut [u32]) -> Result<Booked, Refusal>
    requires { least_places ≤ length places.old }
    ensures { JudgesBooking (judge_booking text.now) result places.old places.new }
{
    if text.len() == 0 {
        return Err(Refusal {
            kind: RefusalKind::SliceNotAsDue,
            file: AC2,
            line: 0,
        });
    }
    judge_booking_text(text, places)
}

// The text of a file after AC2: 3 to 9, then the values.
fn judge_text(
    file: u32,
    new: &NewBooking<'_>,
    text: &[u8],
    places: &mut [u32],
) -> Result<Figures, Refusal>
    requires { FileReady file new.now.says new.now.text.now places.old }
    ensures { JudgesFile (file_numbered file)
        (text_judged file new.now.text.now text.now places.old) result
        places.old places.new }
{
    let read = files::read_text(file, text, places)?;
    judge_values(file, read, new, PlacedText { text, places })
}

// A file after AC2: 11, then, where it is read, the rest.
fn judge_file(
    file: u32,
    stated: Stated,
    new: &NewBooking<'_>,
    text: &[u8],
    places: &mut [u32],
) -> Result<Figures, Refusal>
    requires { FileReady file new.now.says new.now.text.now places.old }
    ensures { JudgesFile (file_numbered file)
        (file_judged file stated new.now.text.now text.now places.old) result
        places.old places.new }
{
    let given = 0 < text.len();
    if !rules::slice_right(file, stated, new.says, given) {
        return Err(Refusal {
            kind: RefusalKind::SliceNotAsDue,
            file,
            line: 0,
        });
    }
    if !rules::is_read(file, new.says, given) {
        return Ok(NO_FIGURES);
    }
    judge_text(file, new, text, places)
}

fn refuse_identification(kind: RefusalKind) -> Result<(), Refusal>
    ensures { result ≡ identification_refused kind }
{
    Err(Refusal {
        kind,
        file: IDENTIFICATION,
        line: 0,
    })
}

// Slice 6: 11, 14, 15. It has no figures.
fn judge_identification(gas: PlacedText<'_>, identification: &[u8]) -> Result<(), Refusal>
    requires { IdentificationReady gas.text.now gas.places.now }
    ensures { JudgesIdentification
        (identification_judged gas.entry.text.now identification.now gas.entry.places.now) result }
{
    let given = 0 < identification.len();
    if !rules::identification_right(gas, given) {
        return refuse_identification(RefusalKind::SliceNotAsDue);
    }
    if !given {
        return Ok(());
    }
    let Some(ends) = serial::read_identification(identification) else {
        return refuse_identification(RefusalKind::IdentificationForm);
    };
    if !rules::same_fields(identification, ends, gas) {
        return refuse_identification(RefusalKind::IdentificationDiffers);
    }
    Ok(())
}

// The acceptance, from the figures of all files.
fn acceptance_with(
    new: Figures,
    old: Figures,
    drift: Figures,
    suspension: Figures,
    gas: Figures,
    opacity: Figures,
) -> Acceptance
    requires { TotalFits (each_file new old drift suspension gas opacity) }
    ensures { result ≡ acceptance_with (each_file new old drift suspension gas opacity) }
{
    let bookings = new.compared + old.compared;
    let results = drift.compared + suspension.compared + gas.compared + opacity.compared;
    Acceptance {
        driftaxles: drift.axles,
        suspensionaxles: suspension.axles,
        driftmark: drift.mark,
        suspensionmark: suspension.mark,
        gasmark: gas.mark,
        gasbyhand: gas.byhand,
        opacitymark: opacity.mark,
        compared: bookings + results,
        driftseconds: drift.seconds,
        suspensionseconds: suspension.seconds,
        gasseconds: gas.seconds,
        opacityseconds: opacity.seconds,
    }
}

// The slices after AC2, whose pairs are in the places. The first refusal is the set's.
fn judge_later(
    stated: Stated,
    booked: Booked,
    slices: &SetSlices<'_>,
    places: &mut [u32],
) -> Result<Acceptance, Refusal>
    requires { Says slices.now.ac2.now places.old booked.booking
        × BookingFigures stated (slices_in slices.now) places.old booked.figures }
    ensures { JudgesLater stated (slices_in slices.now) places.old places.new result }
{
    let new = NewBooking {
        text: slices.ac2,
        says: booked.booking,
    };
    let o = judge_file(ACC, stated, &new, slices.acc, places)?;
    let d = judge_file(DRIFT, stated, &new, slices.drift, places)?;
    let u = judge_file(SUSPENSION, stated, &new, slices.suspension, places)?;
    let g = judge_file(GAS, stated, &new, slices.gas, places)?;
    let gas = PlacedText {
        text: slices.gas,
        places,
    };
    judge_identification(gas, slices.identification)?;
    let y = judge_file(OPACITY, stated, &new, slices.opacity, places)?;
    Ok(acceptance_with(booked.figures, o, d, u, g, y))
}

// All slices: AC2, then the others by what it says.
fn judge_slices(
    stated: Stated,
    slices: &SetSlices<'_>,
    places: &mut [u32],
) -> Result<Acceptance, Refusal>
    requires { least_places ≤ length places.old }
    ensures { JudgesSlices files (judge_slices stated (slices_in slices.now)) result
        places.old places.new }
{
    let booked = judge_booking(slices.ac2, places)?;
    judge_later(stated, booked, slices, places)
}

// A whole set, for the stem of its files: 1, 2, then slices 1 to 7. The places hold its pairs and lines where it is accepted;
// after a refusal but 1 they are 0.
pub fn judge_set(
    stem: &[u8],
    slices: &SetSlices<'_>,
    places: &mut [u32],
) -> Result<Acceptance, Refusal>
    ensures { SetJudged (caller_of stem.now) (slices_in slices.now)
        places.old places.new result }
{
    let least = tables::least_places();
    if places.len() < least {
        return Err(Refusal {
            kind: RefusalKind::PlacesTooShort,
            file: 0,
            line: 0,
        });
    }
    places::clear(places, least);
    if !rules::good_stem(stem) {
        return Err(Refusal {
            kind: RefusalKind::StemForm,
            file: 0,
            line: 0,
        });
    }
    let answer = judge_slices(rules::stated_of(stem), slices, places);
    if answer.is_err() {
        places::clear(places, least);
    }
    answer
}
