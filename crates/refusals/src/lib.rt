// Refusals (01, Judging; 02): a kind for each row of the table, with file and line.
#![tactic(auto)]

ghost use Rattle.std.specs.Prelude.{◌≡◌};
ghost use Rattle.refusals.specs.Refusals.{number_of};

// The rows of the table, in its order; then those of document 02.
#[derive(Debug, PartialEq, Eq, Clone, Copy)]
pub enum RefusalKind {
    PlacesTooShort,
    StemForm,
    FileTooLong,
    LineForm,
    HeadingNotExpected,
    EntryNotExpected,
    SectionAbsent,
    EntryAbsent,
    WrongKind,
    NotAsDue,
    SliceNotAsDue,
    BookingRule,
    DifferenceRule,
    IdentificationForm,
    IdentificationDiffers,
    FileOrAxles,
    PairOutside,
    OutputTooShort,
    DeviceOutOfDate,
    HeadingsDisagree,
    TooManyAxles,
    LengthDiffers,
}

#[derive(Debug, PartialEq, Eq, Clone, Copy)]
pub struct Refusal {
    pub kind: RefusalKind,
    pub file: u32,
    pub line: u32,
}

// Its number in document 01 or 02.
impl From<RefusalKind> for u32 {
    ghost from_gives = { λ kind n. n ≡ number_of kind };

    fn from(kind: RefusalKind) -> u32 {
        match kind {
            RefusalKind::PlacesTooShort => 1,
            RefusalKind::StemForm => 2,
            RefusalKind::FileTooLong => 3,
            RefusalKind::LineForm => 4,
            RefusalKind::HeadingNotExpected => 5,
            RefusalKind::EntryNotExpected => 6,
            RefusalKind::SectionAbsent => 7,
            RefusalKind::EntryAbsent => 8,
            RefusalKind::WrongKind => 9,
            RefusalKind::NotAsDue => 10,
            RefusalKind::SliceNotAsDue => 11,
            RefusalKind::BookingRule => 12,
            RefusalKind::DifferenceRule => 13,
            RefusalKind::IdentificationForm => 14,
            RefusalKind::IdentificationDiffers => 15,
            RefusalKind::FileOrAxles => 16,
            RefusalKind::PairOutside => 17,
            RefusalKind::OutputTooShort => 18,
            RefusalKind::DeviceOutOfDate => 19,
            RefusalKind::HeadingsDisagree => 20,
            RefusalKind::TooManyAxles => 21,
            RefusalKind::LengthDiffers => 22,
        }
    }
}
