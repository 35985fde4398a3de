// The interface for C (include/mctc.h), which mctc_c exports: a whole set judged, one file read alone, one file written, two drift
// files made one, names of entries and headings copied, the kinds of entries and their words, the due column of one file. Each
// call fills an array of numbers that the caller lends with its answer, and returns the first of them.
#![tactic(auto)]

pub mod asked; // asked.rt: what the judge goes by, for whoever explains a refusal

ghost use Rattle.std.specs.Prelude.{◌∷◌, List, ℕ};
ghost use Rattle.refusals.specs.Answer.{answer_is};
ghost use Rattle.names.specs.Names as N;
ghost use Rattle.sets.specs.Records.{caller_of, slices_of};
ghost use Rattle.mctc.specs.Answers.{refusal_numbers, numbers_of, read_carried, write_carried, name_carried, kind_carried, set_carried, due_carried, Room, Filled};
ghost use Rattle.mctc.specs.Calls.{AnsweredBy, ReadCall, WriteCall, QuoteCall, CommitCall, JoinCall, NameCall, KindCall, SetFilled, JudgeCall, DueCall};
ghost use Rattle.judge.specs.Judged.{slices_in};

use columns::ColumnAcceptance;
use files::FileAcceptance;
use judge::SetSlices;
use kinds::shapes::Shape;
use names::Named;
use places::PlacedText;
use refusals::Refusal;
use sets::Acceptance;
use writing::WriteAcceptance;

// How many numbers an answer takes. All are set, so that a later version can use more of them.
const ANSWER_SIZE: usize = 16;

// Returned where the answer array is too short; no refusal has this number.
const TOO_SHORT: u32 = 4294967295;

// The numbers of an answer.
type Numbers = [u32; ANSWER_SIZE];

// These numbers, then zeros. The first is returned.
fn fill(answer: &mut Numbers, numbers: &[u32]) -> u32
    requires { Room numbers.now }
    ensures { Filled numbers.now answer.new result }
{
    *answer = [0; ANSWER_SIZE];
    answer[..numbers.len()].copy_from_slice(numbers);
    numbers[0]
}

// Document 01's number of the refusal, its file and its line.
fn fill_refusal(answer: &mut Numbers, refusal: Refusal) -> u32
    ensures { Filled (refusal_numbers refusal) answer.new result }
{
    fill(answer, &[refusal.kind.into(), refusal.file, refusal.line])
}

// What an acceptance carries, as the numbers that follow the first three.
trait Carries {
    ghost carried: { Self → List ℕ };

    // The answer of an acceptance.
    fn fill(self, answer: &mut Numbers) -> u32
        ensures { Filled (0 ∷ 0 ∷ 0 ∷ carried self) answer.new result };
}

// A file read alone.
impl Carries for FileAcceptance {
    ghost carried = { read_carried };

    fn fill(self, answer: &mut Numbers) -> u32 {
        let byhand = u32::from(self.byhand);
        fill(answer, &[0, 0, 0, self.axles, 0, 0, 0, 0, 0, byhand])
    }
}

// A written file.
impl Carries for WriteAcceptance {
    ghost carried = { write_carried };

    fn fill(self, answer: &mut Numbers) -> u32 {
        fill(answer, &[0, 0, 0, self.length])
    }
}

// A judged set.
impl Carries for Acceptance {
    ghost carried = { set_carried };

    fn fill(self, answer: &mut Numbers) -> u32 {
        let drift = u32::from(self.driftmark);
        let suspension = u32::from(self.suspensionmark);
        let gas = u32::from(self.gasmark);
        let opacity = u32::from(self.opacitymark);
        let byhand = u32::from(self.gasbyhand);
        fill(
            answer,
            &[
                0,
                0,
                0,
                self.driftaxles,
                self.suspensionaxles,
                drift,
                suspension,
                gas,
                opacity,
                byhand,
                self.compared,
                self.driftseconds,
                self.suspensionseconds,
                self.gasseconds,
                self.opacityseconds,
            ],
        )
    }
}

// A copied name.
impl Carries for Named {
    ghost carried = { name_carried };

    fn fill(self, answer: &mut Numbers) -> u32 {
        fill(answer, &[0, 0, 0, self.length, self.section])
    }
}

// The kind of an entry.
impl Carries for Shape {
    ghost carried = { kind_carried };

    fn fill(self, answer: &mut Numbers) -> u32 {
        fill(
            answer,
            &[0, 0, 0, self.form, self.most, self.decimals, self.words],
        )
    }
}

// The due column of a file, besides its numbers.
impl Carries for ColumnAcceptance {
    ghost carried = { due_carried };

    fn fill(self, answer: &mut Numbers) -> u32 {
        fill(answer, &[0, 0, 0, self.axles, self.count])
    }
}

// What a call says that accepts or refuses.
fn fill_answer<A: Carries>(answer: &mut Numbers, given: Result<A, Refusal>) -> u32
    ensures { Filled (numbers_of A.carried (answer_is given)) answer.new result }
{
    match given {
        Err(x) => fill_refusal(answer, x),
        Ok(a) => a.fill(answer),
    }
}

// What a call says, in the first numbers of an answer array that is long enough; else nothing is done.
fn answered<F: FnMut(&mut Numbers) -> u32>(answer: &mut [u32], call: &mut F) -> u32
    requires { F.IsAlwaysCallable call.old }
    ensures { AnsweredBy F.FnMut call.old call.new answer.old answer.new result }
{
    match answer.first_chunk_mut::<ANSWER_SIZE>() {
        Some(numbers) => call(numbers),
        None => TOO_SHORT,
    }
}

// A whole set judged (01, Judging; slice 7: 02, 2/14). With an answer array that is too short nothing is touched, here and in
// the others.
pub fn mctc_judge(
    stem: &[u8],
    ac2: &[u8],
    acc: &[u8],
    drift: &[u8],
    suspension: &[u8],
    gas: &[u8],
    identification: &[u8],
    opacity: &[u8],
    places: &mut [u32],
    answer: &mut [u32],
) -> u32
    ensures { JudgeCall (caller_of stem.now) (slices_of ac2.now acc.now drift.now
        suspension.now gas.now identification.now opacity.now)
        places.old places.new answer.old answer.new result }
{
    let slices = SetSlices {
        ac2,
        acc,
        drift,
        suspension,
        gas,
        identification,
        opacity,
    };
    answered(
        answer,
        &mut |numbers|
            ensures { SetFilled (caller_of stem.entry.now) (slices_in slices.entry)
                places.entry.now places.exit.now numbers.new result }
        { fill_answer(numbers, judge::judge_set(stem, &slices, places)) },
    )
}

// One file read alone (01, Writing).
pub fn mctc_read(file: u32, text: &[u8], places: &mut [u32], answer: &mut [u32]) -> u32
    ensures { ReadCall file text.now places.old places.new answer.old answer.new result }
{
    answered(
        answer,
        &mut |numbers| { fill_answer(numbers, files::read_alone(file, text, places)) },
    )
}

// One file written from a text and its pairs (01, Writing).
pub fn mctc_write(
    text: &[u8],
    places: &[u32],
    file: u32,
    axles: u32,
    output: &mut [u8],
    answer: &mut [u32],
) -> u32
    ensures { WriteCall text.now places.now file axles output.old output.new answer.old answer.new result }
{
    let values = PlacedText { text, places };
    answered(
        answer,
        &mut |numbers| { fill_answer(numbers, writing::write_file(values, file, axles, output)) },
    )
}

// The length of one file quoted (02, 9/14).
pub fn mctc_quote(text: &[u8], places: &[u32], file: u32, axles: u32, answer: &mut [u32]) -> u32
    ensures { QuoteCall text.now places.now file axles answer.old answer.new result }
{
    let values = PlacedText { text, places };
    answered(
        answer,
        &mut |numbers| fill_answer(numbers, writing::quote(values, file, axles)),
    )
}

// One file written, if this is its quoted length (02, 9/14).
pub fn mctc_commit(
    text: &[u8],
    places: &[u32],
    file: u32,
    axles: u32,
    length: u32,
    output: &mut [u8],
    answer: &mut [u32],
) -> u32
    ensures { CommitCall text.now places.now file axles length output.old output.new answer.old answer.new result }
{
    let values = PlacedText { text, places };
    answered(
        answer,
        &mut |numbers| {
            fill_answer(
                numbers,
                writing::commit(values, file, axles, length, output),
            )
        },
    )
}

// Two drift files made one (02, 8/14).
pub fn mctc_join(first: &[u8], second: &[u8], output: &mut [u8], answer: &mut [u32]) -> u32
    ensures { JoinCall first.now second.now output.old output.new answer.old answer.new result }
{
    answered(
        answer,
        &mut |numbers| { fill_answer(numbers, joining::join_files(first, second, output)) },
    )
}

// The name of an entry, by its number in the order of the file's pairs (01, Judging).
pub fn mctc_entry_name(file: u32, entry: u32, output: &mut [u8], answer: &mut [u32]) -> u32
    ensures { NameCall file (N.entry_name file entry) output.old output.new answer.old answer.new result }
{
    answered(
        answer,
        &mut |numbers| { fill_answer(numbers, names::copy_entry_name(file, entry, output)) },
    )
}

// The heading of a section, brackets included, by its number in the order of the file's table (01, Bookings, Results).
pub fn mctc_heading_name(file: u32, section: u32, output: &mut [u8], answer: &mut [u32]) -> u32
    ensures { NameCall file (N.heading_name file section) output.old output.new answer.old answer.new result }
{
    answered(
        answer,
        &mut |numbers| { fill_answer(numbers, names::copy_heading(file, section, output)) },
    )
}

// What a filled value of an entry must look like, by its number in the order of the file's pairs (01, Kinds of value).
pub fn mctc_kind(file: u32, entry: u32, answer: &mut [u32]) -> u32
    ensures { KindCall file (N.entry_kind file entry) answer.old answer.new result }
{
    answered(
        answer,
        &mut |numbers| fill_answer(numbers, names::kind_of_entry(file, entry)),
    )
}

// A word that an entry's value may be, by its number in the order of its list (01, Kinds of value).
pub fn mctc_word(file: u32, entry: u32, word: u32, output: &mut [u8], answer: &mut [u32]) -> u32
    ensures { NameCall file (N.entry_word file entry word) output.old output.new answer.old answer.new result }
{
    answered(
        answer,
        &mut |numbers| { fill_answer(numbers, names::copy_word(file, entry, word, output)) },
    )
}

// The due column of one file (01, Due entries).
pub fn mctc_due(
    file: u32,
    ac2: &[u8],
    text: &[u8],
    places: &mut [u32],
    column: &mut [u32],
    answer: &mut [u32],
) -> u32
    ensures { DueCall file ac2.now text.now places.old places.new column.old column.new answer.old answer.new result }
{
    answered(
        answer,
        &mut |numbers| {
            fill_answer(
                numbers,
                columns::due_column(file, ac2, text, places, column),
            )
        },
    )
}
