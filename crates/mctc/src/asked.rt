// What the judge goes by, for whoever explains a refusal: what is asked of an entry and of a file, for which reasons,
// whether a value passes a test, and the fields of the identification answer. Nothing is judged here.
ghost use Rattle.std.specs.Prelude.{Some};
ghost use Rattle.serial.specs.Reading.{Ordered};
ghost use Rattle.mctc.specs.Answers.{Filled};
ghost use Rattle.mctc.specs.Asked.{no_such, asked_numbers, condition_numbers, file_numbers, test_numbers, field_numbers, EndsFit, identification_numbers, entry_numbers};
ghost use Rattle.mctc.specs.Calls.{AskCall};

use crate::Numbers;
use refusals::{Refusal, RefusalKind};
use serial::FieldEnds;

// Number 16: there is no such file, entry, test or field.
fn fill_no_such(answer: &mut Numbers, file: u32) -> u32
    ensures { Filled (no_such file) answer.new result }
{
    crate::fill_refusal(
        answer,
        Refusal {
            kind: RefusalKind::FileOrAxles,
            file,
            line: 0,
        },
    )
}

// What is asked, then twelve numbers of reasons, each by its place: a copy into an array of sixteen would be no plainer.
fn fill_asked(answer: &mut Numbers, file: u32, asked: u32, why: [u32; 12]) -> u32
    ensures { Filled (asked_numbers file asked why) answer.new result }
{
    if asked == 0 {
        return fill_no_such(answer, file);
    }
    crate::fill(
        answer,
        &[
            0, 0, 0, asked, why[0], why[1], why[2], why[3], why[4], why[5], why[6], why[7], why[8],
            why[9], why[10], why[11],
        ],
    )
}

// What is asked of an entry, by its number in the order of the file's pairs, and why (01, Due entries).
pub fn mctc_condition(file: u32, entry: u32, answer: &mut [u32]) -> u32
    ensures { AskCall (condition_numbers file entry) answer.old answer.new result }
{
    crate::answered(
        answer,
        &mut |numbers| {
            let asked = reasons::entry_asked(file, entry);
            fill_asked(numbers, file, asked, reasons::entry_reasons(file, entry))
        },
    )
}

// What is asked of a file, and why (01, row 11).
pub fn mctc_file_condition(file: u32, answer: &mut [u32]) -> u32
    ensures { AskCall (file_numbers file) answer.old answer.new result }
{
    crate::answered(
        answer,
        &mut |numbers| {
            let asked = reasons::file_asked(file);
            fill_asked(numbers, file, asked, reasons::file_reasons(file))
        },
    )
}

// Whether a value passes a test.
pub fn mctc_test(test: u32, value: &[u8], answer: &mut [u32]) -> u32
    ensures { AskCall (test_numbers test value.now) answer.old answer.new result }
{
    crate::answered(
        answer,
        &mut |numbers| {
            if !reasons::is_test(test) {
                return fill_no_such(numbers, 0);
            }
            let passed = u32::from(reasons::passes(test, value));
            crate::fill(numbers, &[0, 0, 0, passed])
        },
    )
}

// Where each of the ten fields ends.
fn fill_ends(answer: &mut Numbers, e: FieldEnds) -> u32
    requires { Ordered 512 e }
    ensures { Filled (field_numbers (Some e)) answer.new result }
{
    crate::fill(
        answer,
        &[
            0,
            0,
            0,
            e.gas as u32,
            e.address as u32,
            e.id as u32,
            e.mar as u32,
            e.model as u32,
            e.numom as u32,
            e.numser as u32,
            e.datasca as u32,
            e.numver as u32,
            e.vermctcnet as u32,
        ],
    )
}

// What reading the identification answer says.
fn fill_fields(answer: &mut Numbers, read: Option<FieldEnds>) -> u32
    requires { EndsFit read }
    ensures { Filled (field_numbers read) answer.new result }
{
    match read {
        None => crate::fill_refusal(
            answer,
            Refusal {
                kind: RefusalKind::IdentificationForm,
                file: tables::IDENTIFICATION,
                line: 0,
            },
        ),
        Some(e) => fill_ends(answer, e),
    }
}

// Where the fields of the identification answer end (01, Identification answer).
pub fn mctc_identification(text: &[u8], answer: &mut [u32]) -> u32
    ensures { AskCall (identification_numbers text.now) answer.old answer.new result }
{
    crate::answered(
        answer,
        &mut |numbers| { fill_fields(numbers, serial::read_identification(text)) },
    )
}

// The entry of gas whose value a field of the identification answer is.
pub fn mctc_field(field: u32, answer: &mut [u32]) -> u32
    ensures { AskCall (entry_numbers field) answer.old answer.new result }
{
    crate::answered(
        answer,
        &mut |numbers| {
            if !reasons::is_of_seven(field) {
                return fill_no_such(numbers, 0);
            }
            crate::fill(numbers, &[0, 0, 0, reasons::field_entry(field)])
        },
    )
}
