// The static library for C, whose header is include/mctc.h: each call of `mctc` under its own name, with the same promises.
// Nothing is done here.
#![tactic(auto)]

ghost use Rattle.names.specs.Names as N;
ghost use Rattle.sets.specs.Records.{caller_of, slices_of};
ghost use Rattle.mctc.specs.Calls.{ReadCall, WriteCall, QuoteCall, CommitCall, JoinCall, NameCall, KindCall, JudgeCall, DueCall, AskCall};
ghost use Rattle.mctc.specs.Asked.{condition_numbers, file_numbers, test_numbers, identification_numbers, entry_numbers};

// A whole set judged (01, Judging; slice 7: 02, 2/14).
#[unsafe(no_mangle)]
pub extern "C" fn mctc_judge(
    stem: &[u8],
    ac2: &[u8],
    acc: &[u8],
    drift: &[u8],
    suspension: &[u8],
    gas: &[u8],
    identification: &[u8],
    opacity: &[u8],
    places: &mut [u32],
    answer: &mut [u32],
) -> u32
    ensures { JudgeCall (caller_of stem.now) (slices_of ac2.now acc.now drift.now
        suspension.now gas.now identification.now opacity.now)
        places.old places.new answer.old answer.new result }
{
    mctc::mctc_judge(
        stem,
        ac2,
        acc,
        drift,
        suspension,
        gas,
        identification,
        opacity,
        places,
        answer,
    )
}

// One file read alone (01, Writing).
#[unsafe(no_mangle)]
pub extern "C" fn mctc_read(file: u32, text: &[u8], places: &mut [u32], answer: &mut [u32]) -> u32
    ensures { ReadCall file text.now places.old places.new answer.old answer.new result }
{
    mctc::mctc_read(file, text, places, answer)
}

// One file written from a text and its pairs (01, Writing).
#[unsafe(no_mangle)]
pub extern "C" fn mctc_write(
    text: &[u8],
    places: &[u32],
    file: u32,
    axles: u32,
    output: &mut [u8],
    answer: &mut [u32],
) -> u32
    ensures { WriteCall text.now places.now file axles output.old output.new answer.old answer.new result }
{
    mctc::mctc_write(text, places, file, axles, output, answer)
}

// The length of one file quoted (02, 9/14).
#[unsafe(no_mangle)]
pub extern "C" fn mctc_quote(
    text: &[u8],
    places: &[u32],
    file: u32,
    axles: u32,
    answer: &mut [u32],
) -> u32
    ensures { QuoteCall text.now places.now file axles answer.old answer.new result }
{
    mctc::mctc_quote(text, places, file, axles, answer)
}

// One file written, if this is its quoted length (02, 9/14).
#[unsafe(no_mangle)]
pub extern "C" fn mctc_commit(
    text: &[u8],
    places: &[u32],
    file: u32,
    axles: u32,
    length: u32,
    output: &mut [u8],
    answer: &mut [u32],
) -> u32
    ensures { CommitCall text.now places.now file axles length output.old output.new answer.old answer.new result }
{
    mctc::mctc_commit(text, places, file, axles, length, output, answer)
}

// Two drift files made one (02, 8/14).
#[unsafe(no_mangle)]
pub extern "C" fn mctc_join(
    first: &[u8],
    second: &[u8],
    output: &mut [u8],
    answer: &mut [u32],
) -> u32
    ensures { JoinCall first.now second.now output.old output.new answer.old answer.new result }
{
    mctc::mctc_join(first, second, output, answer)
}

// The name of an entry (01, Judging).
#[unsafe(no_mangle)]
pub extern "C" fn mctc_entry_name(
    file: u32,
    entry: u32,
    output: &mut [u8],
    answer: &mut [u32],
) -> u32
    ensures { NameCall file (N.entry_name file entry) output.old output.new answer.old answer.new result }
{
    mctc::mctc_entry_name(file, entry, output, answer)
}

// The heading of a section (01, Bookings, Results).
#[unsafe(no_mangle)]
pub extern "C" fn mctc_heading_name(
    file: u32,
    section: u32,
    output: &mut [u8],
    answer: &mut [u32],
) -> u32
    ensures { NameCall file (N.heading_name file section) output.old output.new answer.old answer.new result }
{
    mctc::mctc_heading_name(file, section, output, answer)
}

// What a filled value of an entry must look like (01, Kinds of value).
#[unsafe(no_mangle)]
pub extern "C" fn mctc_kind(file: u32, entry: u32, answer: &mut [u32]) -> u32
    ensures { KindCall file (N.entry_kind file entry) answer.old answer.new result }
{
    mctc::mctc_kind(file, entry, answer)
}

// A word that an entry's value may be (01, Kinds of value).
#[unsafe(no_mangle)]
pub extern "C" fn mctc_word(
    file: u32,
    entry: u32,
    word: u32,
    output: &mut [u8],
    answer: &mut [u32],
) -> u32
    ensures { NameCall file (N.entry_word file entry word) output.old output.new answer.old answer.new result }
{
    mctc::mctc_word(file, entry, word, output, answer)
}

// The due column of one file (01, Due entries).
#[unsafe(no_mangle)]
pub extern "C" fn mctc_due(
    file: u32,
    ac2: &[u8],
    text: &[u8],
    places: &mut [u32],
    column: &mut [u32],
    answer: &mut [u32],
) -> u32
    ensures { DueCall file ac2.now text.now places.old places.new column.old column.new answer.old answer.new result }
{
    mctc::mctc_due(file, ac2, text, places, column, answer)
}

// What is asked of an entry, and why (01, Due entries).
#[unsafe(no_mangle)]
pub extern "C" fn mctc_condition(file: u32, entry: u32, answer: &mut [u32]) -> u32
    ensures { AskCall (condition_numbers file entry) answer.old answer.new result }
{
    mctc::asked::mctc_condition(file, entry, answer)
}

// What is asked of a file, and why (01, row 11).
#[unsafe(no_mangle)]
pub extern "C" fn mctc_file_condition(file: u32, answer: &mut [u32]) -> u32
    ensures { AskCall (file_numbers file) answer.old answer.new result }
{
    mctc::asked::mctc_file_condition(file, answer)
}

// Whether a value passes a test.
#[unsafe(no_mangle)]
pub extern "C" fn mctc_test(test: u32, value: &[u8], answer: &mut [u32]) -> u32
    ensures { AskCall (test_numbers test value.now) answer.old answer.new result }
{
    mctc::asked::mctc_test(test, value, answer)
}

// Where the fields of the identification answer end (01, Identification answer).
#[unsafe(no_mangle)]
pub extern "C" fn mctc_identification(text: &[u8], answer: &mut [u32]) -> u32
    ensures { AskCall (identification_numbers text.now) answer.old answer.new result }
{
    mctc::asked::mctc_identification(text, answer)
}

// The entry of gas whose value a field of the identification answer is.
#[unsafe(no_mangle)]
pub extern "C" fn mctc_field(field: u32, answer: &mut [u32]) -> u32
    ensures { AskCall (entry_numbers field) answer.old answer.new result }
{
    mctc::asked::mctc_field(field, answer)
}
