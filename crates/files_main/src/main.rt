// Reads stored files alone, writes them from the places that were filled, and prints the answers.
// Standard input: for each case a title, a command and a text, each ended by a byte 00. The commands, with numbers:
//     read FILE PLACES                 the text is read alone
//     write FILE PLACES AXLES OUTPUT   the text is read alone, then written from its pairs
// Behind `write` may stand PAIR START LENGTH LINE, up to fifteen times: pairs and lines that are changed before the writing.
// PLACES numbers are lent, each of which holds 7, and OUTPUT bytes, each of which holds AA hex.
#![tactic(auto)]

ghost use Rattle.std.specs.Prelude.{◌-◌, ◌≤◌, length};

use files::FileAcceptance;
use places::{PLACE_SIZE, PlacedText};
use refusals::Refusal;
use std::io;
use std::io::{BufWriter, Read, Write};
use writing::WriteAcceptance;

const ENTRIES: usize = 194;

// As many numbers as a caller lends at least for the places.
const LEAST_PLACES: usize = PLACE_SIZE * ENTRIES;

const MOST_PLACES: usize = 630;

const MOST_OUTPUT: usize = 4096;

// The bytes before the first byte 00, or all, and those after it.
// Stands in three programs: a library for eight lines would be no plainer.
fn split_part(input: &[u8]) -> (&[u8], &[u8])
    ensures { length result.1.now ≤ length input.now - 1 }
{
    match input.iter().position(|b| *b == 0) {
        Some(end) => (&input[..end], &input[end + 1..]),
        None => (input, &[]),
    }
}

// A number with one more byte of its word: a decimal digit goes behind it; the largest where that is too large.
fn next_number(n: u32, b: u8) -> u32 {
    match b {
        b'0'..=b'9' => n.saturating_mul(10).saturating_add(u32::from(b - b'0')),
        _ => n,
    }
}

// The word of a line with this number, words being counted from 0.
fn word_at(line: &[u8], word: usize) -> Option<&[u8]> {
    line.split(|b| *b == b' ').nth(word)
}

// The number that the digits of a word spell; one that is left out is 0: each caller would make that of an `Option`.
fn number_at(line: &[u8], word: usize) -> u32 {
    let Some(bytes) = word_at(line, word) else {
        return 0;
    };
    bytes.iter().fold(0, |n, b| next_number(n, *b))
}

// The number of a word as a size, at most `most`.
fn size_at(line: &[u8], word: usize, most: usize) -> usize
    ensures { result ≤ most }
{
    most.min(number_at(line, word) as usize)
}

fn show_refusal(out: &mut impl Write, refusal: Refusal) -> io::Result<()> {
    let number = u32::from(refusal.kind);
    writeln!(out, "refused {number} {} {}", refusal.file, refusal.line)
}

fn show_file_answer(
    out: &mut impl Write,
    answer: Result<FileAcceptance, Refusal>,
) -> io::Result<()> {
    match answer {
        Ok(acceptance) => {
            let mark = if acceptance.byhand { " by hand" } else { "" };
            writeln!(out, "accepted {}{mark}", acceptance.axles)
        }
        Err(refusal) => show_refusal(out, refusal),
    }
}

// The pairs and lines that are not 0, each behind its number.
fn show_triples(out: &mut impl Write, places: &[u32]) -> io::Result<()>
    requires { LEAST_PLACES ≤ length places.now }
{
    for k in 0..ENTRIES {
        let start = places::start_of(places, k);
        let size = places::length_of(places, k);
        let line = places::line_of(places, k);
        if start != 0 || size != 0 || line != 0 {
            write!(out, " {k}:{start}+{size}@{line}")?;
        }
    }
    Ok(())
}

// How many of these hold what they were lent with.
fn kept<T: Copy + PartialEq>(lent: &[T], filling: T) -> usize {
    lent.iter().filter(|x| **x == filling).count()
}

fn show_kept(out: &mut impl Write, n: usize) -> io::Result<()> {
    writeln!(out, "kept {n}")
}

fn show_places(out: &mut impl Write, places: &[u32]) -> io::Result<()> {
    if places.len() < LEAST_PLACES {
        return show_kept(out, kept(places, 7));
    }
    out.write_all(b"places")?;
    show_triples(out, places)?;
    out.write_all(b"\n")?;
    show_kept(out, kept(&places[LEAST_PLACES..], 7))
}

fn read_lent(out: &mut impl Write, file: u32, text: &[u8], places: &mut [u32]) -> io::Result<()> {
    let answer = files::read_alone(file, text, places);
    show_file_answer(out, answer)?;
    show_places(out, places)
}

fn show_read(out: &mut impl Write, command: &[u8], text: &[u8]) -> io::Result<()> {
    let mut places = [7u32; MOST_PLACES];
    let n = size_at(command, 2, MOST_PLACES);
    read_lent(out, number_at(command, 1), text, &mut places[..n])
}

// The written bytes, what reading them back answers, and how many later bytes stayed.
fn show_written(
    out: &mut impl Write,
    file: u32,
    length: usize,
    output: &[u8],
    places: &mut [u32],
) -> io::Result<()> {
    writeln!(out, "written {length}")?;
    if output.len() < length {
        return Ok(());
    }
    let (written, later) = output.split_at(length);
    out.write_all(written)?;
    let answer = files::read_alone(file, written, places);
    show_file_answer(out, answer)?;
    show_kept(out, kept(later, 170))
}

fn show_write_answer(
    out: &mut impl Write,
    file: u32,
    answer: Result<WriteAcceptance, Refusal>,
    output: &[u8],
    places: &mut [u32],
) -> io::Result<()> {
    match answer {
        Ok(acceptance) => show_written(out, file, acceptance.length as usize, output, places),
        Err(refusal) => {
            show_refusal(out, refusal)?;
            show_kept(out, kept(output, 170))
        }
    }
}

// Pair, start, length and line from a word on, into the places where these have the pair.
fn change_triple(command: &[u8], word: usize, places: &mut [u32])
    requires { word ≤ 61 }
{
    let k = size_at(command, word, MOST_PLACES);
    if PLACE_SIZE * (k + 1) <= places.len() {
        let start = number_at(command, word + 1);
        let size = number_at(command, word + 2);
        places::set_triple(places, k, start, size, number_at(command, word + 3));
    }
}

fn change_triples(command: &[u8], places: &mut [u32]) {
    // A blank at the end begins no word.
    let command = command.strip_suffix(b" ").unwrap_or(command);
    for triple in 0..15 {
        let word = 5 + 4 * triple;
        if word_at(command, word).is_none() {
            return;
        }
        change_triple(command, word, places);
    }
}

fn write_lent(
    out: &mut impl Write,
    command: &[u8],
    text: &[u8],
    places: &mut [u32],
    output: &mut [u8],
) -> io::Result<()> {
    let file = number_at(command, 1);
    let _ = files::read_alone(file, text, places);
    change_triples(command, places);
    let values = PlacedText { text, places };
    let answer = writing::write_file(values, file, number_at(command, 3), output);
    show_write_answer(out, file, answer, output, places)
}

fn show_write(out: &mut impl Write, command: &[u8], text: &[u8]) -> io::Result<()> {
    let mut places = [7u32; MOST_PLACES];
    let mut output = [170u8; MOST_OUTPUT];
    let n = size_at(command, 2, MOST_PLACES);
    let m = size_at(command, 4, MOST_OUTPUT);
    write_lent(out, command, text, &mut places[..n], &mut output[..m])
}

fn show_case(out: &mut impl Write, command: &[u8], text: &[u8]) -> io::Result<()> {
    match command.first() {
        Some(b'r') => show_read(out, command, text),
        Some(b'w') => show_write(out, command, text),
        _ => Ok(()),
    }
}

fn show_all(out: &mut impl Write, input: &[u8]) -> io::Result<()> {
    let mut rest = input;
    while !rest.is_empty() {
        let (title, behind) = split_part(rest);
        let (command, behind) = split_part(behind);
        let (text, others) = split_part(behind);
        out.write_all(b"-- ")?;
        out.write_all(title)?;
        out.write_all(b"\n")?;
        show_case(out, command, text)?;
        rest = others;
    }
    Ok(())
}

fn main(rt: HostRuntime) -> io::Result<()> {
    let mut input = Vec::new(rt.alloc());
    rt.stdin().read_to_end(&mut input)?;
    let mut out = BufWriter::new(rt.alloc(), rt.stdout())?;
    show_all(&mut out, input.as_slice())?;
    out.flush()
}
