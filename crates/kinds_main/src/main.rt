// Judges a table of values by their kinds. Each line of the standard input is a kind number, a space and a value; it is
// written back with the verdict and, where the value has a meaning of its kind, what it reads as.
#![tactic(auto)]

use kinds::numbers;
use std::fmt::Display;
use std::io;
use std::io::{BufWriter, Read, Write};

fn show_number(out: &mut impl Write, read: Option<impl Display + Drop>) -> io::Result<()> {
    match read {
        Some(n) => write!(out, " {n}"),
        None => Ok(()),
    }
}

fn show_revs(out: &mut impl Write, value: &[u8]) -> io::Result<()> {
    let Some(revs) = kinds::read_revs(value) else {
        return Ok(());
    };
    show_number(out, Some(revs.number))?;
    if revs.byhand {
        out.write_all(b" by hand")?;
    }
    Ok(())
}

fn show_word(out: &mut impl Write, list: u8, value: &[u8]) -> io::Result<()> {
    show_number(out, Some(kinds::word_index(list, value)))
}

fn show_reading(out: &mut impl Write, kind: u8, value: &[u8]) -> io::Result<()> {
    match kind {
        numbers::N_1..=numbers::N_5 => show_number(out, kinds::read_number(value)),
        numbers::D | numbers::DATA_PRIMA_IMM => show_number(out, kinds::read_first_day(value)),
        numbers::H => show_number(out, kinds::read_time(value)),
        numbers::DERIVA => show_number(out, kinds::read_drift(value)),
        numbers::N_BY_HAND_5 => show_revs(out, value),
        numbers::VEHICLE_TYPE..=numbers::COUNTER_LINK => {
            show_word(out, kind - numbers::VEHICLE_TYPE, value)
        }
        numbers::OUTCOME => show_word(out, numbers::OUTCOMES, value),
        _ => Ok(()),
    }
}

fn show_verdict(out: &mut impl Write, kind: u8, value: &[u8]) -> io::Result<()> {
    if kinds::kind_ok(kind, value) {
        out.write_all(b": yes")
    } else {
        out.write_all(b": no")
    }
}

fn show_judged(out: &mut impl Write, kind: u32, value: &[u8]) -> io::Result<()> {
    match u8::try_from(kind) {
        Ok(kind) => {
            show_verdict(out, kind, value)?;
            show_reading(out, kind, value)
        }
        Err(_) => out.write_all(b": no kind number"),
    }
}

fn show_case(out: &mut impl Write, line: &[u8]) -> io::Result<()> {
    out.write_all(line)?;
    if let Some(space) = line.iter().position(|&c| c == b' ') {
        if let Some(kind) = kinds::read_number(&line[..space]) {
            show_judged(out, kind, &line[space + 1..])?;
        }
    }
    out.write_all(b"\n")
}

fn show_cases(out: &mut impl Write, text: &[u8]) -> io::Result<()> {
    for line in text.split_inclusive(|&c| c == b'\n') {
        show_case(out, line.strip_suffix(b"\n").unwrap_or(line))?;
    }
    Ok(())
}

fn main(rt: HostRuntime) -> io::Result<()> {
    let mut input = Vec::new(rt.alloc());
    rt.stdin().read_to_end(&mut input)?;
    let mut out = BufWriter::new(rt.alloc(), rt.stdout())?;
    show_cases(&mut out, input.as_slice())?;
    out.flush()
}
