// Judges stored sets and prints the answer and the places of each.
// Standard input: for each set ten numbers of four bytes, low byte first, the lengths of a title, a stem and seven
// slices and how many places are lent, and then the bytes of these nine. Each place holds 7 before.
#![tactic(auto)]

ghost use Rattle.std.specs.Prelude.{◌+◌, ◌≤◌, ◌<◌, length, IfSome};

use judge::SetSlices;
use refusals::Refusal;
use sets::Acceptance;
use std::io;
use std::io::{BufWriter, Read, Write};

// How many bytes the ten numbers take.
const HEADER_SIZE: usize = 40;

// As many places as are lent at most.
const MOST_PLACES: usize = 600;

// A stored set.
#[derive(Clone, Copy)]
struct Case<'a> {
    title: &'a [u8],
    stem: &'a [u8],
    slices: SetSlices<'a>,
    places: usize,
}

// The number at `at`.
fn number(header: &[u8; HEADER_SIZE], at: usize) -> usize
    requires { at + 4 ≤ 40 }
    ensures { result < 4294967296 }
{
    u32::from_le_bytes([header[at], header[at + 1], header[at + 2], header[at + 3]]) as usize
}

// The set that this header announces, and what follows it; none where the input is broken off.
fn read_case<'a>(header: &[u8; HEADER_SIZE], input: &'a [u8]) -> Option<(Case<'a>, &'a [u8])>
    ensures { IfSome result (λ r. length r.1.now ≤ length input.now) }
{
    let (title, input) = input.split_at_checked(number(header, 0))?;
    let (stem, input) = input.split_at_checked(number(header, 4))?;
    let (ac2, input) = input.split_at_checked(number(header, 8))?;
    let (acc, input) = input.split_at_checked(number(header, 12))?;
    let (drift, input) = input.split_at_checked(number(header, 16))?;
    let (suspension, input) = input.split_at_checked(number(header, 20))?;
    let (gas, input) = input.split_at_checked(number(header, 24))?;
    let (identification, input) = input.split_at_checked(number(header, 28))?;
    let (opacity, input) = input.split_at_checked(number(header, 32))?;
    let slices = SetSlices {
        ac2,
        acc,
        drift,
        suspension,
        gas,
        identification,
        opacity,
    };
    let case = Case {
        title,
        stem,
        slices,
        places: number(header, 36),
    };
    Some((case, input))
}

fn print_answer(out: &mut impl Write, answer: Result<Acceptance, Refusal>) -> io::Result<()> {
    match answer {
        Ok(a) => write!(
            out,
            "A {} {} {} {} {} {} {} {} {} {} {} {}",
            a.driftaxles,
            a.suspensionaxles,
            u8::from(a.driftmark),
            u8::from(a.suspensionmark),
            u8::from(a.gasmark),
            u8::from(a.opacitymark),
            u8::from(a.gasbyhand),
            a.compared,
            a.driftseconds,
            a.suspensionseconds,
            a.gasseconds,
            a.opacityseconds,
        ),
        Err(x) => write!(out, "R {} {} {}", u32::from(x.kind), x.file, x.line),
    }
}

fn judge_case(out: &mut impl Write, case: Case<'_>) -> io::Result<()> {
    let mut numbers = [7u32; MOST_PLACES];
    let places = &mut numbers[..case.places.min(MOST_PLACES)];
    let answer = judge::judge_set(case.stem, &case.slices, places);
    out.write_all(case.title)?;
    out.write_all(b": ")?;
    print_answer(out, answer)?;
    out.write_all(b" |")?;
    for place in places {
        write!(out, " {place}")?;
    }
    out.write_all(b"\n")
}

fn judge_all(out: &mut impl Write, input: &[u8]) -> io::Result<()> {
    let mut input = input;
    while let Some((header, rest)) = input.split_first_chunk::<HEADER_SIZE>() {
        let Some((case, rest)) = read_case(header, rest) else {
            return Ok(());
        };
        judge_case(out, case)?;
        input = rest;
    }
    Ok(())
}

fn main(rt: HostRuntime) -> io::Result<()> {
    let mut input = Vec::new(rt.alloc());
    rt.stdin().read_to_end(&mut input)?;
    let mut out = BufWriter::new(rt.alloc(), rt.stdout())?;
    judge_all(&mut out, input.as_slice())?;
    out.flush()
}
