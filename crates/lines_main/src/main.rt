// Reads the lines of stored texts and prints what each is, its number and its places; compares stored names and prints whether they are
// equal, and the steps (02, 6/14).
// Standard input: for each text a title and the text, for each two names a title that begins with `names: ` and the names; each ended by
// a byte 00.
#![tactic(auto)]

ghost use Rattle.std.specs.Prelude.{◌-◌, ◌≤◌, length};

use lines::{Cursor, LineRead};
use std::io;
use std::io::{BufWriter, Read, Write};

// The bytes before the first byte 00, or all, and those after it.
// Stands in three programs: a library for eight lines would be no plainer.
fn split_part(input: &[u8]) -> (&[u8], &[u8])
    ensures { length result.1.now ≤ length input.now - 1 }
{
    match input.iter().position(|b| *b == 0) {
        Some(end) => (&input[..end], &input[end + 1..]),
        None => (input, &[]),
    }
}

fn show_text(out: &mut impl Write, text: &[u8]) -> io::Result<()> {
    let mut c = Cursor::new();
    loop {
        match c.read_line(text) {
            LineRead::End => {
                return writeln!(out, "end");
            }
            LineRead::Bad { line } => {
                return writeln!(out, "bad {line}");
            }
            LineRead::Heading { start, end, next } => {
                writeln!(out, "heading {} {start} {end}", next.line)?;
                c = next;
            }
            LineRead::Entry {
                start,
                equals,
                end,
                next,
            } => {
                writeln!(out, "entry {} {start} {equals} {end}", next.line)?;
                c = next;
            }
        }
    }
}

fn show_names(out: &mut impl Write, first: &[u8], second: &[u8]) -> io::Result<()> {
    let found = lines::compare(first, second);
    let answer = if found.equal { "equal" } else { "not equal" };
    writeln!(out, "{answer}, steps: {}", found.steps)
}

fn show_all(out: &mut impl Write, input: &[u8]) -> io::Result<()> {
    let mut rest = input;
    while !rest.is_empty() {
        let (title, behind) = split_part(rest);
        let (first, others) = split_part(behind);
        out.write_all(b"-- ")?;
        out.write_all(title)?;
        out.write_all(b"\n")?;
        if title.starts_with(b"names: ") {
            let (second, further) = split_part(others);
            show_names(out, first, second)?;
            rest = further;
        } else {
            show_text(out, first)?;
            rest = others;
        }
    }
    Ok(())
}

fn main(rt: HostRuntime) -> io::Result<()> {
    let mut input = Vec::new(rt.alloc());
    rt.stdin().read_to_end(&mut input)?;
    let mut out = BufWriter::new(rt.alloc(), rt.stdout())?;
    show_all(&mut out, input.as_slice())?;
    out.flush()
}
