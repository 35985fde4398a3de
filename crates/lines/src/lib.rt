// Lines of a text (01, Lines): read forward, compared and written. No name, heading or size of a file is known here.
#![tactic(auto)]

ghost use Rattle.std.specs.Prelude.{◌≡◌, ℕ, Bool, false, ◌++◌, ◌+◌, ◌/◌, ◌<◌, ◌≤◌, min, not, eqb, length, take, drop};
ghost use Rattle.std.specs.List.{prefix_len};
ghost use Rattle.std.specs.Int.Count.{count_trailing_zeros};
ghost use Rattle.lines.specs.Bytes.{is_printable, is_name, all_printable, same_bytes, without, other_run};
ghost use Rattle.lines.specs.Words.{word_at, stops_at};
ghost use Rattle.lines.specs.Comparison.{pieces, steps_over, comparison};
ghost use Rattle.lines.specs.Line.{heading, entry, written_line, written_length};
ghost use Rattle.lines.specs.Reading.{start, is_line, line_at};
ghost use Rattle.lines.specs.Writing.{put, Wrote};

// The reading position: the place of the next byte, and the number of lines before it.
#[derive(Debug, Clone, Copy, PartialEq, Eq)]
pub struct Cursor {
    pub at: usize,
    pub line: usize,
}

// What stands at a reading position. A line that is read comes with the position after it, whose `line` is
// the line's own number, from 1; a line of bad form comes with its number.
// An enum of its own: a `Result` of an `Option` is no plainer, for it would need an enum of the two kinds of line besides.
#[derive(Debug, Clone, Copy, PartialEq, Eq)]
pub enum LineRead {
    End,
    Bad {
        line: usize,
    },
    Heading {
        start: usize,
        end: usize,
        next: Cursor,
    },
    Entry {
        start: usize,
        equals: usize,
        end: usize,
        next: Cursor,
    },
}

// The eight bytes from `i` on as one number, the first lowest. The compiler makes one load of it.
fn word(text: &[u8], i: usize) -> u64
    requires { i + 8 ≤ length text.now }
    ensures { result ≡ word_at text.now 8 i }
{
    u64::from_le_bytes(<[u8; 8]>::try_from(&text[i..i + 8]).unwrap())
}

// A class of bytes: the test of one byte, and of eight at once.
trait ByteClass {
    ghost holds: { ℕ → Bool };

    fn holds(b: u8) -> bool
        ensures { result ≡ holds b };

    // Of the eight bytes from `i` on those outside the class, each as 128 in its own byte of the number.
    fn stops(text: &[u8], i: usize) -> u64
        requires { i + 8 ≤ length text.now }
        ensures { result ≡ stops_at holds text.now 8 i };
}

// Bytes from 20 to 7E hex.
struct Printable;

// What a name may hold: printable bytes other than `=`.
struct InName;

impl ByteClass for Printable {
    ghost holds = { is_printable };

    fn holds(b: u8) -> bool {
        32 <= b && b <= 126
    }

    // The high bit of a sum tells: plus 1, that the low seven bits are 7F hex; plus 60 hex, that they are at least 20 hex.
    fn stops(text: &[u8], i: usize) -> u64 {
        let x = word(text, i);
        let low = x & 0x7f7f7f7f7f7f7f7f;
        let high = low + 0x0101010101010101;
        let shown = low + 0x6060606060606060;
        (x | high | (shown ^ 0x8080808080808080)) & 0x8080808080808080
    }
}

impl ByteClass for InName {
    ghost holds = { is_name };

    fn holds(b: u8) -> bool {
        b != b'=' && Printable::holds(b)
    }

    #[tactic(auto, using(crate::proofs::Lanes::masks))]
    fn stops(text: &[u8], i: usize) -> u64 {
        Printable::stops(text, i) | marks_of(text, i, b'=')
    }
}

// Of the eight bytes from `i` on those that are `b`, each as 128 in its own byte of the number. A byte that differs from `b` in
// some bit has its high bit, or its low seven bits plus 7F hex have it.
fn marks_of(bytes: &[u8], i: usize, b: u8) -> u64
    requires { i + 8 ≤ length bytes.now }
    ensures { result ≡ stops_at (λ y. not (eqb y b)) bytes.now 8 i }
{
    let x = word(bytes, i) ^ (u64::from(b) * 0x0101010101010101);
    let other = (x & 0x7f7f7f7f7f7f7f7f) + 0x7f7f7f7f7f7f7f7f;
    ((other | x) & 0x8080808080808080) ^ 0x8080808080808080
}

// Whether none of the eight bytes from `i` on is `b`.
pub fn lacks(bytes: &[u8], i: usize, b: u8) -> bool
    requires { i + 8 ≤ length bytes.now }
    ensures { result ≡ without b (take 8 (drop i bytes.now)) }
{
    marks_of(bytes, i, b) == 0
}

// In which byte of a number its lowest 1 stands, 0 for the lowest byte.
fn first_stop(stops: u64) -> usize
    ensures { result ≡ count_trailing_zeros 64 stops / 8 }
{
    (u64::trailing_zeros(stops) / 8) as usize
}

// Where among the eight bytes from `i` on, one of which is `b`, the first `b` stands: 0 for the first of them.
#[tactic(auto, using(crate::proofs::Words::blocks))]
pub fn first_of(bytes: &[u8], i: usize, b: u8) -> usize
    requires { (i + 8 ≤ length bytes.now) × (without b (take 8 (drop i bytes.now)) ≡ false) }
    ensures { result ≡ other_run b (drop i bytes.now) }
{
    first_stop(marks_of(bytes, i, b))
}

// Where the bytes of a class from `at` on end, byte by byte.
// Not inlined: fewer than eight bytes are left only at a text's end, and the code that reads lines is shorter without it.
#[inline(never)]
fn run_rest<C: ByteClass>(text: &[u8], at: usize) -> usize
    requires { at ≤ length text.now }
    ensures { result ≡ at + prefix_len C.holds (drop at text.now) }
{
    for i in at..text.len() {
        if !C::holds(text[i]) {
            return i;
        }
    }
    text.len()
}

// Where the bytes of a class from `at` on end.
// Eight bytes by an index: a `for` over `as_chunks` was tried, and takes 2 % more instructions to read lines, which is most of what
// a set takes (docs/BENCH.md).
#[tactic(auto, using(crate::proofs::Words::blocks))]
fn run_end<C: ByteClass>(text: &[u8], at: usize) -> usize
    requires { at ≤ length text.now }
    ensures { result ≡ at + prefix_len C.holds (drop at text.now) }
{
    let mut i = at;
    while 8 <= text.len() - i {
        let stops = C::stops(text, i);
        if stops != 0 {
            return i + first_stop(stops);
        }
        i += 8;
    }
    run_rest::<C>(text, i)
}

// Whether the bytes from `at` to `end` are as many as a line has, and CR LF follows.
#[tactic(auto, unfolding(crate::specs::Reading::is_line), using(crate::proofs::Reading::line_tests))]
fn is_line(text: &[u8], at: usize, end: usize) -> bool
    requires { (at ≤ end) × (end ≤ length text.now) }
    ensures { result ≡ is_line text.now at end }
{
    (1..=512).contains(&(end - at)) && text[end..].starts_with(b"\r\n")
}

impl Cursor {
    pub fn new() -> Self
        ensures { result ≡ start }
    {
        Cursor { at: 0, line: 0 }
    }

    // The line at this position, with the position after it.
    #[tactic(auto, using(crate::proofs::Reading::laws))]
    pub fn read_line(self, text: &[u8]) -> LineRead
        ensures { result ≡ line_at text.now self }
    {
        let at = self.at;
        if text.len() <= at {
            return LineRead::End;
        }
        let number = self.line.min(at) + 1;
        if text[at] == b'[' {
            let end = run_end::<Printable>(text, at);
            if !is_line(text, at, end) {
                return LineRead::Bad { line: number };
            }
            if text[end - 1] != b']' {
                return LineRead::Bad { line: number };
            }
            return LineRead::Heading {
                start: at,
                end,
                next: Cursor {
                    at: end + 2,
                    line: number,
                },
            };
        }
        let equals = run_end::<InName>(text, at);
        let end = run_end::<Printable>(text, equals);
        if !is_line(text, at, end) {
            return LineRead::Bad { line: number };
        }
        if equals == end {
            return LineRead::Bad { line: number };
        }
        LineRead::Entry {
            start: at,
            equals,
            end,
            next: Cursor {
                at: end + 2,
                line: number,
            },
        }
    }
}

// Whether all bytes are printable, 20 to 7E hex.
pub fn all_printable(part: &[u8]) -> bool
    ensures { result ≡ all_printable part.now }
{
    run_end::<Printable>(part, 0) == part.len()
}

// What a comparison comes to: whether the parts are equal, and its steps (02, 6/14).
#[derive(Debug, Clone, Copy, PartialEq, Eq)]
pub struct Comparison {
    pub equal: bool,
    pub steps: usize,
}

// Goes on from `at` on byte by byte, of two parts of one length; up to there each eight bytes were a step.
#[tactic(auto, using(crate::proofs::Pieces::bytes))]
fn compare_rest(a: &[u8], b: &[u8], at: usize) -> Comparison
    requires { (at ≤ length a.now) × (length a.now ≡ length b.now) }
    ensures { result ≡ record { equal = same_bytes (drop at a.now) (drop at b.now); steps = at / 8 + steps_over (pieces 0 (drop at a.now)) (pieces 0 (drop at b.now)) } }
{
    for i in at..a.len() {
        if a[i] != b[i] {
            return Comparison {
                equal: false,
                steps: at / 8 + (i - at) + 1,
            };
        }
    }
    Comparison {
        equal: true,
        steps: at / 8 + (a.len() - at),
    }
}

// Compares two parts, capitals included, eight bytes at a time while eight remain. The steps are worked out from the place at which the
// comparison ends: counted on the way they cost instructions even where nobody asks for them (docs/BENCH.md).
pub fn compare(a: &[u8], b: &[u8]) -> Comparison
    ensures { result ≡ comparison a.now b.now }
{
    if a.len() != b.len() {
        return Comparison {
            equal: false,
            steps: 0,
        };
    }
    let mut i = 0;
    while 8 <= a.len() - i {
        if word(a, i) != word(b, i) {
            return Comparison {
                equal: false,
                steps: i / 8 + 1,
            };
        }
        i += 8;
    }
    compare_rest(a, b, i)
}

// Whether two parts hold the same bytes, capitals included, by the same loop: with `a == b`, which was tried, a word of a list takes four
// times as many instructions (docs/BENCH.md).
#[tactic(auto, unfolding(crate::specs::Comparison::comparison))]
pub fn equal(a: &[u8], b: &[u8]) -> bool
    ensures { result ≡ same_bytes a.now b.now }
{
    compare(a, b).equal
}

// The eight bytes of `part` from `at` on, at the same place of `out`. Through an array, of which the compiler makes one load and one
// store: two parts of any length it copies by a call of `memmove`, which a C program would have to bring.
#[tactic(auto, unfolding(crate::specs::Writing::put))]
fn write_eight(out: &mut [u8], part: &[u8], at: usize)
    requires { (at + 8 ≤ length part.now) × (length part.now ≤ length out.old) }
    ensures { out.new ≡ put out.old at (take 8 (drop at part.now)) }
{
    let eight = <[u8; 8]>::try_from(&part[at..at + 8]).unwrap();
    out[at..at + 8].copy_from_slice(&eight);
}

// The bytes of `part` at the beginning of `out`, one by one.
fn write_few(out: &mut [u8], part: &[u8])
    requires { length part.now ≤ length out.old }
    ensures { out.new ≡ put out.old 0 part.now }
{
    for i in 0..part.len() {
        out[i] = part[i];
    }
}

// The bytes of `part` at the beginning of `out`; how many. Eight at a time; the last eight are written last, over some that are there.
pub fn write(out: &mut [u8], part: &[u8]) -> usize
    requires { length part.now ≤ length out.old }
    ensures { Wrote out.old 0 part.now out.new result }
{
    let size = part.len();
    if size < 8 {
        write_few(out, part);
        return size;
    }
    for k in 0..size / 8 {
        write_eight(out, part, k * 8);
    }
    write_eight(out, part, size - 8);
    size
}

// The line of a heading at the beginning of `out`; its length.
pub fn write_heading(out: &mut [u8], text: &[u8]) -> usize
    requires { written_length (heading text.now) ≤ length out.old }
    ensures { Wrote out.old 0 (written_line (heading text.now)) out.new result }
{
    let end = write(out, text);
    end + write(&mut out[end..], b"\r\n")
}

// The line of an entry at the beginning of `out`; its length.
pub fn write_entry(out: &mut [u8], name: &[u8], value: &[u8]) -> usize
    requires { written_length (entry name.now value.now) ≤ length out.old }
    ensures { Wrote out.old 0 (written_line (entry name.now value.now)) out.new result }
{
    let mut end = write(out, name);
    end += write(&mut out[end..], b"=");
    end += write(&mut out[end..], value);
    end += write(&mut out[end..], b"\r\n");
    end
}
