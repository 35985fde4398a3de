// Places (01, Judging; 02, 7/14): the start, the length and the line of each value, in numbers that the caller lends.
#![tactic(auto)]

ghost use Rattle.std.specs.Prelude.{◌≡◌, ◌+◌, ◌*◌, ◌<◌, ◌≤◌, length, get_or, replicate};
ghost use Rattle.places.specs.Places.{place_size, start_of, length_of, line_of, set_triple, lines_at, value_of, cleared};

// That a pair lies within the places, or that these are as many as a set needs, stays a clause here and above: they are the caller's,
// of any length. A type of places long enough would hold a `&mut`, of which each contract must then say what it hands back.
// That a file's pairs lie within its text (`Held`, with so many axles) stays one too: what takes them asks it for all axles or for
// none, and a struct for each would be built, with its proof, where it is used.

// How many numbers a triple takes: start, length and line.
pub const PLACE_SIZE: usize = 3;

// The start of pair k.
pub fn start_of(places: &[u32], k: usize) -> u32
    requires { place_size * (k + 1) ≤ length places.now }
    ensures { result ≡ start_of places.now k }
{
    places[PLACE_SIZE * k]
}

// The length of pair k.
pub fn length_of(places: &[u32], k: usize) -> u32
    requires { place_size * (k + 1) ≤ length places.now }
    ensures { result ≡ length_of places.now k }
{
    places[PLACE_SIZE * k + 1]
}

// The line beside pair k.
pub fn line_of(places: &[u32], k: usize) -> u32
    requires { place_size * (k + 1) ≤ length places.now }
    ensures { result ≡ line_of places.now k }
{
    places[PLACE_SIZE * k + 2]
}

// The line of an entry among the `count` whose pairs stand from `first` on; where it is none of them 0, which a refusal without a
// line carries.
pub fn line_among(places: &[u32], first: usize, count: usize, entry: usize) -> u32
    requires { place_size * (first + count) ≤ length places.now }
    ensures { result ≡ get_or (lines_at places.now first count) entry 0 }
{
    if entry < count {
        return line_of(places, first + entry);
    }
    0
}

// Pair k becomes this start and this length, with this line.
pub fn set_triple(places: &mut [u32], k: usize, start: u32, size: u32, line: u32)
    requires { place_size * (k + 1) ≤ length places.old }
    ensures { places.new ≡ set_triple k (start, size) line places.old }
{
    let at = PLACE_SIZE * k;
    places[at] = start;
    places[at + 1] = size;
    places[at + 2] = line;
}

// The value that pair k names, which lies within the text. It is the text's alone: the places may change under it.
pub fn value_of<'a>(text: &'a [u8], places: &[u32], k: usize) -> &'a [u8]
    requires { (place_size * (k + 1) ≤ length places.now) × (start_of places.now k + length_of places.now k ≤ length text.now) }
    ensures { result.now ≡ value_of text.now places.now k }
{
    let start = start_of(places, k) as usize;
    let end = start + length_of(places, k) as usize;
    &text[start..end]
}

// A text with the places of its values.
#[derive(Debug, Clone, Copy)]
pub struct PlacedText<'a> {
    pub text: &'a [u8],
    pub places: &'a [u32],
}

impl<'a> PlacedText<'a> {
    // The length of the value that pair k names.
    pub fn length(self, k: usize) -> u32
        requires { place_size * (k + 1) ≤ length self.places.now }
        ensures { result ≡ length_of self.entry.places.now k }
    {
        length_of(self.places, k)
    }

    // The value that pair k names, which lies within the text.
    pub fn value(self, k: usize) -> &'a [u8]
        requires { (place_size * (k + 1) ≤ length self.places.now) × (start_of self.places.now k + length_of self.places.now k ≤ length self.text.now) }
        ensures { result.now ≡ value_of self.entry.text.now self.entry.places.now k }
    {
        value_of(self.text, self.places, k)
    }
}

// All these numbers become 0. Not inlined: the two halves below would become one again.
#[inline(never)]
fn clear_all(numbers: &mut [u32])
    ensures { numbers.new ≡ replicate (length numbers.old) 0 }
{
    numbers.fill(0);
}

// The first n numbers become 0. In halves, since the C library clears more than 2,048 bytes at once by an instruction that
// counts for as many as it clears bytes (docs/BENCH.md).
pub fn clear(places: &mut [u32], n: usize)
    requires { n ≤ length places.old }
    ensures { places.new ≡ cleared n places.old }
{
    let half = n / 2;
    clear_all(&mut places[..half]);
    clear_all(&mut places[half..n]);
}
