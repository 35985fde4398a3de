// The analyser's identification answer (01, Identification answer): its form, and where its fields stand.
// No entry of a file is known here.
#![tactic(auto)]

ghost use Rattle.std.specs.Prelude.{◌≡◌, IsTrue, ◌+◌, ◌<◌, ◌≤◌, ◌%◌, length};
ghost use Rattle.lines.specs.Bytes.{part};
ghost use Rattle.serial.specs.Identification.{sum, hex_digit, address_ok, field_ok, all_fields_ok};
ghost use Rattle.serial.specs.Reading.{framed, checksum_ok, field_end, ends_of, Ordered, seven_in, head_ok, read_fields, read_identification};

// Where each field ends, as a place in the answer: that of the 17 hex behind it, for the last that of the checksum.
// A field starts one place after the end of the field before it, so Mar is `&answer[id + 1..mar]`.
// `model` stands for Mod, which is a reserved word.
#[derive(Debug, PartialEq, Eq, Clone, Copy)]
pub struct FieldEnds {
    pub gas: usize,
    pub address: usize,
    pub id: usize,
    pub mar: usize,
    pub model: usize,
    pub numom: usize,
    pub numser: usize,
    pub datasca: usize,
    pub numver: usize,
    pub vermctcnet: usize,
}

#[tactic(auto, using(crate::proofs::Loops::sums))]
fn sum_modulo_256(part: &[u8]) -> u32
    ensures { result ≡ sum part.now % 256 }
{
    let mut total = 0;
    for &b in part {
        total = (total + u32::from(b)) % 256;
    }
    total
}

// A capital hexadecimal digit.
#[tactic(auto, unfolding(crate::specs::Identification::hex_digit))]
fn hex_digit(n: u32) -> u32
    requires { n < 16 }
    ensures { result ≡ hex_digit n }
{
    if n < 10 { 48 + n } else { 55 + n }
}

// Whether the two bytes are the checksum of the part.
#[tactic(auto, unfolding(crate::specs::Reading::checksum_ok))]
fn checksum_ok(part: &[u8], high: u8, low: u8) -> bool
    ensures { result ≡ checksum_ok part.now high low }
{
    let total = sum_modulo_256(part);
    u32::from(high) == hex_digit(total / 16) && u32::from(low) == hex_digit(total % 16)
}

#[tactic(auto, unfolding(crate::specs::Identification::address_ok))]
fn address_ok(part: &[u8]) -> bool
    ensures { result ≡ address_ok part.now }
{
    1 <= part.len() && part.len() <= 3 && kinds::all_digits(part)
}

#[tactic(auto, unfolding(crate::specs::Identification::field_ok))]
fn field_ok(part: &[u8]) -> bool
    ensures { result ≡ field_ok part.now }
{
    1 <= part.len() && part.len() <= 64 && lines::all_printable(part)
}

// Where the field that starts at a place ends: at the next 17 hex, or with the bytes.
fn field_end(front: &[u8], from: usize) -> usize
    ensures { (result ≡ field_end front.now from) × (from ≤ result) × (result ≤ from + length front.now) }
{
    for i in from..front.len() {
        if front[i] == 0x17 {
            return i;
        }
    }
    from.max(front.len())
}

#[tactic(auto, unfolding(crate::specs::Reading::ends_of, crate::specs::Reading::end_of))]
fn ends_of(front: &[u8]) -> FieldEnds
    requires { length front.now ≤ 512 }
    ensures { result ≡ ends_of front.now }
{
    let gas = field_end(front, 1);
    let address = field_end(front, gas + 1);
    let id = field_end(front, address + 1);
    let mar = field_end(front, id + 1);
    let model = field_end(front, mar + 1);
    let numom = field_end(front, model + 1);
    let numser = field_end(front, numom + 1);
    let datasca = field_end(front, numser + 1);
    let numver = field_end(front, datasca + 1);
    let vermctcnet = field_end(front, numver + 1);
    FieldEnds {
        gas,
        address,
        id,
        mar,
        model,
        numom,
        numser,
        datasca,
        numver,
        vermctcnet,
    }
}

// GAS, an address, ID.
#[tactic(auto, unfolding(crate::specs::Reading::head_ok))]
fn head_ok(front: &[u8], e: FieldEnds) -> bool
    requires { (1 ≤ e.gas) × Ordered (length front.now) e }
    ensures { result ≡ head_ok front.now e }
{
    lines::equal(&front[1..e.gas], b"GAS")
        && address_ok(&front[e.gas + 1..e.address])
        && lines::equal(&front[e.address + 1..e.id], b"ID")
}

// Whether the field between two ends is good.
fn field_between(front: &[u8], last: usize, end: usize) -> bool
    requires { (last < end) × (end ≤ length front.now) }
    ensures { result ≡ field_ok (part front.now (last + 1) end) }
{
    field_ok(&front[last + 1..end])
}

// Mar to VerMCTCNet.
#[tactic(auto, unfolding(crate::specs::Identification::all_fields_ok))]
fn seven_ok(front: &[u8], e: FieldEnds) -> bool
    requires { Ordered (length front.now) e }
    ensures { result ≡ all_fields_ok (seven_in front.now e) }
{
    field_between(front, e.id, e.mar)
        && field_between(front, e.mar, e.model)
        && field_between(front, e.model, e.numom)
        && field_between(front, e.numom, e.numser)
        && field_between(front, e.numser, e.datasca)
        && field_between(front, e.datasca, e.numver)
        && field_between(front, e.numver, e.vermctcnet)
}

// The ten fields of what stands before the checksum.
#[tactic(auto, unfolding(crate::specs::Reading::read_fields), using(crate::proofs::Places::ends))]
fn read_fields(front: &[u8]) -> Option<FieldEnds>
    requires { length front.now ≤ 512 }
    ensures { result ≡ read_fields front.now }
{
    let e = ends_of(front);
    if e.vermctcnet != front.len() {
        return None;
    }
    (head_ok(front, e) && seven_ok(front, e)).then_some(e)
}

// At most 512 bytes, 02 hex first, 03 hex last.
#[tactic(auto, unfolding(crate::specs::Reading::framed))]
fn is_framed(answer: &[u8]) -> bool
    ensures value { result ≡ framed answer.now }
    ensures size { IsTrue result → (4 ≤ length answer.now) × (length answer.now ≤ 512) }
{
    let n = answer.len();
    n <= 512 && 4 <= n && answer[0] == 0x02 && answer[n - 1] == 0x03
}

// The answer's fields, or that it is not of the form.
#[tactic(auto, unfolding(crate::specs::Reading::read_identification))]
pub fn read_identification(answer: &[u8]) -> Option<FieldEnds>
    ensures { result ≡ read_identification answer.now }
{
    if !is_framed(answer) {
        return None;
    }
    let n = answer.len();
    let end = n - 3;
    if !checksum_ok(&answer[1..end], answer[end], answer[n - 2]) {
        return None;
    }
    read_fields(&answer[..end])
}
