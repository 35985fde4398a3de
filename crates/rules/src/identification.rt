// The identification answer against gas (01, Identification answer; 15).
ghost use Rattle.std.specs.Prelude.{◌≡◌, ◌+◌, ◌<◌, ◌≤◌, length};
ghost use Rattle.lines.specs.Bytes.{part, same_bytes};
ghost use Rattle.places.specs.Places.{value_of};
ghost use Rattle.serial.specs.Reading.{Ordered, seven_in};
ghost use Rattle.tables.specs.File.{gas};
ghost use Rattle.tables.specs.Value.{values_of, Held, PairHeld};
ghost use Rattle.rules.specs.Identification.{seven_of, same_fields};

use places::PlacedText;
use tables::pairs;

// Whether the field between two ends is the value of pair k.
fn same_field(answer: &[u8], last: usize, end: usize, own: PlacedText<'_>, k: usize) -> bool
    requires { ((last < end) × (end ≤ length answer.now)) × PairHeld own.text.now own.places.now k }
    ensures { result ≡ same_bytes (part answer.now (last + 1) end) (value_of own.entry.text.now own.entry.places.now k) }
{
    lines::equal(&answer[last + 1..end], own.value(k))
}

// 15: whether the seven fields of the answer are gas's seven values.
#[tactic(auto, unfolding(crate::specs::Identification::same_fields), using(crate::proofs::Rules::seven_at))]
pub fn same_fields(answer: &[u8], ends: serial::FieldEnds, own: PlacedText<'_>) -> bool
    requires { Ordered (length answer.now) ends × Held gas 0 own.text.now own.places.now }
    ensures { result ≡ same_fields (seven_in answer.now ends) (seven_of (values_of gas 0 own.entry.text.now own.entry.places.now)) }
{
    same_field(
        answer,
        ends.id,
        ends.mar,
        own,
        pairs::GAS_MARCA_ANALIZZATORE,
    ) && same_field(
        answer,
        ends.mar,
        ends.model,
        own,
        pairs::GAS_TIPO_ANALIZZATORE,
    ) && same_field(
        answer,
        ends.model,
        ends.numom,
        own,
        pairs::GAS_NUM_OMOLOGA_ANALIZZATORE,
    ) && same_field(
        answer,
        ends.numom,
        ends.numser,
        own,
        pairs::GAS_NUM_SERIE_ANALIZZATORE,
    ) && same_field(
        answer,
        ends.numser,
        ends.datasca,
        own,
        pairs::GAS_DATA_SCADENZA_ANALIZZATORE,
    ) && same_field(
        answer,
        ends.datasca,
        ends.numver,
        own,
        pairs::GAS_NUM_VERS_SOFTWARE_ANALIZZATORE,
    ) && same_field(
        answer,
        ends.numver,
        ends.vermctcnet,
        own,
        pairs::GAS_NUM_VERSIONE_PROTOCOLLO,
    )
}
