// The words of the lists, and of the kinds that have one.
ghost use Rattle.std.specs.Prelude.{◌≡◌, [], ◌<◌, length, map, get_or};
ghost use Rattle.kinds.specs.Kind.{kind_of};
ghost use Rattle.kinds.specs.Value.{words_of};
ghost use Rattle.kinds.specs.Shapes.{words_in};

use crate::numbers;

// The words of a list, by its number; none of a number that no list has.
#[tactic(auto, unfolding(crate::specs::Value::words_of, crate::specs::Value::numbered_lists, crate::specs::Kind::words))]
pub(crate) fn in_list(list: u8) -> &'static [&'static [u8]]
    ensures { map (λ w. w.now) result.now ≡ words_of list }
{
    match list {
        numbers::VEHICLE_TYPES => &[b"LEGGERO", b"PESANTE", b"MOTOVEICOLO"],
        numbers::CATEGORIES => &[
            b"M1", b"M2", b"M3", b"N1", b"N2", b"N3", b"O1", b"O2", b"O3", b"O4", b"L1e", b"L2e",
            b"L3e", b"L4e", b"L5e", b"L6e", b"L7e",
        ],
        numbers::YES_NO_WORDS => &[b"S", b"N"],
        numbers::PETROL_DIRECTIVES => &[b"NESSUNA", b"RT1902", b"91/441/CEE", b"98/69/CE"],
        numbers::BRAKE_CONTROLS => &[b"MANO", b"PEDALE", b"ELETTRICO", b"NON PRESENTE"],
        numbers::LINKS => &[b"DIR", b"RETE"],
        numbers::GAS_LINKS => &[b"DIR", b"RETE", b"RS SENZA ESITO"],
        numbers::COUNTER_LINKS => &[b"ESTERNO", b"INTEGRATO"],
        numbers::OUTCOMES => &[b"R", b"I", b"N"],
        _ => &[],
    }
}

// The words of a kind, by its number; none of a kind that has no list.
#[tactic(auto, unfolding(crate::specs::Value::words_of, crate::specs::Value::numbered_lists, crate::specs::Kind::kind_of, crate::specs::Kind::numbered, crate::specs::Shapes::words_in))]
fn of_kind(kind: u8) -> &'static [&'static [u8]]
    ensures { map (λ w. w.now) result.now ≡ words_in (kind_of kind) }
{
    match kind {
        numbers::VEHICLE_TYPE => in_list(numbers::VEHICLE_TYPES),
        numbers::CATEGORY => in_list(numbers::CATEGORIES),
        numbers::YES_NO => in_list(numbers::YES_NO_WORDS),
        numbers::PETROL_DIRECTIVE => in_list(numbers::PETROL_DIRECTIVES),
        numbers::BRAKE_CONTROL => in_list(numbers::BRAKE_CONTROLS),
        numbers::LINK => in_list(numbers::LINKS),
        numbers::GAS_LINK => in_list(numbers::GAS_LINKS),
        numbers::COUNTER_LINK => in_list(numbers::COUNTER_LINKS),
        numbers::OUTCOME => in_list(numbers::OUTCOMES),
        _ => &[],
    }
}

// A word of a kind, by its place in the kind's list.
pub fn word_of(kind: u8, word: usize) -> &'static [u8]
    requires { word < length (words_in (kind_of kind)) }
    ensures { result.now ≡ get_or (words_in (kind_of kind)) word [] }
{
    of_kind(kind)[word]
}
