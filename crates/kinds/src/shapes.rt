// What a filled value of each kind must look like, in numbers.
ghost use Rattle.std.specs.Prelude.{◌≡◌};
ghost use Rattle.kinds.specs.Kind.{kind_of};
ghost use Rattle.kinds.specs.Shapes.{shape_of};

use crate::numbers;

// The number of a kind's form, the most bytes of its values, the digits behind the point, and how many words its list has.
#[derive(Debug, PartialEq, Eq, Clone, Copy)]
pub struct Shape {
    pub form: u32,
    pub most: u32,
    pub decimals: u32,
    pub words: u32,
}

// The numbers of the forms, which `form_number` (specs/Shapes.antt) gives. Numbers and no enum: the C interface hands them out.
const STRING: u32 = 1;

const EXACT: u32 = 2;

const NUMBER: u32 = 3;

const FIXED: u32 = 4;

const DAY: u32 = 5;

const TIME: u32 = 6;

const DRIFT: u32 = 7;

const NUMBER_BY_HAND: u32 = 8;

const FIRST_DAY: u32 = 9;

const FIRST_YEAR: u32 = 10;

const POSITIONS: u32 = 11;

const WORD: u32 = 12;

const PLATE: u32 = 13;

const FIXED_BY_HAND: u32 = 14;

const TEMPERATURE: u32 = 15;

impl Shape {
    // Of values with no point and no list of words.
    fn plain(form: u32, most: u32) -> Shape
        ensures { result ≡ record { form = form; most = most; decimals = 0; words = 0 } }
    {
        Shape::fixed(form, most, 0)
    }

    // Of values with a point.
    fn fixed(form: u32, most: u32, decimals: u32) -> Shape
        ensures { result ≡ record { form = form; most = most; decimals = decimals; words = 0 } }
    {
        Shape {
            form,
            most,
            decimals,
            words: 0,
        }
    }

    // Of the words of a list.
    fn of_words(most: u32, words: u32) -> Shape
        ensures { result ≡ record { form = 12; most = most; decimals = 0; words = words } }
    {
        Shape {
            form: WORD,
            most,
            decimals: 0,
            words,
        }
    }
}

// The shape of a kind by its number; zeros for a number that no kind has.
#[tactic(auto, unfolding(crate::specs::Shapes::shape_of, crate::specs::Shapes::form_number, crate::specs::Shapes::decimals_of, crate::specs::Shapes::words_in, crate::specs::Value::width, crate::specs::Value::longest, crate::specs::Kind::kind_of, crate::specs::Kind::numbered, crate::specs::Kind::words))]
pub fn shape_of(kind: u8) -> Shape
    ensures { result ≡ shape_of (kind_of kind) }
{
    match kind {
        numbers::S_10 => Shape::plain(STRING, 10),
        numbers::S_64 => Shape::plain(STRING, 64),
        numbers::S_92 => Shape::plain(STRING, 92),
        numbers::S_320 => Shape::plain(STRING, 320),
        numbers::C_4 => Shape::plain(EXACT, 4),
        numbers::C_5 => Shape::plain(EXACT, 5),
        numbers::C_172 => Shape::plain(EXACT, 172),
        numbers::N_1 => Shape::plain(NUMBER, 1),
        numbers::N_2 => Shape::plain(NUMBER, 2),
        numbers::N_3 => Shape::plain(NUMBER, 3),
        numbers::N_5 => Shape::plain(NUMBER, 5),
        numbers::FIXED_3_5 => Shape::fixed(FIXED, 5, 3),
        numbers::FIXED_2_5 => Shape::fixed(FIXED, 5, 2),
        numbers::D => Shape::plain(DAY, 8),
        numbers::H => Shape::plain(TIME, 6),
        numbers::DERIVA => Shape::fixed(DRIFT, 6, 2),
        numbers::N_BY_HAND_5 => Shape::plain(NUMBER_BY_HAND, 6),
        numbers::DATA_PRIMA_IMM => Shape::plain(FIRST_DAY, 8),
        numbers::ANNO_PRIMA_IMM => Shape::plain(FIRST_YEAR, 4),
        numbers::POS_ASSI_STAZ => Shape::plain(POSITIONS, 9),
        numbers::VEHICLE_TYPE => Shape::of_words(11, 3),
        numbers::CATEGORY => Shape::of_words(3, 17),
        numbers::YES_NO => Shape::of_words(1, 2),
        numbers::PETROL_DIRECTIVE => Shape::of_words(10, 4),
        numbers::BRAKE_CONTROL => Shape::of_words(12, 4),
        numbers::LINK => Shape::of_words(4, 2),
        numbers::GAS_LINK => Shape::of_words(14, 3),
        numbers::COUNTER_LINK => Shape::of_words(9, 2),
        numbers::TARGA => Shape::plain(PLATE, 10),
        numbers::FIXED_1_3 => Shape::fixed(FIXED, 3, 1),
        numbers::FIXED_BY_HAND_1_5 => Shape::fixed(FIXED_BY_HAND, 6, 1),
        numbers::TEMP_AMBIENTE => Shape::plain(TEMPERATURE, 4),
        numbers::N_BY_HAND_3 => Shape::plain(NUMBER_BY_HAND, 4),
        numbers::OUTCOME => Shape::of_words(1, 3),
        _ => Shape::plain(0, 0),
    }
}
