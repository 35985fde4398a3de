// The numbers of the kinds of value, by their places in `numbered` (specs/Kind.antt), and of the lists of words, by their
// places in `numbered_lists` (specs/Value.antt).
// They are numbers and no enum: public functions here take any number, and an enum would ask more of their callers.
pub const S_10: u8 = 0;

pub const S_64: u8 = 1;

pub const S_92: u8 = 2;

pub const S_320: u8 = 3;

pub const C_4: u8 = 4;

pub const C_5: u8 = 5;

pub const C_172: u8 = 6;

pub const N_1: u8 = 7;

pub const N_2: u8 = 8;

pub const N_3: u8 = 9;

pub const N_5: u8 = 10;

pub const FIXED_3_5: u8 = 11;

pub const FIXED_2_5: u8 = 12;

pub const D: u8 = 13;

pub const H: u8 = 14;

pub const DERIVA: u8 = 15;

pub const N_BY_HAND_5: u8 = 16;

pub const DATA_PRIMA_IMM: u8 = 17;

pub const ANNO_PRIMA_IMM: u8 = 18;

pub const POS_ASSI_STAZ: u8 = 19;

pub const VEHICLE_TYPE: u8 = 20;

pub const CATEGORY: u8 = 21;

pub const YES_NO: u8 = 22;

pub const PETROL_DIRECTIVE: u8 = 23;

pub const BRAKE_CONTROL: u8 = 24;

pub const LINK: u8 = 25;

pub const GAS_LINK: u8 = 26;

pub const COUNTER_LINK: u8 = 27;

pub const TARGA: u8 = 28;

pub const FIXED_1_3: u8 = 29;

pub const FIXED_BY_HAND_1_5: u8 = 30;

pub const TEMP_AMBIENTE: u8 = 31;

pub const N_BY_HAND_3: u8 = 32;

pub const OUTCOME: u8 = 33;

// How many kinds there are: a number from here on is no kind's.
pub const KIND_COUNT: u8 = 34;

pub const VEHICLE_TYPES: u8 = 0;

pub const CATEGORIES: u8 = 1;

pub const YES_NO_WORDS: u8 = 2;

pub const PETROL_DIRECTIVES: u8 = 3;

pub const BRAKE_CONTROLS: u8 = 4;

pub const LINKS: u8 = 5;

pub const GAS_LINKS: u8 = 6;

pub const COUNTER_LINKS: u8 = 7;

pub const OUTCOMES: u8 = 8;
