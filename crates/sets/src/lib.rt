// Judging a whole set (01, Judging): lawful records, the judge's definition, demand 3. The judge's answer in the code.
#![tactic(auto)]

// What acceptance takes from a file that passed: its axle count, whether its CodErrore is filled, whether its idle speed was
// entered by hand, the number of entry names compared to read it, and the seconds of its measure.
#[derive(Debug, PartialEq, Eq, Clone, Copy)]
pub struct Figures {
    pub axles: u32,
    pub mark: bool,
    pub byhand: bool,
    pub compared: u32,
    pub seconds: u32,
}

// "acceptance, with two axle counts (0 for a file not given) and a mark per result file", opacity's too (02, 2/14), and
// whether gas's idle speed was entered by hand (02, 1/14), the number of entry names compared (02, 4/14), and the seconds of
// each result file's measure (02, 5/14).
#[derive(Debug, PartialEq, Eq, Clone, Copy)]
pub struct Acceptance {
    pub driftaxles: u32,
    pub suspensionaxles: u32,
    pub driftmark: bool,
    pub suspensionmark: bool,
    pub gasmark: bool,
    pub gasbyhand: bool,
    pub opacitymark: bool,
    pub compared: u32,
    pub driftseconds: u32,
    pub suspensionseconds: u32,
    pub gasseconds: u32,
    pub opacityseconds: u32,
}
