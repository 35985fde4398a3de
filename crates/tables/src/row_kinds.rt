// The rows of a file's table, each section's heading and then its entries, by the numbers of their kinds.
ghost use Rattle.std.specs.Prelude.{◌≡◌, ◌≤◌, map, length, get_or, take};
ghost use Rattle.std.proofs.Math.Option.{none};
ghost use Rattle.tables.specs.File.{table_of};
ghost use Rattle.tables.specs.Row.{row_count, row_kinds, row_kind};

use crate::{AC2, ACC, DRIFT, GAS, OPACITY, SUSPENSION};
use kinds::numbers;

// The number of a row that is a heading, or that the table has not: of no kind, and not the next that a kind will have.
// Numbers and no enum, as those of kinds (numbers.rt): one load answers a row's.
pub const HEADING: u8 = 255;

static AC2_KINDS: [u8; 13] = [
    HEADING, // [DatiLibrettoVeicolo]
    numbers::S_10, // TargaNominale
    numbers::VEHICLE_TYPE, // TipoVeicolo
    numbers::CATEGORY, // CategoriaInternazionale
    numbers::S_10, // CodiceCIC
    numbers::DATA_PRIMA_IMM, // DataPrimaImm
    numbers::S_64, // Alimentazione_1
    numbers::YES_NO, // Turbo
    numbers::YES_NO, // CorrettorePressione
    numbers::PETROL_DIRECTIVE, // DirettivaEmissioniGasBenzinaAuto
    numbers::S_64, // DirettivaEmissioniGasMotociclo
    numbers::BRAKE_CONTROL, // AzionamentoFrenoStazionamento
    numbers::POS_ASSI_STAZ, // PosAssiStaz
];

static ACC_KINDS: [u8; 7] = [
    HEADING, // [DatiLibrettoVeicolo]
    numbers::S_64, // TipoVeicolo
    numbers::S_64, // DescrizioneVeicolo
    numbers::ANNO_PRIMA_IMM, // AnnoPrimaImm
    numbers::S_64, // Alimentazione_1
    numbers::S_64, // FrenoStazionamento
    numbers::N_1, // NumAssiStazionamento
];

static DRIFT_KINDS: [u8; 35] = [
    HEADING, // [Deriva]
    numbers::S_64, // Marca
    numbers::S_64, // Tipo
    numbers::S_64, // NumOmologa
    numbers::S_64, // NumSerie
    numbers::D, // DataScadenza
    numbers::S_64, // NumVersioneSoftware
    numbers::S_320, // Note
    numbers::N_3, // NumVersioneProtocollo
    numbers::D, // DataVersioneProtocollo
    numbers::LINK, // TipoCollegamento
    numbers::S_64, // CircolareApplicata
    numbers::S_64, // CodErrore
    numbers::D, // DataMisura
    numbers::H, // InizioMisura
    numbers::H, // FineMisura
    numbers::S_64, // Operatore
    HEADING, // [DerivaAsse_1]
    numbers::DERIVA, // Deriva
    HEADING, // [DerivaAsse_2]
    numbers::DERIVA, // Deriva
    HEADING, // [DerivaAsse_3]
    numbers::DERIVA, // Deriva
    HEADING, // [DerivaAsse_4]
    numbers::DERIVA, // Deriva
    HEADING, // [DerivaAsse_5]
    numbers::DERIVA, // Deriva
    HEADING, // [DerivaAsse_6]
    numbers::DERIVA, // Deriva
    HEADING, // [DerivaAsse_7]
    numbers::DERIVA, // Deriva
    HEADING, // [DerivaAsse_8]
    numbers::DERIVA, // Deriva
    HEADING, // [DerivaAsse_9]
    numbers::DERIVA, // Deriva
];

static SUSPENSION_KINDS: [u8; 53] = [
    HEADING, // [Sospensioni]
    numbers::S_64, // Marca
    numbers::S_64, // Tipo
    numbers::S_64, // NumOmologa
    numbers::S_64, // NumSerie
    numbers::D, // DataScadenza
    numbers::S_64, // NumVersioneSoftware
    numbers::S_320, // Note
    numbers::N_3, // NumVersioneProtocollo
    numbers::D, // DataVersioneProtocollo
    numbers::LINK, // TipoCollegamento
    numbers::S_64, // CircolareApplicata
    numbers::S_64, // CodErrore
    numbers::D, // DataMisura
    numbers::H, // InizioMisura
    numbers::H, // FineMisura
    numbers::S_64, // Operatore
    HEADING, // [SospensioniAsse_1]
    numbers::N_2, // Aderenza%Sx
    numbers::N_2, // Aderenza%Dx
    numbers::N_2, // Differenza%
    HEADING, // [SospensioniAsse_2]
    numbers::N_2, // Aderenza%Sx
    numbers::N_2, // Aderenza%Dx
    numbers::N_2, // Differenza%
    HEADING, // [SospensioniAsse_3]
    numbers::N_2, // Aderenza%Sx
    numbers::N_2, // Aderenza%Dx
    numbers::N_2, // Differenza%
    HEADING, // [SospensioniAsse_4]
    numbers::N_2, // Aderenza%Sx
    numbers::N_2, // Aderenza%Dx
    numbers::N_2, // Differenza%
    HEADING, // [SospensioniAsse_5]
    numbers::N_2, // Aderenza%Sx
    numbers::N_2, // Aderenza%Dx
    numbers::N_2, // Differenza%
    HEADING, // [SospensioniAsse_6]
    numbers::N_2, // Aderenza%Sx
    numbers::N_2, // Aderenza%Dx
    numbers::N_2, // Differenza%
    HEADING, // [SospensioniAsse_7]
    numbers::N_2, // Aderenza%Sx
    numbers::N_2, // Aderenza%Dx
    numbers::N_2, // Differenza%
    HEADING, // [SospensioniAsse_8]
    numbers::N_2, // Aderenza%Sx
    numbers::N_2, // Aderenza%Dx
    numbers::N_2, // Differenza%
    HEADING, // [SospensioniAsse_9]
    numbers::N_2, // Aderenza%Sx
    numbers::N_2, // Aderenza%Dx
    numbers::N_2, // Differenza%
];

static GAS_KINDS: [u8; 55] = [
    HEADING, // [AnalisiGas]
    numbers::S_64, // MarcaAnalizzatore
    numbers::S_64, // TipoAnalizzatore
    numbers::S_64, // NumOmologaAnalizzatore
    numbers::S_64, // NumSerieAnalizzatore
    numbers::S_64, // NumVersSoftwareAnalizzatore
    numbers::D, // DataScadenzaAnalizzatore
    numbers::S_64, // MarcaContagiri
    numbers::S_64, // TipoContagiri
    numbers::S_64, // NumOmologaContagiri
    numbers::S_64, // NumSerieContagiri
    numbers::S_64, // NumVersioneSoftwareContagiri
    numbers::D, // DataScadenzaContagiri
    numbers::COUNTER_LINK, // TipoCollegamentoContagiri
    numbers::N_3, // NumVersioneProtocolloContagiri
    numbers::S_64, // MarcaProvaVelocita
    numbers::S_64, // TipoProvaVelocita
    numbers::S_64, // NumOmologaProvaVelocita
    numbers::S_64, // NumSerieProvaVelocita
    numbers::S_64, // NumVersioneSoftwareProvaVelocita
    numbers::N_3, // NumVersioneProtocolloProvaVelocita
    numbers::D, // DataScadenzaProvaVelocita
    numbers::S_320, // Note
    numbers::N_3, // NumVersioneProtocollo
    numbers::D, // DataVersioneProtocollo
    numbers::GAS_LINK, // TipoCollegamento
    numbers::S_64, // CircolareApplicata
    numbers::C_5, // IDChiaveRS
    numbers::D, // DataRegChiaveRS
    numbers::C_5, // IDChiaveContagiriRS
    numbers::D, // DataRegChiaveContagiriRS
    numbers::C_5, // IDChiaveProvaVelocitaRS
    numbers::D, // DataRegChiaveProvaVelocitaRS
    numbers::S_92, // ChecksumRS
    numbers::C_172, // ModuloChiaveRS
    numbers::C_4, // EsponenteChiaveRS
    numbers::S_92, // ChecksumContagiriRS
    numbers::C_172, // ModuloChiaveContagiriRS
    numbers::C_4, // EsponenteChiaveContagiriRS
    numbers::S_92, // ChecksumProvaVelocitaRS
    numbers::C_172, // ModuloChiaveProvaVelocitaRS
    numbers::C_4, // EsponenteChiaveProvaVelocitaRS
    numbers::S_64, // CodErrore
    numbers::D, // DataMisura
    numbers::H, // InizioMisura
    numbers::H, // FineMisura
    numbers::S_64, // Operatore
    HEADING, // [AnalisiGasAlimentazione_1]
    numbers::FIXED_3_5, // COMin
    numbers::FIXED_3_5, // COCorrettoMin
    numbers::FIXED_2_5, // CO2Min
    numbers::N_5, // HCMin
    numbers::FIXED_2_5, // O2Min
    numbers::N_BY_HAND_5, // NumGiriMotoreMin
    numbers::FIXED_3_5, // COMinAcc
];

static OPACITY_KINDS: [u8; 56] = [
    HEADING, // [AnalisiOpacita]
    numbers::S_64, // MarcaOpacimetro
    numbers::S_64, // TipoOpacimetro
    numbers::S_64, // NumOmologaOpacimetro
    numbers::S_64, // NumSerieOpacimetro
    numbers::S_64, // NumVersSoftwareOpacimetro
    numbers::D, // DataScadenzaOpacimetro
    numbers::S_64, // MarcaContagiri
    numbers::S_64, // TipoContagiri
    numbers::S_64, // NumOmologaContagiri
    numbers::S_64, // NumSerieContagiri
    numbers::S_64, // NumVersSoftwareContagiri
    numbers::D, // DataScadenzaContagiri
    numbers::COUNTER_LINK, // TipoCollegamentoContagiri
    numbers::N_3, // NumVersioneProtocolloContagiri
    numbers::TARGA, // Targa
    numbers::N_BY_HAND_5, // NumGiriMotoreMax
    numbers::FIXED_1_3, // LimiteK
    numbers::S_64, // DirettivaEmissioni
    numbers::N_BY_HAND_5, // NumGiriMotoreMinMis
    numbers::N_BY_HAND_5, // NumGiriMotoreMaxMis
    numbers::FIXED_BY_HAND_1_5, // TempOlioMotore
    numbers::N_2, // TempMinOlioMotore
    numbers::FIXED_2_5, // ValoreK1
    numbers::FIXED_2_5, // ValoreK2
    numbers::FIXED_2_5, // ValoreK3
    numbers::FIXED_2_5, // ValoreK4
    numbers::FIXED_2_5, // ValoreK5
    numbers::FIXED_2_5, // ValoreK6
    numbers::FIXED_2_5, // ValoreK7
    numbers::FIXED_2_5, // ValoreK8
    numbers::FIXED_2_5, // OpacitaMedia
    numbers::FIXED_BY_HAND_1_5, // PressAtmosferica
    numbers::TEMP_AMBIENTE, // TempAmbiente
    numbers::N_BY_HAND_3, // UmiditaRelativa
    numbers::OUTCOME, // Esito
    numbers::S_320, // Note
    numbers::N_3, // NumVersioneProtocollo
    numbers::D, // DataVersioneProtocollo
    numbers::GAS_LINK, // TipoCollegamento
    numbers::S_64, // CircolareApplicata
    numbers::C_5, // IDChiaveRS
    numbers::D, // DataRegChiaveRS
    numbers::C_5, // IDChiaveContagiriRS
    numbers::D, // DataRegChiaveContagiriRS
    numbers::S_92, // ChecksumRS
    numbers::C_172, // ModuloChiaveRS
    numbers::C_4, // EsponenteChiaveRS
    numbers::S_92, // ChecksumContagiriRS
    numbers::C_172, // ModuloChiaveContagiriRS
    numbers::C_4, // EsponenteChiaveContagiriRS
    numbers::S_64, // CodErrore
    numbers::D, // DataMisura
    numbers::H, // InizioMisura
    numbers::H, // FineMisura
    numbers::S_64, // Operatore
];

// The numbers of a file's rows, in the table's order.
fn kinds_of(file: u32) -> &'static [u8]
    ensures { map row_kind result.now ≡ row_kinds (table_of file) }
{
    match file {
        AC2 => &AC2_KINDS,
        ACC => &ACC_KINDS,
        DRIFT => &DRIFT_KINDS,
        SUSPENSION => &SUSPENSION_KINDS,
        GAS => &GAS_KINDS,
        OPACITY => &OPACITY_KINDS,
        _ => &[],
    }
}

// The kind number of a row of the file of a number. Of a heading, and of a row that the table has not, it is left open
// which number that is no kind's this is.
pub fn row_kind(file: u32, row: usize) -> u8
    ensures { row_kind result ≡ get_or (row_kinds (table_of file)) row none }
{
    kinds_of(file).get(row).copied().unwrap_or(HEADING)
}

// The kind numbers of all rows of the file of a number, in the table's order. The bytes past the rows are left open, and
// so is which number that is no kind's stands for a heading.
pub fn write_kinds(file: u32, kinds: &mut [u8])
    requires { row_count (table_of file) ≤ length kinds.old }
    ensures { map row_kind (take (row_count (table_of file)) kinds.new) ≡ row_kinds (table_of file) }
{
    let numbers = kinds_of(file);
    kinds[..numbers.len()].copy_from_slice(numbers);
}
