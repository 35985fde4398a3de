// The names of the entries by groups of files that share them, each name once, with its tag in a list beside it. Static
// data: nothing is laid out or copied where a name is looked up or written.
ghost use Rattle.tables.specs.Row.{names};
ghost use Rattle.tables.specs.Groups.{group_of, Lent};

use crate::lookup::Group;
use crate::{ACC, DRIFT, GAS, OPACITY, SUSPENSION};

static NEW_BOOKING_NAMES: [&[u8]; 12] = [
    b"TargaNominale",
    b"TipoVeicolo",
    b"CategoriaInternazionale",
    b"CodiceCIC",
    b"DataPrimaImm",
    b"Alimentazione_1",
    b"Turbo",
    b"CorrettorePressione",
    b"DirettivaEmissioniGasBenzinaAuto",
    b"DirettivaEmissioniGasMotociclo",
    b"AzionamentoFrenoStazionamento",
    b"PosAssiStaz",
];

static NEW_BOOKING_TAGS: [u8; 12] = [
    176, // TargaNominale
    248, // TipoVeicolo
    199, // CategoriaInternazionale
    127, // CodiceCIC
    220, // DataPrimaImm
    5, // Alimentazione_1
    224, // Turbo
    183, // CorrettorePressione
    60, // DirettivaEmissioniGasBenzinaAuto
    52, // DirettivaEmissioniGasMotociclo
    45, // AzionamentoFrenoStazionamento
    76, // PosAssiStaz
];

static OLD_BOOKING_NAMES: [&[u8]; 6] = [
    b"TipoVeicolo",
    b"DescrizioneVeicolo",
    b"AnnoPrimaImm",
    b"Alimentazione_1",
    b"FrenoStazionamento",
    b"NumAssiStazionamento",
];

static OLD_BOOKING_TAGS: [u8; 6] = [
    248, // TipoVeicolo
    4, // DescrizioneVeicolo
    217, // AnnoPrimaImm
    5, // Alimentazione_1
    6, // FrenoStazionamento
    22, // NumAssiStazionamento
];

static TESTER_NAMES: [&[u8]; 20] = [
    b"Marca",
    b"Tipo",
    b"NumOmologa",
    b"NumSerie",
    b"DataScadenza",
    b"NumVersioneSoftware",
    b"Note",
    b"NumVersioneProtocollo",
    b"DataVersioneProtocollo",
    b"TipoCollegamento",
    b"CircolareApplicata",
    b"CodErrore",
    b"DataMisura",
    b"InizioMisura",
    b"FineMisura",
    b"Operatore",
    b"Deriva",
    b"Aderenza%Sx",
    b"Aderenza%Dx",
    b"Differenza%",
];

static TESTER_TAGS: [u8; 20] = [
    105, // Marca
    220, // Tipo
    126, // NumOmologa
    150, // NumSerie
    124, // DataScadenza
    194, // NumVersioneSoftware
    134, // Note
    26, // NumVersioneProtocollo
    20, // DataVersioneProtocollo
    12, // TipoCollegamento
    147, // CircolareApplicata
    143, // CodErrore
    116, // DataMisura
    129, // InizioMisura
    118, // FineMisura
    155, // Operatore
    100, // Deriva
    45, // Aderenza%Sx
    45, // Aderenza%Dx
    152, // Differenza%
];

static GAS_NAMES: [&[u8]; 53] = [
    b"MarcaAnalizzatore",
    b"TipoAnalizzatore",
    b"NumOmologaAnalizzatore",
    b"NumSerieAnalizzatore",
    b"NumVersSoftwareAnalizzatore",
    b"DataScadenzaAnalizzatore",
    b"MarcaContagiri",
    b"TipoContagiri",
    b"NumOmologaContagiri",
    b"NumSerieContagiri",
    b"NumVersioneSoftwareContagiri",
    b"DataScadenzaContagiri",
    b"TipoCollegamentoContagiri",
    b"NumVersioneProtocolloContagiri",
    b"MarcaProvaVelocita",
    b"TipoProvaVelocita",
    b"NumOmologaProvaVelocita",
    b"NumSerieProvaVelocita",
    b"NumVersioneSoftwareProvaVelocita",
    b"NumVersioneProtocolloProvaVelocita",
    b"DataScadenzaProvaVelocita",
    b"Note",
    b"NumVersioneProtocollo",
    b"DataVersioneProtocollo",
    b"TipoCollegamento",
    b"CircolareApplicata",
    b"IDChiaveRS",
    b"DataRegChiaveRS",
    b"IDChiaveContagiriRS",
    b"DataRegChiaveContagiriRS",
    b"IDChiaveProvaVelocitaRS",
    b"DataRegChiaveProvaVelocitaRS",
    b"ChecksumRS",
    b"ModuloChiaveRS",
    b"EsponenteChiaveRS",
    b"ChecksumContagiriRS",
    b"ModuloChiaveContagiriRS",
    b"EsponenteChiaveContagiriRS",
    b"ChecksumProvaVelocitaRS",
    b"ModuloChiaveProvaVelocitaRS",
    b"EsponenteChiaveProvaVelocitaRS",
    b"CodErrore",
    b"DataMisura",
    b"InizioMisura",
    b"FineMisura",
    b"Operatore",
    b"COMin",
    b"COCorrettoMin",
    b"CO2Min",
    b"HCMin",
    b"O2Min",
    b"NumGiriMotoreMin",
    b"COMinAcc",
];

static GAS_TAGS: [u8; 53] = [
    185, // MarcaAnalizzatore
    188, // TipoAnalizzatore
    206, // NumOmologaAnalizzatore
    198, // NumSerieAnalizzatore
    226, // NumVersSoftwareAnalizzatore
    204, // DataScadenzaAnalizzatore
    205, // MarcaContagiri
    208, // TipoContagiri
    226, // NumOmologaContagiri
    218, // NumSerieContagiri
    6, // NumVersioneSoftwareContagiri
    224, // DataScadenzaContagiri
    0, // TipoCollegamentoContagiri
    14, // NumVersioneProtocolloContagiri
    157, // MarcaProvaVelocita
    160, // TipoProvaVelocita
    178, // NumOmologaProvaVelocita
    170, // NumSerieProvaVelocita
    214, // NumVersioneSoftwareProvaVelocita
    222, // NumVersioneProtocolloProvaVelocita
    176, // DataScadenzaProvaVelocita
    134, // Note
    26, // NumVersioneProtocollo
    20, // DataVersioneProtocollo
    12, // TipoCollegamento
    147, // CircolareApplicata
    9, // IDChiaveRS
    24, // DataRegChiaveRS
    45, // IDChiaveContagiriRS
    60, // DataRegChiaveContagiriRS
    61, // IDChiaveProvaVelocitaRS
    76, // DataRegChiaveProvaVelocitaRS
    3, // ChecksumRS
    29, // ModuloChiaveRS
    33, // EsponenteChiaveRS
    39, // ChecksumContagiriRS
    65, // ModuloChiaveContagiriRS
    69, // EsponenteChiaveContagiriRS
    55, // ChecksumProvaVelocitaRS
    81, // ModuloChiaveProvaVelocitaRS
    85, // EsponenteChiaveProvaVelocitaRS
    143, // CodErrore
    116, // DataMisura
    129, // InizioMisura
    118, // FineMisura
    155, // Operatore
    199, // COMin
    231, // COCorrettoMin
    203, // CO2Min
    204, // HCMin
    211, // O2Min
    254, // NumGiriMotoreMin
    123, // COMinAcc
];

static OPACITY_NAMES: [&[u8]; 55] = [
    b"MarcaOpacimetro",
    b"TipoOpacimetro",
    b"NumOmologaOpacimetro",
    b"NumSerieOpacimetro",
    b"NumVersSoftwareOpacimetro",
    b"DataScadenzaOpacimetro",
    b"MarcaContagiri",
    b"TipoContagiri",
    b"NumOmologaContagiri",
    b"NumSerieContagiri",
    b"NumVersSoftwareContagiri",
    b"DataScadenzaContagiri",
    b"TipoCollegamentoContagiri",
    b"NumVersioneProtocolloContagiri",
    b"Targa",
    b"NumGiriMotoreMax",
    b"LimiteK",
    b"DirettivaEmissioni",
    b"NumGiriMotoreMinMis",
    b"NumGiriMotoreMaxMis",
    b"TempOlioMotore",
    b"TempMinOlioMotore",
    b"ValoreK1",
    b"ValoreK2",
    b"ValoreK3",
    b"ValoreK4",
    b"ValoreK5",
    b"ValoreK6",
    b"ValoreK7",
    b"ValoreK8",
    b"OpacitaMedia",
    b"PressAtmosferica",
    b"TempAmbiente",
    b"UmiditaRelativa",
    b"Esito",
    b"Note",
    b"NumVersioneProtocollo",
    b"DataVersioneProtocollo",
    b"TipoCollegamento",
    b"CircolareApplicata",
    b"IDChiaveRS",
    b"DataRegChiaveRS",
    b"IDChiaveContagiriRS",
    b"DataRegChiaveContagiriRS",
    b"ChecksumRS",
    b"ModuloChiaveRS",
    b"EsponenteChiaveRS",
    b"ChecksumContagiriRS",
    b"ModuloChiaveContagiriRS",
    b"EsponenteChiaveContagiriRS",
    b"CodErrore",
    b"DataMisura",
    b"InizioMisura",
    b"FineMisura",
    b"Operatore",
];

static OPACITY_TAGS: [u8; 55] = [
    1, // MarcaOpacimetro
    4, // TipoOpacimetro
    22, // NumOmologaOpacimetro
    14, // NumSerieOpacimetro
    42, // NumVersSoftwareOpacimetro
    20, // DataScadenzaOpacimetro
    205, // MarcaContagiri
    208, // TipoContagiri
    226, // NumOmologaContagiri
    218, // NumSerieContagiri
    246, // NumVersSoftwareContagiri
    224, // DataScadenzaContagiri
    0, // TipoCollegamentoContagiri
    14, // NumVersioneProtocolloContagiri
    112, // Targa
    78, // NumGiriMotoreMax
    192, // LimiteK
    212, // DirettivaEmissioni
    50, // NumGiriMotoreMinMis
    50, // NumGiriMotoreMaxMis
    180, // TempOlioMotore
    192, // TempMinOlioMotore
    254, // ValoreK1
    6, // ValoreK2
    14, // ValoreK3
    22, // ValoreK4
    30, // ValoreK5
    38, // ValoreK6
    46, // ValoreK7
    54, // ValoreK8
    135, // OpacitaMedia
    152, // PressAtmosferica
    172, // TempAmbiente
    153, // UmiditaRelativa
    209, // Esito
    134, // Note
    26, // NumVersioneProtocollo
    20, // DataVersioneProtocollo
    12, // TipoCollegamento
    147, // CircolareApplicata
    9, // IDChiaveRS
    24, // DataRegChiaveRS
    45, // IDChiaveContagiriRS
    60, // DataRegChiaveContagiriRS
    3, // ChecksumRS
    29, // ModuloChiaveRS
    33, // EsponenteChiaveRS
    39, // ChecksumContagiriRS
    65, // ModuloChiaveContagiriRS
    69, // EsponenteChiaveContagiriRS
    143, // CodErrore
    116, // DataMisura
    129, // InizioMisura
    118, // FineMisura
    155, // Operatore
];

// The group of a file; of a number that no file has that of AC2, of which nothing is looked for.
pub fn group_of(file: u32) -> Group<'static>
    ensures { Lent (names (group_of file)) result }
{
    match file {
        ACC => Group {
            names: &OLD_BOOKING_NAMES,
            tags: &OLD_BOOKING_TAGS,
        },
        DRIFT | SUSPENSION => Group {
            names: &TESTER_NAMES,
            tags: &TESTER_TAGS,
        },
        GAS => Group {
            names: &GAS_NAMES,
            tags: &GAS_TAGS,
        },
        OPACITY => Group {
            names: &OPACITY_NAMES,
            tags: &OPACITY_TAGS,
        },
        _ => Group {
            names: &NEW_BOOKING_NAMES,
            tags: &NEW_BOOKING_TAGS,
        },
    }
}
