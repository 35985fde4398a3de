// The pairs of the entries that conditions and rules look at (01, Judging), named by file and entry. An entry's place in
// its file is its pair less the file's first. What each stands for is proved in proofs/Values,
// of the due dates in `rules` Names.

pub const AC2_FIRST: usize = 0;

pub const AC2_TARGA_NOMINALE: usize = 0;

pub const AC2_TIPO_VEICOLO: usize = 1;

pub const AC2_CATEGORIA_INTERNAZIONALE: usize = 2;

pub const AC2_DATA_PRIMA_IMM: usize = 4;

pub const AC2_ALIMENTAZIONE_1: usize = 5;

pub const AC2_TURBO: usize = 6;

pub const AC2_CORRETTORE_PRESSIONE: usize = 7;

pub const AC2_DIRETTIVA_BENZINA_AUTO: usize = 8;

pub const AC2_DIRETTIVA_MOTOCICLO: usize = 9;

pub const AC2_AZIONAMENTO_FRENO_STAZIONAMENTO: usize = 10;

pub const AC2_POS_ASSI_STAZ: usize = 11;

pub const ACC_FIRST: usize = 12;

pub const ACC_TIPO_VEICOLO: usize = 12;

pub const ACC_DESCRIZIONE_VEICOLO: usize = 13;

pub const ACC_ANNO_PRIMA_IMM: usize = 14;

pub const ACC_ALIMENTAZIONE_1: usize = 15;

pub const ACC_FRENO_STAZIONAMENTO: usize = 16;

pub const ACC_NUM_ASSI_STAZIONAMENTO: usize = 17;

pub const DRIFT_FIRST: usize = 18;

pub const DRIFT_DATA_SCADENZA: usize = 22;

pub const DRIFT_COD_ERRORE: usize = 29;

pub const DRIFT_DATA_MISURA: usize = 30;

pub const SUSPENSION_FIRST: usize = 43;

pub const SUSPENSION_DATA_SCADENZA: usize = 47;

pub const SUSPENSION_COD_ERRORE: usize = 54;

pub const SUSPENSION_DATA_MISURA: usize = 55;

// Of axle 1; each axle after it has its own so many pairs further on.
pub const SUSPENSION_ADERENZA_SX: usize = 59;

pub const SUSPENSION_ADERENZA_DX: usize = 60;

pub const SUSPENSION_DIFFERENZA: usize = 61;

pub const SUSPENSION_AXLE_PAIRS: usize = 3;

pub const GAS_FIRST: usize = 86;

pub const GAS_MARCA_ANALIZZATORE: usize = 86;

pub const GAS_TIPO_ANALIZZATORE: usize = 87;

pub const GAS_NUM_OMOLOGA_ANALIZZATORE: usize = 88;

pub const GAS_NUM_SERIE_ANALIZZATORE: usize = 89;

pub const GAS_NUM_VERS_SOFTWARE_ANALIZZATORE: usize = 90;

pub const GAS_DATA_SCADENZA_ANALIZZATORE: usize = 91;

pub const GAS_DATA_SCADENZA_CONTAGIRI: usize = 97;

pub const GAS_TIPO_COLLEGAMENTO_CONTAGIRI: usize = 98;

pub const GAS_NUM_VERSIONE_PROTOCOLLO_CONTAGIRI: usize = 99;

pub const GAS_NUM_VERSIONE_PROTOCOLLO_PROVA_VELOCITA: usize = 105;

pub const GAS_DATA_SCADENZA_PROVA_VELOCITA: usize = 106;

pub const GAS_NUM_VERSIONE_PROTOCOLLO: usize = 108;

pub const GAS_TIPO_COLLEGAMENTO: usize = 110;

pub const GAS_COD_ERRORE: usize = 127;

pub const GAS_DATA_MISURA: usize = 128;

pub const GAS_NUM_GIRI_MOTORE_MIN: usize = 137;

pub const OPACITY_FIRST: usize = 139;

pub const OPACITY_DATA_SCADENZA_OPACIMETRO: usize = 144;

pub const OPACITY_DATA_SCADENZA_CONTAGIRI: usize = 150;

pub const OPACITY_TIPO_COLLEGAMENTO_CONTAGIRI: usize = 151;

pub const OPACITY_NUM_VERSIONE_PROTOCOLLO_CONTAGIRI: usize = 152;

pub const OPACITY_NUM_VERSIONE_PROTOCOLLO: usize = 175;

pub const OPACITY_TIPO_COLLEGAMENTO: usize = 177;

pub const OPACITY_COD_ERRORE: usize = 189;

pub const OPACITY_DATA_MISURA: usize = 190;

// How many pairs behind DataMisura's these stand.
pub const INIZIO_MISURA_BEHIND: usize = 1;

pub const FINE_MISURA_BEHIND: usize = 2;
