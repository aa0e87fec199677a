// The keys of a sheet's lines, each with its `=`: group by group, in the sheet's order.

// ---- the header, MSH

pub const VERSION: [u8; 8] = *b"version=";

pub const MODE: [u8; 5] = *b"mode=";

pub const SENT: [u8; 5] = *b"sent=";

pub const CONTROL: [u8; 8] = *b"control=";

// ---- the patient, PID

pub const PATIENT: [u8; 8] = *b"patient=";

pub const FAMILY: [u8; 7] = *b"family=";

pub const GIVEN: [u8; 6] = *b"given=";

pub const KANA_FAMILY: [u8; 11] = *b"kanafamily=";

pub const KANA_GIVEN: [u8; 10] = *b"kanagiven=";

pub const BIRTH: [u8; 6] = *b"birth=";

pub const SEX: [u8; 4] = *b"sex=";

// ---- the visit, PV1

pub const CLASS: [u8; 6] = *b"class=";

// ---- a specimen, SPM

pub const SPECIMEN: [u8; 9] = *b"specimen=";

pub const COLLECTED: [u8; 10] = *b"collected=";

// ---- an order, OBR and ORC

pub const ORDER: [u8; 6] = *b"order=";

pub const GROUP: [u8; 6] = *b"group=";

// ---- a result, OBX

pub const ITEM: [u8; 5] = *b"item=";

pub const NAME: [u8; 5] = *b"name=";

pub const TYPE: [u8; 5] = *b"type=";

pub const COMPARE: [u8; 8] = *b"compare=";

pub const VALUE: [u8; 6] = *b"value=";

pub const JOIN: [u8; 5] = *b"join=";

pub const SECOND: [u8; 7] = *b"second=";

pub const UNIT: [u8; 5] = *b"unit=";

pub const FLAG: [u8; 5] = *b"flag=";

pub const STATUS: [u8; 7] = *b"status=";
