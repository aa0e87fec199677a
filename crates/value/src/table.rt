// The read places of document 01 with their rules: one entry, for the message's place and for the sheet's line.
use crate::Place::{May, Must};
use crate::Rule::{Capitals, Date, Digits, OneOf, Text, Time};
use crate::{Parts, Place, Rule, Words};

// ---- MSH

pub const SENT: Place = Must(Time); // 7

pub const OUL: Place = Must(OneOf(Words::Oul)); // 9

pub const R22: Place = Must(OneOf(Words::R22));

pub const OUL_R22: Place = Must(OneOf(Words::OulR22));

pub const CONTROL: Place = Must(Text(20)); // 10

pub const MODE: Place = Must(OneOf(Words::Modes)); // 11

pub const VERSION: Place = Must(OneOf(Words::Version)); // 12

// ---- PID

pub const PATIENT: Place = Must(Text(20)); // 3

pub const NAME: Rule = Text(48); // 5: family and given name, kanji and kana

pub const BIRTH: Place = May(Date); // 7

pub const SEX: Place = Must(OneOf(Words::Sexes)); // 8

// ---- PV1

pub const CLASS: Place = Must(OneOf(Words::Classes)); // 2

// ---- SPM

pub const SPECIMEN: Place = Must(Digits(3)); // 4

pub const COLLECTED: Place = Must(Time); // 17

// ---- OBR and ORC

pub const ORDER: Place = Must(Digits(15)); // OBR-2, ORC-2

pub const GROUP: Place = Must(Capitals(8)); // OBR-4

pub const GROUPS: Place = Must(OneOf(Words::Group)); // OBR-4, component 3

pub const CONTROLLED: Place = Must(OneOf(Words::Re)); // ORC-1

// ---- OBX

pub const TYPE: Place = Must(OneOf(Words::Types)); // 2

pub const ITEM: Place = Must(Capitals(17)); // 3

pub const ITEM_NAME: Place = May(Text(48));

pub const JC10: Place = Must(OneOf(Words::Jc10)); // OBX-3 and SPM-4, component 3

const BLANK: Rule = OneOf(Words::Blank); // 5: a part that NM and ST have no use for

pub const SN: Parts = Parts {
    compare: OneOf(Words::Comparators),
    value: Rule::Number,
    join: OneOf(Words::Joiners),
    second: Rule::Number,
};

pub const NM: Parts = Parts {
    compare: BLANK,
    value: Rule::Number,
    join: BLANK,
    second: BLANK,
};

pub const ST: Parts = Parts {
    compare: BLANK,
    value: Text(200),
    join: BLANK,
    second: BLANK,
};

pub const UNIT: Place = May(Text(20)); // 6

pub const FLAG: Place = May(OneOf(Words::Flags)); // 8

pub const STATUS: Place = Must(OneOf(Words::Statuses)); // 11
