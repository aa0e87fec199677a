// The words of a refusal, and which place is told before them. The texts are those of the table `Words`.
#![tactic(auto)]

ghost use Rattle.std.specs.Prelude.{◌≡◌, ◌≤◌, length};
ghost use Rattle.rules.specs.Lists.{bytes};
ghost use Rattle.words.specs.Words.{saying, breach_words, breach_of, words_of, fault_words};

use csv_rules::FileFault;
use rules::{Kind, Name};

// Which place is told before the words.
#[derive(Clone, Copy, Debug, PartialEq, Eq)]
pub enum Where {
    Nowhere,
    AtSpot,
    AtSegment,
    AtLine,
    AtField,
}

// What 25 says of a field: what its value is not, or no more than that it breaks its rule.
#[derive(Clone, Copy, Debug, PartialEq, Eq)]
pub enum Breach {
    NoTime,
    NoDate,
    NoDigits,
    NoWord,
    NoCode,
    NoCharset,
    NoValue,
    Unsaid,
}

// The place that is told of a kind.
#[tactic(auto, unfolding(crate::specs::Words::saying))]
pub fn place_of(kind: Kind) -> Where
    ensures { result ≡ (saying kind).tells }
{
    match kind {
        Kind::Bytes | Kind::Segment | Kind::SheetBytes => Where::AtSpot,
        Kind::Order => Where::AtSegment,
        Kind::Key | Kind::LineValue => Where::AtLine,
        Kind::Missing
        | Kind::Null
        | Kind::Repeated
        | Kind::Escape
        | Kind::Long
        | Kind::Value
        | Kind::Status
        | Kind::Differs => Where::AtField,
        Kind::TooLong
        | Kind::Header
        | Kind::TooMany
        | Kind::NoOrdinal
        | Kind::Zero
        | Kind::SheetTooLong
        | Kind::Overflow
        | Kind::Room => Where::Nowhere,
    }
}

// The words of a kind; those of 25 by what the place's rule asks.
pub fn of_kind(kind: Kind, breach: Breach) -> &'static str
    ensures said { result.now ≡ bytes (words_of kind breach) }
    ensures short { length result.now ≤ 80 }
{
    match kind {
        Kind::TooLong => "the message has more than 32,768 bytes",
        Kind::Header => "the first nine bytes are no header",
        Kind::Bytes => "a byte that is not allowed here, or a shift that is broken off",
        Kind::Segment => "no segment: a bad name, more than 4,096 bytes, or no 0D at its end",
        Kind::TooMany => "the message has more than 512 segments",
        Kind::Order => "out of order, or missing",
        Kind::Missing => "required, but empty",
        Kind::Null => "exactly \"\"",
        Kind::Repeated => "a repetition, where one value is read",
        Kind::Escape => "a bare subcomponent separator, a bad escape, or a component too many",
        Kind::Long => "too long",
        Kind::Value => breach_words(breach),
        Kind::Status => "the value does not fit the status",
        Kind::Differs => "not the order number of the OBR before it",
        Kind::NoOrdinal => "no known segment has this ordinal",
        Kind::Zero => "fields and components are counted from 1",
        Kind::SheetTooLong => "the sheet has more than 65,536 bytes",
        Kind::SheetBytes =>
            "a byte that is not allowed here, a shift that is broken off, or no 0A at the end",
        Kind::Key => "not the key that must stand here",
        Kind::LineValue => "the value breaks its rule",
        Kind::Overflow => "the message would have more than 32,768 bytes or 512 segments",
        Kind::Room => "the lent buffer is too short",
    }
}

fn breach_words(breach: Breach) -> &'static str
    ensures said { result.now ≡ bytes (breach_words breach) }
    ensures short { length result.now ≤ 80 }
{
    match breach {
        Breach::NoTime => "not a time that exists",
        Breach::NoDate => "not a date that exists",
        Breach::NoDigits => "not the digits that it takes",
        Breach::NoWord => "not one of its words",
        Breach::NoCode => "not the code and coding system that it takes",
        Breach::NoCharset => "not the repetition separator and ISO IR87",
        Breach::NoValue => "not a value of its type",
        Breach::Unsaid => "breaks its rule",
    }
}

// Which words 25 has for a field of a segment: the table of read places.
#[tactic(auto, unfolding(crate::specs::Words::breach_of, crate::specs::Words::breach_in, crate::specs::Words::read_breach, rules::specs::Places::places, rules::specs::Lists::all))]
pub fn breach_of(name: Name, field: usize) -> Breach
    ensures { result ≡ breach_of name field }
{
    match name {
        Name::Msh => match field {
            7 => Breach::NoTime,
            9 | 11 | 12 => Breach::NoWord,
            18 => Breach::NoCharset,
            _ => Breach::Unsaid,
        },
        Name::Pid => match field {
            7 => Breach::NoDate,
            8 => Breach::NoWord,
            _ => Breach::Unsaid,
        },
        Name::Pv1 => match field {
            2 => Breach::NoWord,
            _ => Breach::Unsaid,
        },
        Name::Spm => match field {
            4 => Breach::NoCode,
            17 => Breach::NoTime,
            _ => Breach::Unsaid,
        },
        Name::Obr => match field {
            2 => Breach::NoDigits,
            4 => Breach::NoCode,
            _ => Breach::Unsaid,
        },
        Name::Orc => match field {
            1 => Breach::NoWord,
            2 => Breach::NoDigits,
            _ => Breach::Unsaid,
        },
        Name::Obx => match field {
            2 | 8 | 11 => Breach::NoWord,
            3 => Breach::NoCode,
            5 => Breach::NoValue,
            _ => Breach::Unsaid,
        },
        Name::Other => Breach::Unsaid,
    }
}

// The words of a file's fault.
pub fn of_fault(fault: FileFault) -> &'static str
    ensures said { result.now ≡ bytes (fault_words fault) }
    ensures short { length result.now ≤ 80 }
{
    match fault {
        FileFault::Quoting =>
            "an item is not quoted as it must be, or a line does not end in CR LF",
        FileFault::Columns =>
            "no version or heading line, a bad column count, or a row with another count",
        FileFault::Unconverted =>
            "a byte that cannot be converted, as half-width kana or a byte below 20",
        FileFault::HeaderDiffers =>
            "a patient key or the class differs from a row before with this result number",
        FileFault::Returns => "a result number that comes back after another",
    }
}
