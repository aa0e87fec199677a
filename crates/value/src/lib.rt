// The value rules of the read places, over plain bytes: a component that is unescaped, or a value of a sheet.
#![tactic(auto)]

ghost use Rattle.std.specs.Prelude.{◌≡◌, List, ℕ, ◌+◌, ◌-◌, ◌<◌, length};
ghost use Rattle.rules.specs.Lists.{filled, is_one_of};
ghost use Rattle.rules.specs.Value as Val;
ghost use Rattle.rules.specs.Places.{Four, value_rules};
ghost use Rattle.rules.specs.Judge as Judge;
ghost use Rattle.value.specs.Rules.{fault_no, text_of, rule_of, rules_of};

pub mod table;

use rules::Kind;

// The words that a place may hold.
#[derive(Clone, Copy)]
pub enum Words {
    Oul, // MSH-9.1
    R22, // MSH-9.2
    OulR22, // MSH-9.3
    Modes, // MSH-11
    Version, // MSH-12
    Sexes, // PID-8
    Classes, // PV1-2
    Jc10, // SPM-4.3, OBX-3.3
    Group, // OBR-4.3
    Re, // ORC-1
    Types, // OBX-2
    Flags, // OBX-8
    Statuses, // OBX-11
    Blank, // what NM and ST have no use for
    Comparators, // SN, component 1
    Joiners, // SN, component 3
}

// The rule of a read place.
#[derive(Clone, Copy)]
pub enum Rule {
    Time, // YYYYMMDDHHMMSS
    Date, // YYYYMMDD
    Number, // NM
    Text(usize), // at most so many bytes
    Digits(usize), // exactly so many digits
    Capitals(usize), // at most so many capitals or digits
    OneOf(Words),
}

// A component of a field: not read, required, or read where it is filled.
#[derive(Clone, Copy)]
pub enum Place {
    Unread,
    Must(Rule),
    May(Rule),
}

// The rules of OBX-5's four parts.
#[derive(Clone, Copy)]
pub struct Parts {
    pub compare: Rule,
    pub value: Rule,
    pub join: Rule,
    pub second: Rule,
}

// At most n capitals or digits.
#[tactic(auto, using(crate::proofs::Laws::capitals_laws))]
fn capitals(v: &[u8], n: usize) -> bool
    ensures { result ≡ Val.holds (Val.capitals n) v.now }
{
    if n < v.len() {
        return false;
    }
    plain_bytes::all_capitals_or_digits(v)
}

// ---- words
// A function for each place that has several: comparisons with constants compile without a loop; a table of all words, searched by one function,
// took the check 3 to 5 % longer.

// MSH-11.
#[tactic(auto, using(crate::proofs::Laws::words_laws), unfolding(crate::specs::Rules::text_of, rules::specs::Lists::bytes, rules::specs::Lists::split, rules::specs::Lists::onto))]
fn is_mode(v: &[u8]) -> bool
    ensures { result ≡ is_one_of (text_of Words.Modes) v.now }
{
    plain_bytes::equal(v, b"P") | plain_bytes::equal(v, b"T") | plain_bytes::equal(v, b"D")
}

// PID-8.
fn is_sex(v: &[u8]) -> bool
    ensures { result ≡ is_one_of (text_of Words.Sexes) v.now }
{
    plain_bytes::equal(v, b"M")
        | plain_bytes::equal(v, b"F")
        | plain_bytes::equal(v, b"O")
        | plain_bytes::equal(v, b"U")
}

// PV1-2.
#[tactic(auto, using(crate::proofs::Laws::words_laws), unfolding(crate::specs::Rules::text_of, rules::specs::Lists::bytes, rules::specs::Lists::split, rules::specs::Lists::onto))]
fn is_class(v: &[u8]) -> bool
    ensures { result ≡ is_one_of (text_of Words.Classes) v.now }
{
    plain_bytes::equal(v, b"I") | plain_bytes::equal(v, b"O")
}

// OBX-2.
#[tactic(auto, using(crate::proofs::Laws::words_laws), unfolding(crate::specs::Rules::text_of, rules::specs::Lists::bytes, rules::specs::Lists::split, rules::specs::Lists::onto))]
fn is_type(v: &[u8]) -> bool
    ensures { result ≡ is_one_of (text_of Words.Types) v.now }
{
    plain_bytes::equal(v, b"NM") | plain_bytes::equal(v, b"SN") | plain_bytes::equal(v, b"ST")
}

// OBX-8.
fn is_flag(v: &[u8]) -> bool
    ensures { result ≡ is_one_of (text_of Words.Flags) v.now }
{
    plain_bytes::equal(v, b"L")
        | plain_bytes::equal(v, b"H")
        | plain_bytes::equal(v, b"LL")
        | plain_bytes::equal(v, b"HH")
        | plain_bytes::equal(v, b"N")
        | plain_bytes::equal(v, b"A")
}

// OBX-11.
fn is_status(v: &[u8]) -> bool
    ensures { result ≡ is_one_of (text_of Words.Statuses) v.now }
{
    plain_bytes::equal(v, b"F")
        | plain_bytes::equal(v, b"P")
        | plain_bytes::equal(v, b"C")
        | plain_bytes::equal(v, b"I")
        | plain_bytes::equal(v, b"X")
}

// SN, component 1.
fn is_comparator(v: &[u8]) -> bool
    ensures { result ≡ is_one_of (text_of Words.Comparators) v.now }
{
    plain_bytes::equal(v, b">")
        | plain_bytes::equal(v, b"<")
        | plain_bytes::equal(v, b">=")
        | plain_bytes::equal(v, b"<=")
        | plain_bytes::equal(v, b"=")
        | plain_bytes::equal(v, b"<>")
}

// SN, component 3.
fn is_joiner(v: &[u8]) -> bool
    ensures { result ≡ is_one_of (text_of Words.Joiners) v.now }
{
    plain_bytes::equal(v, b"-")
        | plain_bytes::equal(v, b"+")
        | plain_bytes::equal(v, b"/")
        | plain_bytes::equal(v, b".")
        | plain_bytes::equal(v, b":")
}

// Whether v is one of the words of a place.
#[tactic(auto, using(crate::proofs::Laws::word_is))]
fn is_word(words: Words, v: &[u8]) -> bool
    ensures { result ≡ is_one_of (text_of words) v.now }
{
    match words {
        Words::Oul => plain_bytes::equal(v, b"OUL"),
        Words::R22 => plain_bytes::equal(v, b"R22"),
        Words::OulR22 => plain_bytes::equal(v, b"OUL_R22"),
        Words::Modes => is_mode(v),
        Words::Version => plain_bytes::equal(v, b"2.5"),
        Words::Sexes => is_sex(v),
        Words::Classes => is_class(v),
        Words::Jc10 => plain_bytes::equal(v, b"JC10"),
        Words::Group => plain_bytes::equal(v, b"99003"),
        Words::Re => plain_bytes::equal(v, b"RE"),
        Words::Types => is_type(v),
        Words::Flags => is_flag(v),
        Words::Statuses => is_status(v),
        Words::Blank => plain_bytes::equal(v, b""),
        Words::Comparators => is_comparator(v),
        Words::Joiners => is_joiner(v),
    }
}

// ---- a place's rule

// Whether a filled value meets its rule.
#[tactic(auto, using(crate::proofs::Laws::holds_is), unfolding(crate::specs::Rules::rule_of, rules::specs::Value::holds))]
fn holds(rule: Rule, v: &[u8]) -> bool
    ensures { result ≡ Val.holds (rule_of rule) v.now }
{
    match rule {
        Rule::Time => calendar::is_time(v),
        Rule::Date => calendar::is_date(v),
        Rule::Number => number::is_number(v),
        Rule::Text(_) => true,
        Rule::Digits(n) => plain_bytes::digits(v, n),
        Rule::Capitals(n) => capitals(v, n),
        Rule::OneOf(words) => is_word(words, v),
    }
}

// 24, "text or NM too long": whether a value of n bytes is.
#[tactic(auto, using(crate::proofs::Laws::too_long_laws), unfolding(crate::specs::Rules::rule_of, rules::specs::Value::too_long))]
pub fn too_long(rule: Rule, n: usize) -> bool
    ensures { (v : List ℕ) → length v ≡ n → result ≡ Val.too_long (rule_of rule) v }
{
    match rule {
        Rule::Number => 16 < n,
        Rule::Text(most) => most < n,
        _ => false,
    }
}

// 20, 24, 25 in this order: what a value breaks that must be filled or may be empty.
#[tactic(auto, using(crate::proofs::Laws::fault_of_laws), unfolding(crate::specs::Rules::fault_no))]
pub fn fault_of(required: bool, rule: Rule, v: &[u8]) -> Result<(), Kind>
    ensures { fault_no result ≡ Val.fault required (rule_of rule) v.now }
{
    if v.is_empty() {
        if required {
            return Err(Kind::Missing);
        }
        return Ok(());
    }
    if too_long(rule, v.len()) {
        return Err(Kind::Long);
    }
    if !holds(rule, v) {
        return Err(Kind::Value);
    }
    Ok(())
}

// ---- OBX-5: comparator, number or text, joiner, second number

// The rules of its parts, by the word of OBX-2.
#[tactic(auto, using(crate::proofs::Laws::part_rules_laws))]
pub fn part_rules(obx2: &[u8]) -> Parts
    ensures { rules_of result ≡ value_rules obx2.now }
{
    if plain_bytes::equal(obx2, b"SN") {
        return table::SN;
    }
    if plain_bytes::equal(obx2, b"NM") {
        return table::NM;
    }
    table::ST
}

// Whether a part beside the value is filled, given which are.
#[tactic(auto, using(crate::proofs::Laws::beside_is))]
pub fn beside(compare: bool, join: bool, second: bool) -> bool
    ensures { (c : Four (List ℕ)) → compare ≡ filled c.compare → join ≡ filled c.join → second ≡ filled c.second → result ≡ Judge.beside c }
{
    compare | join | second
}

// "a second number needs a joiner": whether it has none, given which are filled.
#[tactic(auto, using(crate::proofs::Laws::unjoined_is))]
pub fn unjoined(join: bool, second: bool) -> bool
    ensures { (c : Four (List ℕ)) → join ≡ filled c.join → second ≡ filled c.second → result ≡ Judge.unjoined c }
{
    second & !join
}

// 26: whether the status of OBX-11 agrees with what OBX-5 fills: a value, a part beside it.
#[tactic(auto, using(crate::proofs::Laws::agrees_laws), unfolding(rules::specs::Lists::bytes, rules::specs::Lists::split, rules::specs::Lists::onto))]
pub fn agrees(status: &[u8], number: bool, parts: bool) -> bool
    ensures { (c : Four (List ℕ)) → number ≡ filled c.value → parts ≡ Judge.beside c → result ≡ Judge.agrees status.now c }
{
    if plain_bytes::equal(status, b"F")
        | plain_bytes::equal(status, b"P")
        | plain_bytes::equal(status, b"C")
    {
        return number;
    }
    !number & !parts
}
