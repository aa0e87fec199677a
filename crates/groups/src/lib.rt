// A sheet's groups, each judged line by line: the first fault counts.
#![tactic(auto)]

ghost use Rattle.std.specs.Prelude.{◌≡◌, ◌≤◌, length, take, Ok};
ghost use Rattle.rules.specs.Judge as Judge;
ghost use Rattle.rules.specs.Row as Row;
ghost use Rattle.rules.specs.Row.{lines};
ghost use Rattle.rules.specs.Sheet.{lines_of};
ghost use Rattle.groups.specs.Groups.{four_of, parts_of, status_of, VerdictOn};

use lines::{Group, LineFault, keys};
use rules::Name;
use value::Place::{May, Must};
use value::{Rule, table};

// ---- the header, the patient, the visit

fn header(g: &Group) -> Result<(), LineFault>
    ensures { VerdictOn (lines Name.Msh) (lines_of g.now) result }
{
    let one = plain_bytes::equal(g.value_at(0, &keys::VERSION), b"1");
    g.line_if(0, &keys::VERSION, Must(Rule::Text(1)), one)?;
    g.line(1, &keys::MODE, table::MODE)?;
    g.line(2, &keys::SENT, table::SENT)?;
    g.line(3, &keys::CONTROL, table::CONTROL)
}

// "A blank kanafamily needs a blank kanagiven".
fn kana_fits(family: &[u8], given: &[u8]) -> bool
    ensures { result ≡ Row.kana_fits family.now given.now }
{
    !family.is_empty() | given.is_empty()
}

// A patient's number and name, the first three lines.
fn named(g: &Group) -> Result<(), LineFault>
    ensures { VerdictOn (take 3 (lines Name.Pid)) (lines_of g.now) result }
{
    g.line(0, &keys::PATIENT, table::PATIENT)?;
    g.line(1, &keys::FAMILY, Must(table::NAME))?;
    g.line(2, &keys::GIVEN, May(table::NAME))
}

// The kana name, the next two.
fn kana(g: &Group) -> Result<(), LineFault>
    requires { VerdictOn (take 3 (lines Name.Pid)) (lines_of g.now) (Ok tt) }
    ensures { VerdictOn (take 5 (lines Name.Pid)) (lines_of g.now) result }
{
    let also = kana_fits(
        g.value_at(3, &keys::KANA_FAMILY),
        g.value_at(4, &keys::KANA_GIVEN),
    );
    g.line(3, &keys::KANA_FAMILY, May(table::NAME))?;
    g.line_if(4, &keys::KANA_GIVEN, May(table::NAME), also)
}

fn patient(g: &Group) -> Result<(), LineFault>
    ensures { VerdictOn (lines Name.Pid) (lines_of g.now) result }
{
    named(g)?;
    kana(g)?;
    g.line(5, &keys::BIRTH, table::BIRTH)?;
    g.line(6, &keys::SEX, table::SEX)
}

fn visit(g: &Group) -> Result<(), LineFault>
    ensures { VerdictOn (lines Name.Pv1) (lines_of g.now) result }
{
    g.line(0, &keys::CLASS, table::CLASS)
}

// ---- a specimen, an order

fn specimen(g: &Group) -> Result<(), LineFault>
    ensures { VerdictOn (lines Name.Spm) (lines_of g.now) result }
{
    g.line(0, &keys::SPECIMEN, table::SPECIMEN)?;
    g.line(1, &keys::COLLECTED, table::COLLECTED)
}

fn order(g: &Group) -> Result<(), LineFault>
    ensures { VerdictOn (lines Name.Obr) (lines_of g.now) result }
{
    g.line(0, &keys::ORDER, table::ORDER)?;
    g.line(1, &keys::GROUP, table::GROUP)
}

// ---- a result

// What a sheet says of the four parts of OBX-5.
#[derive(Clone, Copy)]
struct Obx5<'a> {
    compare: &'a [u8],
    value: &'a [u8],
    join: &'a [u8],
    second: &'a [u8],
}

impl<'a> Obx5<'a> {
    fn of(g: &Group<'a>) -> Obx5<'a>
        ensures { four_of result ≡ parts_of (lines_of g.now) }
    {
        Obx5 {
            compare: g.value_at(3, &keys::COMPARE),
            value: g.value_at(4, &keys::VALUE),
            join: g.value_at(5, &keys::JOIN),
            second: g.value_at(6, &keys::SECOND),
        }
    }

    // Whether a part beside the value is filled.
    fn beside(&self) -> bool
        ensures { result ≡ Judge.beside (four_of self.now) }
    {
        value::beside(
            !self.compare.is_empty(),
            !self.join.is_empty(),
            !self.second.is_empty(),
        )
    }

    // "a missing joiner, and an SN whose value is blank beside a filled compare, join or second"
    fn joined(&self) -> bool
        ensures { result ≡ Row.joined (four_of self.now) }
    {
        let unjoined = value::unjoined(!self.join.is_empty(), !self.second.is_empty());
        !unjoined & (!self.value.is_empty() | !self.beside())
    }

    // "Status F, P or C needs a value (for SN its first number); I or X needs OBX-5 empty in every component."
    fn agrees(&self, status: &[u8]) -> bool
        ensures { result ≡ Judge.agrees status.now (four_of self.now) }
    {
        value::agrees(status, !self.value.is_empty(), self.beside())
    }
}

// Its first three lines.
fn item(g: &Group) -> Result<(), LineFault>
    ensures { VerdictOn (take 3 (lines Name.Obx)) (lines_of g.now) result }
{
    g.line(0, &keys::ITEM, table::ITEM)?;
    g.line(1, &keys::NAME, table::ITEM_NAME)?;
    g.line(2, &keys::TYPE, table::TYPE)
}

// The four parts of OBX-5, the next four: each has the rule of its type.
fn parts(g: &Group, also: bool) -> Result<(), LineFault>
    requires { VerdictOn (take 3 (lines Name.Obx)) (lines_of g.now) (Ok tt) × (also ≡ Row.joined (parts_of (lines_of g.now))) }
    ensures { VerdictOn (take 7 (lines Name.Obx)) (lines_of g.now) result }
{
    let rules = value::part_rules(g.value_at(2, &keys::TYPE));
    g.line(3, &keys::COMPARE, May(rules.compare))?;
    g.line(4, &keys::VALUE, May(rules.value))?;
    g.line(5, &keys::JOIN, May(rules.join))?;
    g.line_if(6, &keys::SECOND, May(rules.second), also)
}

// Unit, flag and status, the last three.
fn standing(g: &Group, met: bool) -> Result<(), LineFault>
    requires { VerdictOn (take 7 (lines Name.Obx)) (lines_of g.now) (Ok tt) × (met ≡ Judge.agrees (status_of (lines_of g.now)) (parts_of (lines_of g.now))) }
    ensures { VerdictOn (lines Name.Obx) (lines_of g.now) result }
{
    g.line(7, &keys::UNIT, table::UNIT)?;
    g.line(8, &keys::FLAG, table::FLAG)?;
    g.line_if(9, &keys::STATUS, table::STATUS, met)
}

fn result(g: &Group) -> Result<(), LineFault>
    ensures { VerdictOn (lines Name.Obx) (lines_of g.now) result }
{
    let said = Obx5::of(g);
    item(g)?;
    parts(g, said.joined())?;
    standing(g, said.agrees(g.value_at(9, &keys::STATUS)))
}

// ---- any group

pub fn group(name: Name, g: &Group) -> Result<(), LineFault>
    ensures { VerdictOn (lines name) (lines_of g.now) result }
{
    match name {
        Name::Msh => header(g),
        Name::Pid => patient(g),
        Name::Pv1 => visit(g),
        Name::Spm => specimen(g),
        Name::Obr => order(g),
        Name::Obx => result(g),
        Name::Orc | Name::Other => Ok(()),
    }
}

// How many lines it has.
#[tactic(auto, unfolding(rules::specs::Row::lines))]
pub fn lines_in(name: Name) -> usize
    ensures { (result ≡ length (lines name)) × (result ≤ 10) }
{
    match name {
        Name::Msh => 4,
        Name::Pid => 7,
        Name::Pv1 => 1,
        Name::Spm => 2,
        Name::Obr => 2,
        Name::Obx => 10,
        Name::Orc | Name::Other => 0,
    }
}
