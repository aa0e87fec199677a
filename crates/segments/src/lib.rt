// The segments without a number of their own, each written by its pattern from the lines of its group, where there is room for it.
#![tactic(auto)]

ghost use Rattle.std.specs.Prelude.{◌≡◌, true, false, ◌≤◌};
ghost use Rattle.rules.specs.Sheet.{lines_of};
ghost use Rattle.rules.specs.Message.{zeros};
ghost use Rattle.writer.specs.Over.{Fit};
ghost use Rattle.segments.specs.Segments.{group_segment, has_kana, Source, longest_segment};

use lines::{Group, keys};
use rules::{Delims, Name};

// ---- the header, the patient, the visit

pub fn header(out: &mut [u8], g: &Group, d: Delims) -> usize
    requires { Source g.now d }
    ensures fit { Fit result out.new (group_segment d zeros Name.Msh 0 (lines_of g.now)) out.old }
    ensures within { result ≤ longest_segment }
{
    let mode = g.value_at(1, &keys::MODE);
    let sent = g.value_at(2, &keys::SENT);
    let control = g.value_at(3, &keys::CONTROL);
    writer::fit_woven(
        out,
        b"#|^~\\&|||||$||OUL^R22^OUL_R22|$|$|2.5||||||~ISO IR87||ISO 2022-1994\r",
        &[&rules::MSH, sent, control, mode],
        d,
    )
}

// A patient without a kana name.
fn kanji_alone(out: &mut [u8], g: &Group, d: Delims) -> usize
    requires { Source g.now d × (has_kana (lines_of g.now) ≡ false) }
    ensures fit { Fit result out.new (group_segment d zeros Name.Pid 0 (lines_of g.now)) out.old }
    ensures within { result ≤ longest_segment }
{
    let id = g.value_at(0, &keys::PATIENT);
    let family = g.value_at(1, &keys::FAMILY);
    let given = g.value_at(2, &keys::GIVEN);
    let birth = g.value_at(5, &keys::BIRTH);
    let sex = g.value_at(6, &keys::SEX);
    writer::fit_woven(
        out,
        b"#|||$||$^$^^^^^L^I||$|$\r",
        &[&rules::PID, id, family, given, birth, sex],
        d,
    )
}

// "a kana name is a second repetition with P"
fn with_kana(out: &mut [u8], g: &Group, d: Delims) -> usize
    requires { Source g.now d × (has_kana (lines_of g.now) ≡ true) }
    ensures fit { Fit result out.new (group_segment d zeros Name.Pid 0 (lines_of g.now)) out.old }
    ensures within { result ≤ longest_segment }
{
    let id = g.value_at(0, &keys::PATIENT);
    let family = g.value_at(1, &keys::FAMILY);
    let given = g.value_at(2, &keys::GIVEN);
    let kana_family = g.value_at(3, &keys::KANA_FAMILY);
    let kana_given = g.value_at(4, &keys::KANA_GIVEN);
    let birth = g.value_at(5, &keys::BIRTH);
    let sex = g.value_at(6, &keys::SEX);
    writer::fit_woven(
        out,
        b"#|||$||$^$^^^^^L^I~$^$^^^^^L^P||$|$\r",
        &[
            &rules::PID,
            id,
            family,
            given,
            kana_family,
            kana_given,
            birth,
            sex,
        ],
        d,
    )
}

pub fn patient(out: &mut [u8], g: &Group, d: Delims) -> usize
    requires { Source g.now d }
    ensures fit { Fit result out.new (group_segment d zeros Name.Pid 0 (lines_of g.now)) out.old }
    ensures within { result ≤ longest_segment }
{
    let kana_family = g.value_at(3, &keys::KANA_FAMILY);
    if kana_family.is_empty() {
        return kanji_alone(out, g, d);
    }
    with_kana(out, g, d)
}

pub fn visit(out: &mut [u8], g: &Group, d: Delims) -> usize
    requires { Source g.now d }
    ensures fit { Fit result out.new (group_segment d zeros Name.Pv1 0 (lines_of g.now)) out.old }
    ensures within { result ≤ longest_segment }
{
    let class = g.value_at(0, &keys::CLASS);
    writer::fit_woven(out, b"#||$\r", &[&rules::PV1, class], d)
}

// ---- an order: OBR, and ORC with the same number

pub fn order(out: &mut [u8], g: &Group, d: Delims) -> usize
    requires { Source g.now d }
    ensures fit { Fit result out.new (group_segment d zeros Name.Obr 0 (lines_of g.now)) out.old }
    ensures within { result ≤ longest_segment }
{
    let id = g.value_at(0, &keys::ORDER);
    let group = g.value_at(1, &keys::GROUP);
    writer::fit_woven(out, b"#||$||$^^99003\r", &[&rules::OBR, id, group], d)
}

pub fn common_order(out: &mut [u8], g: &Group, d: Delims) -> usize
    requires { Source g.now d }
    ensures fit { Fit result out.new (group_segment d zeros Name.Obr 1 (lines_of g.now)) out.old }
    ensures within { result ≤ longest_segment }
{
    let id = g.value_at(0, &keys::ORDER);
    writer::fit_woven(out, b"#|RE|$\r", &[&rules::ORC, id], d)
}
