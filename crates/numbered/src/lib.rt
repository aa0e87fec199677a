// The segments with a number of their own, a specimen's and a result's; and the first segment of any group.
#![tactic(auto)]

ghost use Rattle.std.specs.Prelude.{◌≡◌, true, false, ◌≤◌, length};
ghost use Rattle.rules.specs.Sheet.{lines_of};
ghost use Rattle.writer.specs.Over.{Fit};
ghost use Rattle.segments.specs.Segments.{group_segment, Source, longest_segment};
ghost use Rattle.numbered.specs.Numbered.{numbers_of, number_is, has_number, numbered_text, filled_sn, greatest_number, Sources};

use lines::{Group, keys};
use rules::{Delims, Name};

// "SPM-1 and OBX-1 count from 1, OBX-1 anew in each order".
#[derive(Clone, Copy)]
pub struct Numbers {
    pub specimen: usize,
    pub result: usize,
}

// ---- a specimen

fn specimen(out: &mut [u8], number: &[u8], g: &Group, d: Delims) -> usize
    requires { Source g.now d × (length number.now ≤ 5) }
    ensures fit { Fit result out.new (numbered_text d number.now Name.Spm (lines_of g.now)) out.old }
    ensures within { result ≤ longest_segment }
{
    let specimen_type = g.value_at(0, &keys::SPECIMEN);
    let collected = g.value_at(1, &keys::COLLECTED);
    writer::fit_woven(
        out,
        b"#|#|||$^^JC10|||||||||||||$\r",
        &[&rules::SPM, number, specimen_type, collected],
        d,
    )
}

// ---- a result

// "A filled SN has all three component separators".
fn structured(out: &mut [u8], number: &[u8], g: &Group, d: Delims) -> usize
    requires { Source g.now d × (length number.now ≤ 5) × (filled_sn (lines_of g.now) ≡ true) }
    ensures fit { Fit result out.new (numbered_text d number.now Name.Obx (lines_of g.now)) out.old }
    ensures within { result ≤ longest_segment }
{
    let item = g.value_at(0, &keys::ITEM);
    let name = g.value_at(1, &keys::NAME);
    let value_type = g.value_at(2, &keys::TYPE);
    let compare = g.value_at(3, &keys::COMPARE);
    let value = g.value_at(4, &keys::VALUE);
    let join = g.value_at(5, &keys::JOIN);
    let second = g.value_at(6, &keys::SECOND);
    let unit = g.value_at(7, &keys::UNIT);
    let flag = g.value_at(8, &keys::FLAG);
    let status = g.value_at(9, &keys::STATUS);
    writer::fit_woven(
        out,
        b"#|#|$|$^$^JC10||$^$^$^$|$||$|||$\r",
        &[
            &rules::OBX,
            number,
            value_type,
            item,
            name,
            compare,
            value,
            join,
            second,
            unit,
            flag,
            status,
        ],
        d,
    )
}

// Any other value has one component.
fn single(out: &mut [u8], number: &[u8], g: &Group, d: Delims) -> usize
    requires { Source g.now d × (length number.now ≤ 5) × (filled_sn (lines_of g.now) ≡ false) }
    ensures fit { Fit result out.new (numbered_text d number.now Name.Obx (lines_of g.now)) out.old }
    ensures within { result ≤ longest_segment }
{
    let item = g.value_at(0, &keys::ITEM);
    let name = g.value_at(1, &keys::NAME);
    let value_type = g.value_at(2, &keys::TYPE);
    let value = g.value_at(4, &keys::VALUE);
    let unit = g.value_at(7, &keys::UNIT);
    let flag = g.value_at(8, &keys::FLAG);
    let status = g.value_at(9, &keys::STATUS);
    writer::fit_woven(
        out,
        b"#|#|$|$^$^JC10||$|$||$|||$\r",
        &[
            &rules::OBX,
            number,
            value_type,
            item,
            name,
            value,
            unit,
            flag,
            status,
        ],
        d,
    )
}

fn result(out: &mut [u8], number: &[u8], g: &Group, d: Delims) -> usize
    requires { Source g.now d × (length number.now ≤ 5) }
    ensures fit { Fit result out.new (numbered_text d number.now Name.Obx (lines_of g.now)) out.old }
    ensures within { result ≤ longest_segment }
{
    let value_type = g.value_at(2, &keys::TYPE);
    let value = g.value_at(4, &keys::VALUE);
    if plain_bytes::equal(value_type, b"SN") & !value.is_empty() {
        return structured(out, number, g, d);
    }
    single(out, number, g, d)
}

// Either, with its number in decimal.
fn put_numbered(out: &mut [u8], name: Name, n: usize, g: &Group, d: Delims) -> usize
    requires { Source g.now d × (has_number name ≡ true) × (n ≤ greatest_number) }
    ensures fit { Fit result out.new (group_segment d (number_is n) name 0 (lines_of g.now)) out.old }
    ensures within { result ≤ longest_segment }
{
    let mut digits = [0u8; 5];
    let len = writer::put_number(&mut digits, n);
    let number = &digits[..len];
    if names::is(name, Name::Spm) {
        return specimen(out, number, g, d);
    }
    result(out, number, g, d)
}

// ---- any group

// The first segment of a group: an order's OBR, or the only one.
pub fn put_first(out: &mut [u8], name: Name, g: &Group, numbers: Numbers, d: Delims) -> usize
    requires { Sources g.now numbers d }
    ensures fit { Fit result out.new (group_segment d (numbers_of numbers) name 0 (lines_of g.now)) out.old }
    ensures within { result ≤ longest_segment }
{
    match name {
        Name::Msh => segments::header(out, g, d),
        Name::Pid => segments::patient(out, g, d),
        Name::Pv1 => segments::visit(out, g, d),
        Name::Spm => put_numbered(out, name, numbers.specimen, g, d),
        Name::Obr => segments::order(out, g, d),
        Name::Obx => put_numbered(out, name, numbers.result, g, d),
        Name::Orc | Name::Other => 0,
    }
}
