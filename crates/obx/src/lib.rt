// The read places of an OBX, field by field, and 26.
#![tactic(auto)]

ghost use Rattle.std.specs.Prelude.{MatchResult};
ghost use Rattle.rules.specs.declared.Name.TheVariants.{Obx};
ghost use Rattle.rules.specs.Shift.{met};
ghost use Rattle.rules.specs.Proper.{Proper};
ghost use Rattle.rules.specs.Judge.{value_fault};
ghost use Rattle.rules.specs.Check.{Context};
ghost use Rattle.fields.specs.Fields.{Ready, Broken};
ghost use Rattle.fields.specs.Segment.{FoundIn};
ghost use Rattle.obx.specs.Obx.{value_field, ValueTo, ValuedAt, StopsIn};

use fields::Form::{One, Three};
use fields::{FieldFault, Walk, begin, field, head_of, start_of};
use rules::{Delims, Kind};
use value::table;

// How far an OBX is judged, at its value; whether that is filled, and whether a part beside it is.
#[derive(Clone, Copy)]
struct Valued {
    walk: Walk,
    filled: bool,
    beside: bool,
}

// On to OBX-5 and through it, given OBX-2's word.
fn value_field(s: &[u8], d: Delims, w: Walk, word: &[u8]) -> Result<Valued, FieldFault>
    requires { Proper d × Ready s.now value_field w }
    ensures { MatchResult result (λ v. ValueTo d s.now word.now w v.walk v.filled v.beside) (λ e. Broken d s.now value_field (value_fault d word.now) w e) }
{
    let start = start_of(s, d, w, 5);
    let r = obx_value::value(&s[start..], d, word);
    match r.fault {
        Ok(()) => Ok(Valued {
            walk: Walk {
                field: 5,
                start,
                head: 0,
                at: start + r.len,
            },
            filled: r.filled,
            beside: r.beside,
        }),
        Err(kind) => Err(FieldFault { kind, field: 5 }),
    }
}

// An OBX up to its value.
#[tactic(auto, unfolding(fields::specs::Fields::SmallForm))]
fn up_to_value(s: &[u8], d: Delims) -> Result<Valued, FieldFault>
    requires { Proper d }
    ensures { MatchResult result (λ v. ValuedAt d s.now v.walk v.filled v.beside) (λ e. StopsIn d s.now e) }
{
    let w = begin(0);
    let w = field(s, d, w, 2, One(table::TYPE))?;
    let word = head_of(s, w);
    let item = Three(table::ITEM, table::ITEM_NAME, table::JC10);
    let w = field(s, d, w, 3, item)?;
    value_field(s, d, w, word)
}

#[tactic(auto, unfolding(fields::specs::Fields::SmallForm))]
pub fn obx(s: &[u8], d: Delims) -> Result<(), FieldFault>
    requires { Proper d }
    ensures { (x : Context) → FoundIn Obx d x (met s.now) result }
{
    let v = up_to_value(s, d)?;
    let w = field(s, d, v.walk, 6, One(table::UNIT))?;
    let w = field(s, d, w, 8, One(table::FLAG))?;
    let w = field(s, d, w, 11, One(table::STATUS))?;
    if !value::agrees(head_of(s, w), v.filled, v.beside) {
        return Err(FieldFault {
            kind: Kind::Status,
            field: w.field,
        });
    }
    Ok(())
}
