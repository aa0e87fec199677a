// The read places of a specimen and of its orders: SPM, OBR and ORC, and 27.
#![tactic(auto)]

ghost use Rattle.std.specs.Prelude.{◌≡◌, IfOk};
ghost use Rattle.rules.specs.declared.Name.TheVariants.{Spm, Obr, Orc};
ghost use Rattle.rules.specs.Shift.{met};
ghost use Rattle.rules.specs.Proper.{Proper};
ghost use Rattle.rules.specs.Check.{Context};
ghost use Rattle.fields.specs.Segment.{said, FoundIn};
ghost use Rattle.specimen.specs.Specimen.{order_number};

use fields::Form::{One, Three};
use fields::{FieldFault, begin, field, head_of};
use rules::{Delims, Kind};
use value::Place::Unread;
use value::table;

#[tactic(auto, unfolding(fields::specs::Fields::SmallForm))]
pub fn spm(s: &[u8], d: Delims) -> Result<(), FieldFault>
    requires { Proper d }
    ensures { (x : Context) → FoundIn Spm d x (met s.now) result }
{
    let w = begin(0);
    let material = Three(table::SPECIMEN, Unread, table::JC10);
    let w = field(s, d, w, 4, material)?;
    field(s, d, w, 17, One(table::COLLECTED))?;
    Ok(())
}

// The order number.
#[tactic(auto, unfolding(fields::specs::Fields::SmallForm))]
pub fn obr(s: &[u8], d: Delims) -> Result<&[u8], FieldFault>
    requires { Proper d }
    ensures found_in { (x : Context) → FoundIn Obr d x (met s.now) result }
    ensures order { IfOk result (λ o. o.now ≡ order_number d s.now) }
{
    let w = begin(0);
    let order = field(s, d, w, 2, One(table::ORDER))?;
    let group = Three(table::GROUP, Unread, table::GROUPS);
    field(s, d, order, 4, group)?;
    Ok(head_of(s, order))
}

// ORC, after the OBR whose order number is `order`.
#[tactic(auto, unfolding(fields::specs::Fields::SmallForm))]
pub fn orc(s: &[u8], d: Delims, order: &[u8]) -> Result<(), FieldFault>
    requires { Proper d }
    ensures { FoundIn Orc d (said order.now) (met s.now) result }
{
    let w = begin(0);
    let w = field(s, d, w, 1, One(table::CONTROLLED))?;
    let w = field(s, d, w, 2, One(table::ORDER))?;
    if !plain_bytes::equal(head_of(s, w), order) {
        return Err(FieldFault {
            kind: Kind::Differs,
            field: w.field,
        });
    }
    Ok(())
}
