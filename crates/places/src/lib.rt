// The read places of a segment, field by field, as the table of document 01 lists them.
#![tactic(auto)]

ghost use Rattle.std.specs.Prelude.{◌≡◌, IfOk};
ghost use Rattle.rules.specs.Shift.{met};
ghost use Rattle.rules.specs.Proper.{Proper};
ghost use Rattle.rules.specs.View.{segment_of};
ghost use Rattle.rules.specs.Check.{context_after};
ghost use Rattle.fields.specs.Segment.{as_known, said, FoundIn};

use fields::FieldFault;
use rules::{Delims, Name};

// By its name, after the OBR whose order number is `order`: the order number that the segments after it go by, an OBR's own, else the same.
// Other names have no read places.
pub fn segment<'a>(
    name: Name,
    s: &'a [u8],
    d: Delims,
    order: &'a [u8],
) -> Result<&'a [u8], FieldFault>
    requires { Proper d }
    ensures found_in { FoundIn name d (said order.now) (met s.now) result }
    ensures order { IfOk result (λ o. said o.now ≡ context_after d (said order.now) (segment_of d (as_known name (met s.now)))) }
{
    match name {
        Name::Msh => leading::msh(s, d).and(Ok(order)),
        Name::Pid => leading::pid(s, d).and(Ok(order)),
        Name::Pv1 => leading::pv1(s, d).and(Ok(order)),
        Name::Spm => specimen::spm(s, d).and(Ok(order)),
        Name::Obr => specimen::obr(s, d),
        Name::Orc => specimen::orc(s, d, order).and(Ok(order)),
        Name::Obx => obx::obx(s, d).and(Ok(order)),
        Name::Other => Ok(order),
    }
}
