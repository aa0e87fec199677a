// The read places of the leading segments, each once in a message: MSH, PID and PV1.
#![tactic(auto)]

ghost use Rattle.rules.specs.declared.Name.TheVariants.{Msh, Pid, Pv1};
ghost use Rattle.rules.specs.Shift.{met};
ghost use Rattle.rules.specs.Proper.{Proper};
ghost use Rattle.rules.specs.Check.{Context};
ghost use Rattle.fields.specs.Segment.{FoundIn};

use fields::Form::{Charset, Names, One, Three};
use fields::{FieldFault, begin, field};
use rules::Delims;
use value::table;

// In MSH the first separator is itself field 1: it is where the walk begins.
#[tactic(auto, unfolding(fields::specs::Fields::SmallForm))]
pub fn msh(s: &[u8], d: Delims) -> Result<(), FieldFault>
    requires { Proper d }
    ensures { (x : Context) → FoundIn Msh d x (met s.now) result }
{
    let w = begin(1);
    let w = field(s, d, w, 7, One(table::SENT))?;
    let event = Three(table::OUL, table::R22, table::OUL_R22);
    let w = field(s, d, w, 9, event)?;
    let w = field(s, d, w, 10, One(table::CONTROL))?;
    let w = field(s, d, w, 11, One(table::MODE))?;
    let w = field(s, d, w, 12, One(table::VERSION))?;
    field(s, d, w, 18, Charset)?;
    Ok(())
}

#[tactic(auto, unfolding(fields::specs::Fields::SmallForm))]
pub fn pid(s: &[u8], d: Delims) -> Result<(), FieldFault>
    requires { Proper d }
    ensures { (x : Context) → FoundIn Pid d x (met s.now) result }
{
    let w = begin(0);
    let w = field(s, d, w, 3, One(table::PATIENT))?;
    let w = field(s, d, w, 5, Names)?;
    let w = field(s, d, w, 7, One(table::BIRTH))?;
    field(s, d, w, 8, One(table::SEX))?;
    Ok(())
}

#[tactic(auto, unfolding(fields::specs::Fields::SmallForm))]
pub fn pv1(s: &[u8], d: Delims) -> Result<(), FieldFault>
    requires { Proper d }
    ensures { (x : Context) → FoundIn Pv1 d x (met s.now) result }
{
    let w = begin(0);
    field(s, d, w, 2, One(table::CLASS))?;
    Ok(())
}
