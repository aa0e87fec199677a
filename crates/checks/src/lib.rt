// The check of a message: 10 to 27.
#![tactic(auto)]

ghost use Rattle.std.specs.Prelude.{◌≡◌};
ghost use Rattle.rules.specs.Told.{told};
ghost use Rattle.rules.specs.Promises.{Checked};
ghost use Rattle.frame.specs.Frame.{Sound};
ghost use Rattle.checks.specs.Check.{read_told};

use frame::segments::Segments;
use rules::{Counts, Delims, Name, Refusal};

pub fn check(m: &[u8]) -> Result<Counts, Refusal>
    ensures { Checked m.now result }
{
    let o = frame::frame(m)?;
    check_places(m, o.delims)?;
    Ok(o.counts)
}

// 20 to 27, segment by segment; the order number of the last OBR is passed on.
fn check_places(m: &[u8], d: Delims) -> Result<(), Refusal>
    requires { Sound m.now d }
    ensures { told result ≡ read_told d m.now }
{
    let mut order = &m[..0];
    let mut ordinal = 1;
    for s in (Segments { rest: m }) {
        let name = names::name_of(s);
        if name == Name::Other {
            continue;
        }
        match places::segment(name, s, d, order) {
            Ok(number) => order = number,
            Err(fault) => {
                return Err(Refusal {
                    kind: fault.kind,
                    segment: ordinal,
                    field: fault.field,
                });
            }
        }
        ordinal += 1;
    }
    Ok(())
}
