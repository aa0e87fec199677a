// One read component, judged: 21, 23, 20, 24, 25.
#![tactic(auto)]

ghost use Rattle.std.specs.Prelude.{◌≡◌};
ghost use Rattle.rules.specs.Shift.{met};
ghost use Rattle.rules.specs.Escape.{unescape};
ghost use Rattle.rules.specs.Judge.{fault_or23};
ghost use Rattle.rules.specs.Judge as J;
ghost use Rattle.value.specs.Rules.{rule_of, fault_no};
ghost use Rattle.judge.specs.Judge.{Small, Clean};

use rules::{Delims, Kind};
use unescape::NotHeld;
use value::Rule;

// A component with escapes: 23, 20, 24, 25.
#[tactic(auto, using(crate::proofs::Laws::escaped_laws), unfolding(value::specs::Rules::fault_no))]
fn judge_escaped(raw: &[u8], d: Delims, required: bool, rule: Rule) -> Result<(), Kind>
    requires { Small rule }
    ensures { fault_no result ≡ fault_or23 required (rule_of rule) (unescape d (met raw.now)) }
{
    let mut buf = [0u8; 256];
    match unescape::unescape_into(raw, d, &mut buf) {
        Ok(n) => value::fault_of(required, rule, &buf[..n]),
        Err(NotHeld::Faulty) => Err(Kind::Escape),
        Err(NotHeld::Over(n)) => {
            if value::too_long(rule, n) {
                return Err(Kind::Long);
            }
            Err(Kind::Value)
        }
    }
}

// A read component.
#[tactic(auto, using(crate::proofs::Laws::judge_laws), unfolding(value::specs::Rules::fault_no))]
pub fn judge(raw: &[u8], d: Delims, required: bool, rule: Rule) -> Result<(), Kind>
    requires { Small rule }
    ensures { fault_no result ≡ J.judge d required (rule_of rule) (met raw.now) }
{
    if plain_bytes::equal(raw, b"\"\"") {
        return Err(Kind::Null);
    }
    judge_escaped(raw, d, required, rule)
}

// One that has neither escape byte nor subcomponent separator is judged where it lies.
#[tactic(auto, using(crate::proofs::Laws::clean_laws), unfolding(value::specs::Rules::fault_no))]
pub fn judge_clean(raw: &[u8], required: bool, rule: Rule) -> Result<(), Kind>
    ensures { (d : Delims) → Clean d raw.now → fault_no result ≡ J.judge d required (rule_of rule) (met raw.now) }
{
    if plain_bytes::equal(raw, b"\"\"") {
        return Err(Kind::Null);
    }
    value::fault_of(required, rule, raw)
}
