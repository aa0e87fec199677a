// A part of a message, its text without its escapes.
#![tactic(auto)]

ghost use Rattle.rules.specs.Promises.{TextWritten};

use rules::Refusal;

// Writes the text of a part into the lent buffer: how many bytes it has, or the refusal, which leaves the buffer: those of `locate`, then 23 for a bad escape or an
// unescaped subcomponent separator, then 45.
#[tactic(auto, unfolding(rules::specs::Fetch::text_told, rules::specs::Fetch::part_told))]
pub fn part_text(
    m: &[u8],
    ordinal: usize,
    field: usize,
    component: usize,
    out: &mut [u8],
) -> Result<usize, Refusal>
    ensures { TextWritten m.now ordinal field component out.old result out.new }
{
    let part = fetch::locate(m, ordinal, field, component)?;
    let raw = fetch::bytes_of(m, Ok(part));
    text::text_of(raw, header::delims(m), ordinal, field, out)
}
