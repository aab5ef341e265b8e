// A closed set: the rules 13 to 15 over its text, and its paragraph. A comment is neither tested nor laid.

#![tactic(auto)]

ghost use Rattle.std.specs.Prelude.{◌≡◌};
ghost use Rattle.meaning.specs.Refusals.{verdict};
ghost use Rattle.meaning.specs.Walk.{set_rule};
ghost use Rattle.sets.specs.Assembling.{set_of};
ghost use Rattle.closed.specs.Body.{body_of, lay_set, Lays};

use meaning::{Format, Refusal};
use rows::SetText;
use sets::Set;
use text::BodyWriter;

// The first rule that the set breaks is the error.
#[tactic(auto, unfolding(meaning::specs::Walk::set_rule, sets::specs::Assembling::set_of, sets::specs::Assembling::set_with, meaning::specs::Refusals::verdict, meaning::specs::Refusals::is_good, meaning::specs::Refusals::no_refusal))]
pub fn set_rule(f: Format, text: &[u8], set: Set) -> Result<(), Refusal>
    ensures { result ≡ verdict (set_rule f (set_of set text.now)) }
{
    let h = set.first;
    if h.is_comment() {
        return Ok(());
    }
    let text = SetText {
        bytes: set.text(text),
        f,
        vp: h.vp,
    };
    faults::text_rule(text, set.place)
}

// Lays the set's paragraph behind what is there.
pub fn lay(f: Format, text: &[u8], body: &mut BodyWriter, set: Set)
    ensures { Lays body.old (lay_set f (set_of set text.now) (body_of body.old)) body.new }
{
    let h = set.first;
    if h.is_comment() {
        return;
    }
    document::put_paragraph(body, h, set.text(text), f)
}
