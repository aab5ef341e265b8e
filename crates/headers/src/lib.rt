// The rules 8 to 12 over a set's first block. The place goes along to each rule, as `Refusals.first_broken` has it.

#![tactic(auto)]

ghost use Rattle.std.specs.Prelude.{◌≡◌, ◌≤◌};
ghost use Rattle.meaning.specs.Refusals.{first_broken, verdict};
ghost use Rattle.meaning.specs.Blocks.{in_frames, time_rules, times_rules, on_screen, first_block_rules};

use meaning::{Format, Header, Refusal, Screen, Time};

// A time in frames, by which `times_rules` compares: a derived order of `Time` agrees only where all its parts are in range.
#[tactic(auto, unfolding(meaning::specs::Blocks::in_frames))]
fn in_frames(t: Time, rate: u8) -> u32
    ensures { result ≡ in_frames rate t }
{
    let minutes = u32::from(t.hours) * 60 + u32::from(t.minutes);
    let seconds = minutes * 60 + u32::from(t.seconds);
    seconds * u32::from(rate) + u32::from(t.frames)
}

// Rule 11 over the bytes of a time, which starts at an offset of the block.
#[tactic(auto, using(meaning::proofs::RefusalLaws::verdict_cons, meaning::proofs::RefusalLaws::verdict_one), unfolding(meaning::specs::Blocks::time_rules))]
fn time_rule(place: u64, at: u64, t: Time, rate: u8) -> Result<(), Refusal>
    requires { at ≤ 12 }
    ensures { result ≡ verdict (first_broken place (time_rules rate at t)) }
{
    Refusal::unless(t.hours < 24, 11, place, at)?;
    Refusal::unless(t.minutes < 60, 11, place, 1 + at)?;
    Refusal::unless(t.seconds < 60, 11, place, 2 + at)?;
    Refusal::unless(t.frames < rate, 11, place, 3 + at)
}

// Rule 11 over both times. TCO is compared with TCI only where both are in range.
#[tactic(auto, using(crate::proofs::Times::times_verdict))]
fn times_rule(place: u64, start: Time, stop: Time, rate: u8) -> Result<(), Refusal>
    ensures { result ≡ verdict (first_broken place (times_rules rate start stop)) }
{
    time_rule(place, Header::TCI_AT as u64, start, rate)?;
    time_rule(place, Header::TCO_AT as u64, stop, rate)?;
    let later = in_frames(start, rate) < in_frames(stop, rate);
    Refusal::unless(later, 11, place, Header::TCO_AT as u64)
}

#[tactic(auto, unfolding(meaning::specs::Blocks::on_screen))]
fn on_screen(s: Screen, vp: u8) -> bool
    ensures { result ≡ on_screen s vp }
{
    s.first <= vp && vp < s.end
}

// The first of the rules that the block at a place breaks. A comment is tested for 8 and 9 only.
#[tactic(auto, using(crate::proofs::Times::first_block_verdict, crate::proofs::Times::subtitle_verdict))]
pub fn first_block_rule(f: Format, place: u64, least: u32, h: Header) -> Result<(), Refusal>
    ensures { result ≡ verdict (first_broken place (first_block_rules f least h)) }
{
    Refusal::unless(h.cf <= 1, 8, place, Header::CF_AT as u64)?;
    Refusal::unless(least <= u32::from(h.sn), 9, place, Header::SN_AT as u64)?;
    if h.is_comment() {
        return Ok(());
    }
    Refusal::unless(h.cs == 0, 10, place, Header::CS_AT as u64)?;
    times_rule(place, h.tci, h.tco, f.rate)?;
    let shown = on_screen(f.screen, h.vp);
    Refusal::unless(shown, 12, place, Header::VP_AT as u64)?;
    Refusal::unless(h.jc <= 3, 12, place, Header::JC_AT as u64)
}
