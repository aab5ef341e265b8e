// The byte of a text that breaks one of the rules 13 to 15. It is looked for only where `SetText::verdict` says that one is broken.

#![tactic(auto)]

ghost use Rattle.std.specs.Prelude.{◌+◌, ◌≡◌, true, Err, not, ◌&&◌, ◌||◌, ltb, drop};
ghost use Rattle.meaning.specs.Codes.{tokens, is_listed, is_character, is_double_height};
ghost use Rattle.meaning.specs.Rows.{first_row, heights_right, lines_of};
ghost use Rattle.meaning.specs.TextRules.{odd_ends, break_size, code_fault, height_fault, row_fault, text_rule};
ghost use Rattle.meaning.specs.Refusals.{verdict};
ghost use Rattle.rows.specs.Scanning.{number_of};
ghost use Rattle.faults.specs.Searching.{with_token, row_name};

use charset::Readings;
use meaning::{Refusal, Rows, Token};
use rows::{RowPlaces, SetText, TextRule};

#[tactic(auto, unfolding(meaning::specs::Codes::is_listed))]
fn is_listed(t: Token, teletext: bool) -> bool
    ensures { result ≡ is_listed teletext t }
{
    match t {
        Token::Character(_) => true,
        Token::Control(_) => teletext,
        Token::Switch(_) => !teletext,
        Token::RowEnd => true,
        Token::Unlisted => false,
    }
}

#[tactic(auto, unfolding(meaning::specs::Codes::is_character))]
fn is_character(t: Token) -> bool
    ensures { result ≡ is_character t }
{
    matches!(t, Token::Character(_))
}

// Rule 13: where the first code or pair stands that is not listed.
fn code_fault(text: &[u8], teletext: bool) -> usize
    ensures { result ≡ code_fault teletext text.now }
{
    for (at, read) in Readings::new(text, 0) {
        let t = read.token;
        if !is_listed(t, teletext) {
            return at;
        }
    }
    text.len()
}

// What stands before a token: any row end; a character in the token's row; a row end just before it.
#[derive(Clone, Copy, Default)]
struct Past {
    later: bool,
    character: bool,
    ended: bool,
}

impl Past {
    #[tactic(auto, unfolding(crate::specs::Searching::with_token))]
    fn with_token(self, t: Token) -> Past
        ensures { result ≡ with_token self t }
    {
        let end = rows::is_row_end(t);
        Past {
            later: end | self.later,
            character: !end & (is_character(t) | self.character),
            ended: end,
        }
    }

    // 0Dh after a character of its row, or in a later row of a single-height subtitle.
    fn forbids(self, t: Token, double: bool) -> bool
        ensures { result ≡ (is_double_height t && (self.character || (not double && self.later))) }
    {
        rows::is_double_height(t) & (self.character | (!double & self.later))
    }
}

// Whether an odd number of row ends stands from a position on.
fn odd_ends(text: &[u8], start: usize) -> bool
    ensures { result ≡ odd_ends (tokens (drop start text.now)) }
{
    let mut odd = false;
    for (_, read) in Readings::new(text, start) {
        let t = read.token;
        if !rows::is_row_end(t) {
            return odd;
        }
        odd = !odd;
    }
    odd
}

// Whether a run of row ends starts at a position and is odd, where row ends are paired.
fn starts_odd_run(text: &[u8], i: usize, past: Past, paired: bool) -> bool
    ensures { result ≡ (paired && not past.ended && odd_ends (tokens (drop i text.now))) }
{
    if paired & !past.ended {
        return odd_ends(text, i);
    }
    false
}

// Rule 14: where the first 0Dh stands that must not stand there, or the first row end of an odd run.
fn height_fault(text: SetText) -> usize
    ensures { result ≡ height_fault text.entry.f.mode text.entry.bytes.now }
{
    let double = rows::is_double(text.bytes);
    let paired = text.f.is_paired(double);
    let mut past = Past::default();
    for (at, read) in Readings::new(text.bytes, 0) {
        let t = read.token;
        if past.forbids(t, double) | starts_odd_run(text.bytes, at, past, paired) {
            return at;
        }
        past = past.with_token(t);
    }
    text.bytes.len()
}

// Whether a row breaks rule 15: it is not short, or it is the `count`th row and has a line past the last.
fn breaks_rows(text: SetText, short: bool, count: u32, double: bool) -> bool
    ensures { result ≡ (not short || ltb text.entry.f.screen.end (text.entry.vp + (lines_of double (record { 0 = count })).0)) }
{
    let screen = text.f.screen;
    let end = text.end(Rows(count), double);
    !short | (u64::from(screen.end) < end)
}

// The row ends of a break.
fn break_size(paired: bool) -> usize
    ensures { result ≡ break_size paired }
{
    if paired { 2 } else { 1 }
}

// The byte that names the row from a position on: its first, or, where it has none, the first of the break before it.
#[tactic(auto, using(crate::proofs::RowNames::name_first, crate::proofs::RowNames::name_break))]
fn row_name(text: &[u8], paired: bool, start: usize) -> usize
    ensures { result ≡ row_name paired start (first_row (tokens (drop start text.now))) }
{
    let read = charset::reading_at(text, start);
    let t = read.token;
    if (start < text.len()) & !rows::is_row_end(t) {
        return start;
    }
    start.saturating_sub(break_size(paired))
}

// Rule 15: where the first row stands that is not short, or has a line past the last. Rule 14 holds, so that row ends stand in pairs
// where they are paired.
fn row_fault(text: SetText) -> usize
    requires { heights_right text.f.mode (tokens text.bytes.now) ≡ true }
    ensures { result ≡ row_fault text.entry.f text.entry.vp text.entry.bytes.now }
{
    let double = rows::is_double(text.bytes);
    let paired = text.f.is_paired(double);
    for (k, (start, row)) in RowPlaces::new(text.bytes, paired).enumerate() {
        // The rows before this one fit the screen, so a u32 holds their number.
        if breaks_rows(text, row.short, k as u32 + 1, double) {
            return row_name(text.bytes, paired, start);
        }
    }
    text.bytes.len()
}

// Where a text breaks a rule, which is the first that it breaks.
#[tactic(auto, using(crate::proofs::Numbers::codes_fault, crate::proofs::Numbers::heights_fault, crate::proofs::Numbers::fit_fault, crate::proofs::Numbers::fit_heights))]
fn fault(text: SetText, rule: TextRule) -> usize
    requires { number_of (Err rule) ≡ (text_rule text.f 0 text.vp text.bytes.now).number }
    ensures { result ≡ (text_rule text.entry.f 0 text.entry.vp text.entry.bytes.now).offset }
{
    match rule {
        TextRule::Codes => code_fault(text.bytes, text.f.teletext),
        TextRule::Heights => height_fault(text),
        TextRule::Fit => row_fault(text),
    }
}

// Whether the text of a set keeps the rules 13, 14 and 15, or the first that it breaks, with the byte of the text; the set begins at
// block `place`.
#[tactic(auto, using(crate::proofs::Numbers::kept_told, crate::proofs::Numbers::broken_told, crate::proofs::Numbers::err_number), unfolding(rows::specs::Scanning::number_of))]
pub fn text_rule(text: SetText, place: u64) -> Result<(), Refusal>
    ensures { result ≡ verdict (text_rule text.entry.f place text.entry.vp text.entry.bytes.now) }
{
    // No `map_err` (tried): of a closure that calls what requires something, nothing is known of what it gives.
    let Err(rule) = text.verdict() else {
        return Ok(());
    };
    Err(Refusal {
        number: u64::from(rule),
        place,
        offset: fault(text, rule) as u64,
    })
}
