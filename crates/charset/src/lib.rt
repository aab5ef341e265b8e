// What a text's codes stand for: a code by itself, an accent with the code after it, and what stands at a position.

#![tactic(auto)]

ghost use Rattle.std.specs.Prelude.{◌≡◌, ◌<◌, suc, length, Some, None, IfSome, IfNone};
ghost use Rattle.std.specs.Iterator.{YieldsFirst, item_count};
ghost use Rattle.meaning.specs.Characters.{accented};
ghost use Rattle.meaning.specs.Codes.{is_control, is_switch, character_of, code_token};
ghost use Rattle.charset.specs.Plain.{is_plain, plain_end};
ghost use Rattle.charset.specs.Reading.{pair_at, reading_at, readings_from, runs_from, run_end};
ghost use Rattle.charset.specs.Readings.{readings_left};
ghost use Rattle.charset.specs.Runs.{runs_left};

use meaning::{Glyph, Token};

mod characters;
mod composed_table;
mod latin_table;

// The token at a position of a text, and the position after it. A text is read by positions and not by a cursor: rules tell offsets.
#[derive(Clone, Copy)]
pub struct Reading {
    pub token: Token,
    pub next: usize,
}

// No branch, each test is made: with `matches!` a file that rule 15 refuses in its longest set took a third more time, and the bar is
// a tenth (DECISIONS.md).
#[tactic(auto, unfolding(meaning::specs::Codes::is_control))]
fn is_control(c: u8) -> bool
    ensures { result ≡ is_control c }
{
    (c < 8) | (c == 10) | (c == 11) | (c == 13) | (c == 28) | (c == 29)
}

#[tactic(auto, unfolding(meaning::specs::Codes::is_switch))]
fn is_switch(c: u8) -> bool
    ensures { result ≡ is_switch c }
{
    matches!(c, 128..=131)
}

// A code that stands for the character of the same number. No branch, as in `is_control`: with `matches!` a film took a fifth more time.
#[tactic(auto, unfolding(crate::specs::Plain::is_plain))]
fn is_plain(c: u8) -> bool
    ensures { result ≡ is_plain c }
{
    (32 <= c) & (c <= 126) & (c != 36)
}

// A code below A0h: no table is read for it.
#[tactic(auto, using(crate::proofs::Codes::plain_code, crate::proofs::Codes::control_token, crate::proofs::Codes::switch_token, crate::proofs::Codes::no_token))]
fn low_token(c: u8) -> Token
    requires { c < 160 }
    ensures { result ≡ code_token c }
{
    if is_plain(c) {
        return Token::Character(Glyph::single(u16::from(c)));
    }
    if is_control(c) {
        return Token::Control(c);
    }
    if is_switch(c) {
        return Token::Switch(c);
    }
    match c {
        36 => Token::Character(Glyph::single(164)),
        138 => Token::RowEnd,
        _ => Token::Unlisted,
    }
}

fn code_token(c: u8) -> Token
    ensures { result ≡ code_token c }
{
    if c < 160 {
        return low_token(c);
    }
    characters::upper(c).map_or(Token::Unlisted, Token::Character)
}

// An accent, by its number as in the definition `accented`, and the code after it.
fn pair_token(a: usize, c: u8) -> Token
    requires { a < 13 }
    ensures { result ≡ character_of (accented (suc a) c) }
{
    characters::pair(a, c).map_or(Token::Unlisted, Token::Character)
}

// The number of a code that is an accent, with the code at a position after it, where the text has the position. No token, for it would be
// handed on whole (see `Runs`).
#[tactic(auto, using(crate::proofs::Points::accent_is, crate::proofs::Points::accent_not, crate::proofs::Points::pair_of, crate::proofs::Positions::pair_here, crate::proofs::Positions::pair_other, crate::proofs::Positions::pair_short))]
fn pair_at(text: &[u8], c: u8, after: usize) -> Option<(usize, u8)>
    ensures some { IfSome result (λ p. pair_at text.now c after ≡ Some (character_of (accented (suc p.0) p.1))) }
    ensures none { IfNone result (pair_at text.now c after ≡ None) }
    ensures small { IfSome result (λ p. p.0 < 13) }
{
    let a = characters::accent(c)?;
    let d = *text.get(after)?;
    Some((a, d))
}

// An accent is read with the code after it, where there is one. Compiled into the loops of `Readings`, where what such a loop does not ask
// of a token is then left out: by `reading_at` a file that rule 15 refuses in its longest set took a fifth more time.
#[inline(always)]
#[tactic(auto, using(crate::proofs::Positions::read_some, crate::proofs::Positions::read_none))]
fn reading_within(text: &[u8], i: usize) -> Reading
    requires { i < length text.now }
    ensures { result ≡ reading_at text.now i }
{
    let c = text[i];
    let after = i + 1;
    match pair_at(text, c, after) {
        Some((a, d)) => Reading {
            token: pair_token(a, d),
            next: i + 2,
        },
        None => Reading {
            token: code_token(c),
            next: after,
        },
    }
}

// Behind the text's end what is read is not listed, as the definition has it.
#[tactic(auto, using(crate::proofs::Positions::read_over))]
pub fn reading_at(text: &[u8], i: usize) -> Reading
    ensures { result ≡ reading_at text.now i }
{
    if text.len() <= i {
        return Reading {
            token: Token::Unlisted,
            next: i,
        };
    }
    reading_within(text, i)
}

// The same for a loop over a text: nearly every code is a low one, and what is done for it here is little enough to be compiled into
// the loop, that of `Runs`: by `reading_at` a film took 3 % more instructions. Both are public, and stay for their promises (TRACE.md).
#[tactic(auto, using(crate::proofs::Laws::low_reading))]
pub fn token_at(text: &[u8], i: usize) -> Reading
    ensures { result ≡ reading_at text.now i }
{
    match text.get(i) {
        Some(&c) if c < 160 => Reading {
            token: low_token(c),
            next: i + 1,
        },
        _ => reading_at(text, i),
    }
}

// The readings of a text from a position on, each with its position.
#[derive(Drop)]
pub struct Readings<'a> {
    text: &'a [u8],
    at: usize,
}

impl<'a> Readings<'a> {
    pub fn new(text: &'a [u8], start: usize) -> Readings<'a>
        ensures { readings_left result ≡ readings_from text.now start }
    {
        Readings { text, at: start }
    }
}

impl<'a> Iterator for Readings<'a> {
    type Item = (usize, Reading);

    ghost next_gives = { YieldsFirst readings_left };

    ghost remaining = { item_count readings_left };

    #[inline(always)]
    #[tactic(auto, using(crate::proofs::Positions::readings_more, crate::proofs::Positions::readings_over))]
    fn next(&mut self) -> Option<(usize, Reading)> {
        let at = self.at;
        if self.text.len() <= at {
            return None;
        }
        // Made anew, as in `Runs`.
        let Reading { token, next } = reading_within(self.text, at);
        let read = Reading { token, next };
        self.at = read.next;
        Some((at, read))
    }
}

// Where the run of plain codes from a position on ends. By the index and no `position` over the rest of the text, for which five
// instructions more are made for each token: with them a longest set that rule 15 refuses took a fifth more time, and the bar is a tenth.
pub fn plain_end(text: &[u8], start: usize) -> usize
    ensures { result ≡ plain_end text.now start }
{
    for i in start..text.len() {
        if !is_plain(text[i]) {
            return i;
        }
    }
    text.len().max(start)
}

// Where the run of plain codes after a reading ends. A row end has none, since the row is over.
#[inline(always)]
#[tactic(auto, unfolding(crate::specs::Reading::run_end, meaning::specs::Codes::is_row_end))]
fn run_end(text: &[u8], read: Reading) -> usize
    ensures { result ≡ run_end text.now read }
{
    match read.token {
        Token::RowEnd => read.next,
        _ => plain_end(text, read.next),
    }
}

// The readings of a text from a position on where the run of plain codes after each is passed over, each with the position after
// that run.
#[derive(Drop)]
pub struct Runs<'a> {
    text: &'a [u8],
    at: usize,
}

impl<'a> Runs<'a> {
    pub fn new(text: &'a [u8], start: usize) -> Runs<'a>
        ensures { runs_left result ≡ runs_from text.now start }
    {
        Runs { text, at: start }
    }
}

impl<'a> Iterator for Runs<'a> {
    type Item = (Reading, usize);

    ghost next_gives = { YieldsFirst runs_left };

    ghost remaining = { item_count runs_left };

    // Compiled into its loops: as a function of its own a conversion took a tenth more instructions.
    #[inline(always)]
    #[tactic(auto, using(crate::proofs::Positions::runs_more, crate::proofs::Positions::runs_over))]
    fn next(&mut self) -> Option<(Reading, usize)> {
        let at = self.at;
        if self.text.len() <= at {
            return None;
        }
        // Made anew of its parts: one that is handed on whole is stored, and read again in other pieces than it was stored in, for which
        // a processor waits. A file refused in its longest set then took half as long again.
        let Reading { token, next } = token_at(self.text, at);
        let read = Reading { token, next };
        let end = run_end(self.text, read);
        self.at = end;
        Some((read, end))
    }
}
