// A text's rows, and which of the rules 13 to 15 it breaks. Where it breaks one is told by the crate faults.

#![tactic(auto)]

ghost use Rattle.std.specs.Prelude.{◌+◌, min, ◌≡◌, Some, Err};
ghost use Rattle.std.specs.Iterator.{YieldsFirst, item_count};
ghost use Rattle.meaning.specs.Codes.{tokens, is_row_end, is_double_height};
ghost use Rattle.meaning.specs.Rows.{is_double, lines_of};
ghost use Rattle.meaning.specs.TextRules.{text_rule};
ghost use Rattle.rows.specs.Scanning.{count_limit, with_token, with_characters, with_end, with_row, number_of, first_failed, rule_of};
ghost use Rattle.rows.specs.Scanned.{Scanned, row_at, next_row_at, break_end, TextScanned};

use charset::{Readings, Runs};
use meaning::{Format, ROW_LIMIT, Rows, Token};

// A set's text, with what it is read and placed by: the format of its file, and the set's VP.
#[derive(Clone, Copy)]
pub struct SetText<'a> {
    pub bytes: &'a [u8],
    pub f: Format,
    pub vp: u8,
}

// What is known of a row: its cells, counted up to a limit; whether all its codes are listed; whether 0Dh stands in it, and a
// character; and whether no 0Dh stands after a character.
#[derive(Clone, Copy)]
struct RowFacts {
    // A usize for speed: with a u32 the struct is kept in one register, whose bits are picked apart for each token.
    cells: usize,
    listed: bool,
    height: bool,
    character: bool,
    ordered: bool,
}

// One row of a text: its facts, and the position after the row end, if one follows it.
#[derive(Clone, Copy)]
struct RowScan {
    facts: RowFacts,
    after: Option<usize>,
}

// What a search needs of a row: whether it has few enough cells, and the position after the row end, if one follows it.
#[derive(Clone, Copy, PartialEq, Eq)]
pub struct Row {
    pub short: bool,
    pub after: Option<usize>,
}

// The rules over a text: 13, that its codes are listed; 14, where the codes of the height and the row ends stand; 15, that its rows
// fit the screen.
#[derive(Clone, Copy, PartialEq, Eq)]
pub enum TextRule {
    Codes,
    Heights,
    Fit,
}

// The number of a rule, as a refusal gives it.
impl From<TextRule> for u64 {
    ghost from_gives = { λ rule n. n ≡ number_of (Err rule) };

    #[tactic(auto, unfolding(crate::specs::Scanning::number_of))]
    fn from(rule: TextRule) -> u64 {
        match rule {
            TextRule::Codes => 13,
            TextRule::Heights => 14,
            TextRule::Fit => 15,
        }
    }
}

// What is known of all rows, which are counted up to the same limit.
#[derive(Clone, Copy)]
struct TextFacts {
    listed: bool,
    height: bool,
    ordered: bool,
    short: bool,
    rows: u32,
}

const DOUBLE_HEIGHT: u8 = 13;

// Above every limit that a rule sets: no rule can tell counts beyond it apart.
const COUNT_LIMIT: usize = 256;

// A count of cells or rows with some more, up to the limit.
pub fn capped_sum(n: usize, more: usize) -> usize
    ensures { result ≡ min (n + more) count_limit }
{
    n.saturating_add(more).min(COUNT_LIMIT)
}

#[tactic(auto, unfolding(meaning::specs::Codes::is_row_end))]
pub fn is_row_end(t: Token) -> bool
    ensures { result ≡ is_row_end t }
{
    matches!(t, Token::RowEnd)
}

#[tactic(auto, unfolding(meaning::specs::Codes::is_control_of))]
pub fn is_double_height(t: Token) -> bool
    ensures { result ≡ is_double_height t }
{
    matches!(t, Token::Control(DOUBLE_HEIGHT))
}

impl RowFacts {
    const NONE: RowFacts = RowFacts {
        cells: 0,
        listed: true,
        height: false,
        character: false,
        ordered: true,
    };

    // A switch takes no cell. Controls are listed in teletext, switches in open subtitles.
    #[tactic(auto, unfolding(crate::specs::Scanning::with_token, meaning::specs::Codes::is_listed, meaning::specs::Codes::is_character, meaning::specs::Codes::takes_cell, meaning::specs::Codes::is_control_of))]
    fn with_token(self, t: Token, teletext: bool) -> RowFacts
        ensures { result ≡ with_token teletext self t }
    {
        let mut f = self;
        f.cells = capped_sum(self.cells, 1);
        match t {
            Token::Character(_) => {
                f.character = true;
                f
            }
            Token::Control(c) => {
                f.listed = teletext & self.listed;
                if c == DOUBLE_HEIGHT {
                    f.height = true;
                    f.ordered = !self.character & self.ordered;
                }
                f
            }
            Token::Switch(_) => {
                f.cells = self.cells;
                f.listed = !teletext & self.listed;
                f
            }
            Token::RowEnd => f,
            Token::Unlisted => {
                f.listed = false;
                f
            }
        }
    }

    // A run of n characters.
    #[tactic(auto, unfolding(crate::specs::Scanning::with_characters))]
    fn with_characters(self, n: usize) -> RowFacts
        ensures { result ≡ with_characters self n }
    {
        let mut f = self;
        f.cells = capped_sum(self.cells, n);
        f.character = self.character | (0 < n);
        f
    }

    fn row(self, after: Option<usize>) -> Row
        ensures { result ≡ with_end self after }
    {
        Row {
            short: self.cells <= ROW_LIMIT,
            after,
        }
    }
}

impl TextFacts {
    const NONE: TextFacts = TextFacts {
        listed: true,
        height: false,
        ordered: true,
        short: true,
        rows: 0,
    };

    #[tactic(auto, unfolding(crate::specs::Scanning::with_row))]
    fn with_row(self, f: RowFacts) -> TextFacts
        ensures { result ≡ with_row self f }
    {
        TextFacts {
            listed: f.listed & self.listed,
            height: f.height | self.height,
            ordered: f.ordered & self.ordered,
            short: (f.cells <= ROW_LIMIT) & self.short,
            // A capped sum fits a u32.
            rows: capped_sum(self.rows as usize, 1) as u32,
        }
    }
}

// With each token the run of plain codes after it is taken at once.
fn scan_row(text: &[u8], start: usize, teletext: bool) -> RowScan
    ensures { Scanned teletext text.now start result }
{
    let mut facts = RowFacts::NONE;
    for (read, end) in Runs::new(text, start) {
        let t = read.token;
        let after = read.next;
        if is_row_end(t) {
            return RowScan {
                facts,
                after: Some(after),
            };
        }
        facts = facts.with_token(t, teletext).with_characters(end - after);
    }
    RowScan { facts, after: None }
}

// The row from a position on, for the search in a text that breaks a rule. It does not call `scan_row`: by that a file refused by rule 15
// in its longest set took a third more instructions, and the bar is a tenth (DECISIONS.md).
pub fn row_at(text: &[u8], start: usize) -> Row
    ensures { result ≡ row_at text.now start }
{
    let mut facts = RowFacts::NONE;
    for (_, read) in Readings::new(text, start) {
        let t = read.token;
        if is_row_end(t) {
            return facts.row(Some(read.next));
        }
        // Whether it is listed is not read.
        facts = facts.with_token(t, true);
    }
    facts.row(None)
}

// The position after a break, given the position after its first row end: behind a second one where they are paired, if there is one.
// Here and below `paired` goes beside the text, as in the definitions `break_end`, `next_row_at`, `row_places`: the promise is for either.
#[tactic(auto, using(crate::proofs::RowEnds::break_alone, crate::proofs::RowEnds::break_second, crate::proofs::RowEnds::break_odd))]
fn break_end(text: &[u8], paired: bool, next: usize) -> Option<usize>
    ensures { result ≡ break_end text.now paired next }
{
    if !paired {
        return Some(next);
    }
    let read = charset::reading_at(text, next);
    is_row_end(read.token).then_some(read.next)
}

// Where the row after a row end starts, given the position after that row end.
#[tactic(auto, using(crate::proofs::RowEnds::break_start))]
pub fn row_after(text: &[u8], paired: bool, next: usize) -> usize
    ensures { result ≡ next_row_at text.now paired next }
{
    break_end(text, paired, next).unwrap_or(next)
}

// The rows of a text from its first on, each with the position where it starts, where row ends are paired or not.
#[derive(Drop)]
pub struct RowPlaces<'a> {
    text: &'a [u8],
    paired: bool,
    at: Option<usize>,
}

impl<'a> RowPlaces<'a> {
    ghost use Rattle.rows.specs.Places.{row_places};
    ghost use Rattle.rows.specs.PlacesLeft.{places_left};

    pub fn new(text: &'a [u8], paired: bool) -> RowPlaces<'a>
        ensures { places_left result ≡ row_places text.now paired (Some 0) }
    {
        RowPlaces {
            text,
            paired,
            at: Some(0),
        }
    }
}

impl<'a> Iterator for RowPlaces<'a> {
    ghost use Rattle.rows.specs.PlacesLeft.{places_left};

    type Item = (usize, Row);

    ghost next_gives = { YieldsFirst places_left };

    ghost remaining = { item_count places_left };

    fn next(&mut self) -> Option<(usize, Row)> {
        let at = self.at?;
        let row = row_at(self.text, at);
        self.at = row
            .after
            .map(|next| row_after(self.text, self.paired, next));
        Some((at, row))
    }
}

// Whether a set's text is double height: whether 0Dh stands in its first row.
pub fn is_double(text: &[u8]) -> bool
    ensures { result ≡ is_double (tokens text.now) }
{
    for (read, _) in Runs::new(text, 0) {
        let t = read.token;
        if is_row_end(t) {
            return false;
        }
        if is_double_height(t) {
            return true;
        }
    }
    false
}

// The scan of a whole text: the facts of all its rows, and whether every run of row ends is even, where they are paired.
#[derive(Clone, Copy)]
struct TextScan {
    facts: TextFacts,
    even: bool,
}

// The rows after the first, where row ends are paired or not. A `while let`: where a row starts is told by the row before it, and
// `RowPlaces` gives no facts of a row.
fn scan_after(text: &[u8], teletext: bool, paired: bool, first: RowScan) -> TextScan
    requires { Scanned teletext text.now 0 first }
    ensures { TextScanned teletext text.now paired result }
{
    let mut row = first;
    let mut facts = TextFacts::NONE.with_row(row.facts);
    let mut even = true;
    while let Some(next) = row.after {
        let end = break_end(text, paired, next);
        even = even & end.is_some();
        row = scan_row(text, end.unwrap_or(next), teletext);
        facts = facts.with_row(row.facts);
    }
    TextScan { facts, even }
}

// The first of the rules that does not hold.
#[tactic(auto, unfolding(crate::specs::Scanning::first_failed))]
fn first_failed(listed: bool, heights: bool, fits: bool) -> Result<(), TextRule>
    ensures { result ≡ first_failed listed heights fits }
{
    listed.then_some(()).ok_or(TextRule::Codes)?;
    heights.then_some(()).ok_or(TextRule::Heights)?;
    fits.then_some(()).ok_or(TextRule::Fit)
}

impl<'a> SetText<'a> {
    // The line after the last that the rows cover.
    #[tactic(auto, using(crate::proofs::Laws::lines_le))]
    pub fn end(self, rows: Rows, double: bool) -> u64
        ensures { result ≡ self.entry.vp + (lines_of double rows).0 }
    {
        let lines = rows.lines(double);
        u64::from(self.vp) + lines.0
    }

    #[tactic(auto, unfolding(crate::specs::Scanning::rule_of))]
    fn rule_of(self, t: TextFacts, double: bool, even: bool) -> Result<(), TextRule>
        ensures { result ≡ rule_of t double even self.entry.f self.entry.vp }
    {
        let screen = self.f.screen;
        let end = self.end(Rows(t.rows), double);
        let heights = t.ordered & (double | !t.height) & even;
        first_failed(t.listed, heights, t.short & (end <= u64::from(screen.end)))
    }

    // Whether the text keeps the rules 13, 14 and 15, or the first that it breaks.
    #[tactic(auto, using(crate::proofs::Facts::rule_scanned))]
    pub fn verdict(self) -> Result<(), TextRule>
        ensures { number_of result ≡ (text_rule self.entry.f 0 self.entry.vp self.entry.bytes.now).number }
    {
        let first = scan_row(self.bytes, 0, self.f.teletext);
        let double = first.facts.height;
        let paired = self.f.is_paired(double);
        let scan = scan_after(self.bytes, self.f.teletext, paired, first);
        self.rule_of(scan.facts, double, scan.even)
    }
}
