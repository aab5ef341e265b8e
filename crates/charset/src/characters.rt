// The code points of single codes, and the characters of accents with the code after them.
ghost use Rattle.std.specs.Prelude.{◌≡◌, ◌≤◌, ◌<◌, suc, IfSome};
ghost use Rattle.meaning.specs.Glyphs.{single};
ghost use Rattle.meaning.specs.Characters.{latin, accent, letter, composed, base, accented};
ghost use Rattle.charset.specs.Points.{point_of, index_of, glyph_of};

use crate::{composed_table, latin_table};
use meaning::Glyph;

// The mark of each accent, by its number from 0.
const MARKS: [u16; 13] = [
    768, 769, 770, 771, 772, 774, 775, 776, 778, 807, 779, 808, 780,
];

// The code point of a table's entry; the document's tables have 0 for none.
fn point_of(entry: u16) -> Option<u16>
    ensures { result ≡ point_of entry }
{
    (entry != 0).then_some(entry)
}

// The character of a code from A0h on; the lower codes need no table.
pub(crate) fn upper(c: u8) -> Option<Glyph>
    requires { 160 ≤ c }
    ensures { result ≡ glyph_of (single (latin c)) }
{
    point_of(latin_table::UPPER[(c - 160) as usize]).map(Glyph::single)
}

// The number of an accent, 0 to 12, which skips C9h and CCh. No enum: it is the row of the document's tables, as the number of a letter
// is the column (the definitions `accented`, `composed`, `letter`), and below 13 for the two that read one; no ghost
// field, since `pair` alone indexes by it.
#[tactic(auto, using(crate::proofs::Points::accent_first, crate::proofs::Points::accent_second, crate::proofs::Points::accent_third, crate::proofs::Points::accent_none))]
pub(crate) fn accent(c: u8) -> Option<usize>
    ensures number { result ≡ index_of (accent c) }
    ensures small { IfSome result (λ a. a < 13) }
{
    match c {
        193..=200 => Some((c - 193) as usize),
        202..=203 => Some((c - 194) as usize),
        205..=207 => Some((c - 195) as usize),
        _ => None,
    }
}

// The number of a letter, 0 to 51 for A to Z and a to z.
#[tactic(auto, using(crate::proofs::Points::letter_upper, crate::proofs::Points::letter_lower, crate::proofs::Points::letter_none))]
fn letter(c: u8) -> Option<usize>
    ensures number { result ≡ index_of (letter c) }
    ensures small { IfSome result (λ l. l < 52) }
{
    match c {
        b'A'..=b'Z' => Some((c - b'A') as usize),
        b'a'..=b'z' => Some((c - b'a') as usize + 26),
        _ => None,
    }
}

// The single code point of an accent, by its number, and a letter.
#[tactic(auto, unfolding(crate::specs::Points::point_of, meaning::specs::Characters::composed), using(crate::proofs::Points::index_zero, crate::proofs::Points::index_is))]
fn composed(a: usize, c: u8) -> Option<u16>
    ensures { result ≡ point_of (composed (suc a) (letter c)) }
{
    let l = letter(c)?;
    point_of(composed_table::entry(a, l))
}

// What a mark stands on where there is no composed letter: the letter, U+00A0 for 20h.
#[tactic(auto, using(crate::proofs::Points::index_zero, crate::proofs::Points::index_is, crate::proofs::Points::base_space, crate::proofs::Points::base_letter, crate::proofs::Points::base_none))]
fn base(c: u8) -> Option<u16>
    ensures { result ≡ point_of (base c) }
{
    if c == 32 {
        return Some(160);
    }
    letter(c)?;
    Some(u16::from(c))
}

// The character of an accent, by its number, with the code after it.
#[tactic(auto, using(crate::proofs::Points::pair_composed, crate::proofs::Points::pair_none, crate::proofs::Points::none_else))]
pub(crate) fn pair(a: usize, c: u8) -> Option<Glyph>
    requires { a < 13 }
    ensures { result ≡ glyph_of (accented (suc a) c) }
{
    if let Some(point) = composed(a, c) {
        return Some(Glyph::single(point));
    }
    let point = base(c)?;
    let mark = Some(MARKS[a]);
    Some(Glyph { point, mark })
}
