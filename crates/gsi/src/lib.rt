// The GSI block: the frames of a second, the screen, the blocks present, and the rules 1 to 6 over a whole file.

#![tactic(auto)]

ghost use Rattle.std.specs.Prelude.{◌≡◌, ◌&&◌, ◌||◌, ◌^◌, ◌≤◌, ◌<◌, eqb, leb, length, get_or, IfSome, is_some, unwrap_or};
ghost use Rattle.meaning.specs.Lists.{all, field, same, bytes};
ghost use Rattle.meaning.specs.Refusals.{first_broken, verdict};
ghost use Rattle.meaning.specs.Gsi.{rate_of, is_rate, block_count, is_digit, cct_at, tnb_field, tnb, mnr, dsc, is_teletext, screen_of, format_of, is_whole, gsi_rules, file_rule};
ghost use Rattle.gsi.specs.Decimals.{decimal};

use block::field;
use meaning::{BLOCK_SIZE, Format, GSI_SIZE, Refusal, Screen};

// Where the fields start.
const DFC_AT: usize = 3;

const DSC_AT: usize = 11;

const CCT_AT: usize = 12;

const TNB_AT: usize = 238;

const MNR_AT: usize = 253;

// The frames of a second, where DFC is one of the two that there are.
#[tactic(auto, using(crate::proofs::Comparing::bytes_eq_same), unfolding(meaning::specs::Gsi::rate_of, meaning::specs::Gsi::is_rate, meaning::specs::Lists::bytes))]
fn rate(file: &[u8]) -> Option<u8>
    ensures known { is_some result ≡ is_rate (rate_of file.now) }
    ensures value { unwrap_or result 0 ≡ rate_of file.now }
{
    let dfc = field(file, DFC_AT, 8);
    if dfc == b"STL25.01".as_slice() {
        return Some(25);
    }
    if dfc == b"STL30.01".as_slice() {
        return Some(30);
    }
    None
}

#[tactic(auto, unfolding(meaning::specs::Gsi::block_count))]
pub fn block_count(file: &[u8]) -> usize
    ensures { result ≡ block_count file.now }
{
    file.len().saturating_sub(GSI_SIZE) / BLOCK_SIZE
}

fn is_whole(size: usize) -> bool
    ensures { result ≡ is_whole size }
{
    GSI_SIZE <= size && (size - GSI_SIZE) % BLOCK_SIZE == 0
}

// The number that decimal digits write; none where a byte is no digit. By hand: `str::parse` takes a sign too.
#[tactic(auto, using(crate::proofs::Digits::reading_more, crate::proofs::Digits::reading_wrong, crate::proofs::Digits::reading_done), unfolding(meaning::specs::Gsi::is_digit))]
fn read_decimal(digits: &[u8]) -> Option<usize>
    requires { length digits.now ≤ 5 }
    ensures number { result ≡ decimal digits.now }
    ensures small { IfSome result (λ n. n < 10 ^ length digits.now) }
{
    let mut value = 0;
    for &c in digits {
        if !c.is_ascii_digit() {
            return None;
        }
        value = 10 * value + usize::from(c - b'0');
    }
    Some(value)
}

// TNB is five digits and gives the number of blocks.
#[tactic(auto, using(block::proofs::Fields::field_length), unfolding(meaning::specs::Gsi::tnb, meaning::specs::Gsi::number_in, crate::specs::Decimals::decimal))]
fn counts_blocks(gsi: &[u8], count: usize) -> bool
    ensures { result ≡ (all is_digit (tnb_field gsi.now) && eqb (tnb gsi.now) count) }
{
    read_decimal(field(gsi, TNB_AT, 5)) == Some(count)
}

// MNR; none where one of its bytes is no digit.
#[tactic(auto, using(block::proofs::Fields::field_length, crate::proofs::Digits::decimal_or_0), unfolding(meaning::specs::Gsi::mnr))]
fn mnr(file: &[u8]) -> Option<usize>
    ensures number { unwrap_or result 0 ≡ mnr file.now }
    ensures small { IfSome result (λ n. n < 100) }
{
    read_decimal(field(file, MNR_AT, 2))
}

// DSC; none in a file that ends before it.
fn dsc(file: &[u8]) -> Option<u8>
    ensures { unwrap_or result 0 ≡ dsc file.now }
{
    file.get(DSC_AT).copied()
}

// DSC is that of a teletext file.
#[tactic(auto, unfolding(meaning::specs::Gsi::is_teletext))]
fn is_teletext(file: &[u8]) -> bool
    ensures { result ≡ is_teletext file.now }
{
    matches!(dsc(file), Some(b'1' | b'2'))
}

// DSC is that of a teletext file or of open subtitles.
#[tactic(auto, unfolding(meaning::specs::Gsi::is_teletext))]
fn is_known_kind(gsi: &[u8]) -> bool
    ensures { result ≡ (is_teletext gsi.now || eqb (dsc gsi.now) 48) }
{
    is_teletext(gsi) || dsc(gsi) == Some(b'0')
}

// A screen of open subtitles has at least one row.
fn has_rows(gsi: &[u8]) -> bool
    ensures { result ≡ (is_teletext gsi.now || leb 1 (mnr gsi.now)) }
{
    is_teletext(gsi) || mnr(gsi).is_some_and(|rows| 1 <= rows)
}

#[tactic(auto, using(crate::proofs::Comparing::bytes_eq_same), unfolding(meaning::specs::Lists::bytes))]
fn is_latin(gsi: &[u8]) -> bool
    ensures { result ≡ same (field cct_at 2 gsi.now) (bytes "00") }
{
    field(gsi, CCT_AT, 2) == b"00".as_slice()
}

// The break modes are 1 and 2.
fn is_mode(mode: u64) -> bool
    ensures { result ≡ (eqb mode 1 || eqb mode 2) }
{
    matches!(mode, 1 | 2)
}

// The lines 1 to 23 of a teletext page, or the rows that MNR gives, from 0 on. Where it gives none there are 0 rows, as
// `Gsi.screen_of` has it: rule 6 refuses such a file.
#[tactic(auto, unfolding(meaning::specs::Gsi::screen_of))]
fn screen_of(file: &[u8]) -> Screen
    ensures { result ≡ screen_of file.now }
{
    if is_teletext(file) {
        return Screen { first: 1, end: 24 };
    }
    let end = mnr(file).unwrap_or(0) as u8;
    Screen { first: 0, end }
}

// How a file is read in a break mode. Where DFC is neither of the two the rate is 0, as `Gsi.format_of` has it: rule 3 refuses
// such a file.
#[tactic(auto, unfolding(meaning::specs::Gsi::format_of))]
pub fn format(file: &[u8], mode: u64) -> Format
    ensures { result ≡ format_of mode file.now }
{
    Format {
        mode,
        rate: rate(file).unwrap_or(0),
        screen: screen_of(file),
        teletext: is_teletext(file),
    }
}

// The first of the rules 1 to 6 that is broken, by the GSI block, the break mode, the file's end, whether it has whole blocks,
// and how many: what the definition `gsi_rules` takes.
#[tactic(auto, using(crate::proofs::Rules::gsi_verdict))]
pub fn gsi_rule(gsi: &[u8], mode: u64, end: u64, whole: bool, count: usize) -> Result<(), Refusal>
    ensures { result ≡ verdict (first_broken 0 (gsi_rules mode end whole count gsi.now)) }
{
    Refusal::unless(is_mode(mode), 1, 0, end)?;
    Refusal::unless(whole, 2, 0, end)?;
    Refusal::unless(rate(gsi).is_some(), 3, 0, DFC_AT as u64)?;
    Refusal::unless(is_known_kind(gsi), 4, 0, DSC_AT as u64)?;
    Refusal::unless(is_latin(gsi), 5, 0, CCT_AT as u64)?;
    Refusal::unless(counts_blocks(gsi, count), 6, 0, TNB_AT as u64)?;
    Refusal::unless(has_rows(gsi), 6, 0, MNR_AT as u64)
}

// The first of them that a break mode and a file break.
#[tactic(auto, unfolding(meaning::specs::Gsi::file_rule, meaning::specs::Gsi::file_rules))]
pub fn file_rule(file: &[u8], mode: u64) -> Result<(), Refusal>
    ensures { result ≡ verdict (file_rule mode file.now) }
{
    let size = file.len();
    gsi_rule(file, mode, size as u64, is_whole(size), block_count(file))
}
