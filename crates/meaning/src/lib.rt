// The types that the definitions in specs/ speak of, with the few functions that belong to a type.

#![tactic(auto)]

ghost use Rattle.std.specs.Prelude.{◌≡◌, eqb};
ghost use Rattle.meaning.specs.Refusals.{kept};
ghost use Rattle.meaning.specs.Blocks.{is_comment};
ghost use Rattle.meaning.specs.Sets.{is_user};
ghost use Rattle.meaning.specs.Glyphs.{single};
ghost use Rattle.meaning.specs.Looks.{white_on_black, pack, unpack, shared, free, blend, on_black};
ghost use Rattle.meaning.specs.Rows.{is_paired, lines_of};

// The bytes of the GSI block, of a TTI block's header and text, and of a TTI block.
pub const GSI_SIZE: usize = 1024;

pub const HEADER_SIZE: usize = 16;

pub const TEXT_SIZE: usize = 112;

pub const BLOCK_SIZE: usize = HEADER_SIZE + TEXT_SIZE;

// The most cells of a row.
pub const ROW_LIMIT: usize = 64;

// The rule that a file breaks, the block, and the offset: from the start of the file in the rules 1 to 6, of the block in 7 to 12,
// of the set's text in 13 to 15; 0 in 16. A set open at the end has the block count for its block, and offset 0 there: the file ends
// at that place. Number 0 at place 0: no rule is broken. A rule goes by its number, as document 01 counts them: the answer, the
// promise `Told` and callers in C get it.
#[derive(Clone, Copy, Default, PartialEq, Eq)]
pub struct Refusal {
    pub number: u64,
    pub place: u64,
    pub offset: u64,
}

impl Refusal {
    // No Option: the walk's definitions and `Reasons.reason` have number 0 where no rule is broken, and callers in C get it so.
    pub const NONE: Refusal = Refusal {
        number: 0,
        place: 0,
        offset: 0,
    };

    // One rule at a place: it holds, or it is broken there.
    #[tactic(auto, unfolding(crate::specs::Refusals::kept))]
    pub fn unless(holds: bool, number: u64, place: u64, offset: u64) -> Result<(), Refusal>
        ensures { result ≡ kept holds number place offset }
    {
        if holds {
            return Ok(());
        }
        Err(Refusal {
            number,
            place,
            offset,
        })
    }
}

// Why a file is refused: the rule, the block, the offset in the file, and the byte there, if there is one.
#[derive(Clone, Copy, PartialEq, Eq)]
pub struct Reason {
    pub number: u64,
    pub block: u64,
    pub offset: u64,
    pub byte: Option<u8>,
}

// The five numbers, for those who store or print a reason: 1 or 0 tells whether there is a byte, and the last is the byte or 0.
impl From<Reason> for [u64; 5] {
    ghost use Rattle.meaning.specs.Reasons.{reason_numbers};

    ghost from_gives = { λ r numbers. numbers ≡ reason_numbers r };

    #[tactic(auto, unfolding(crate::specs::Reasons::reason_numbers, crate::specs::Reasons::presence_of, crate::specs::Reasons::value_of))]
    fn from(r: Reason) -> [u64; 5] {
        let presence = u64::from(r.byte.is_some());
        let value = r.byte.map_or(0, u64::from);
        [r.number, r.block, r.offset, presence, value]
    }
}

// What comes back from a conversion, in document 01's order. Numbers, as callers in C get them: an accepted file has number 0.
#[derive(Clone, Copy, Default, PartialEq, Eq)]
pub struct Answer {
    pub number: u64,
    pub place: u64,
    pub length: u64,
    pub subtitles: u64,
    pub comments: u64,
    pub continuations: u64,
    pub users: u64,
    pub spans: u64,
}

// The eight numbers, for those who store or print an answer.
impl From<Answer> for [u64; 8] {
    ghost use Rattle.meaning.specs.Answers.{numbers_of};

    ghost from_gives = { λ a numbers. numbers ≡ numbers_of a };

    #[tactic(auto, unfolding(crate::specs::Answers::numbers_of))]
    fn from(a: Answer) -> [u64; 8] {
        [
            a.number,
            a.place,
            a.length,
            a.subtitles,
            a.comments,
            a.continuations,
            a.users,
            a.spans,
        ]
    }
}

// The blocks of a file by kind. Each set is counted once, at its first block.
#[derive(Clone, Copy, Default, PartialEq, Eq)]
pub struct Counts {
    pub subtitles: u64,
    pub comments: u64,
    pub continuations: u64,
    pub users: u64,
}

// A time code: hours, minutes, seconds, frames.
#[derive(Clone, Copy, Default, PartialEq, Eq)]
pub struct Time {
    pub hours: u8,
    pub minutes: u8,
    pub seconds: u8,
    pub frames: u8,
}

// The header fields of a TTI block, each as its bytes say: the rules judge them.
#[derive(Clone, Copy, Default, PartialEq, Eq)]
pub struct Header {
    pub sgn: u8,
    pub sn: u16,
    pub ebn: u8,
    pub cs: u8,
    pub tci: Time,
    pub tco: Time,
    pub vp: u8,
    pub jc: u8,
    pub cf: u8,
}

impl Header {
    // Where the fields start in a block.
    pub const SGN_AT: usize = 0;

    pub const SN_AT: usize = 1;

    pub const EBN_AT: usize = 3;

    pub const CS_AT: usize = 4;

    pub const TCI_AT: usize = 5;

    pub const TCO_AT: usize = 9;

    pub const VP_AT: usize = 13;

    pub const JC_AT: usize = 14;

    pub const CF_AT: usize = 15;

    #[tactic(auto, unfolding(crate::specs::Blocks::is_comment))]
    pub fn is_comment(self) -> bool
        ensures { result ≡ is_comment self }
    {
        self.cf == 1
    }

    // EBN FEh.
    #[tactic(auto, unfolding(crate::specs::Sets::is_user))]
    pub fn is_user(self) -> bool
        ensures { result ≡ is_user self }
    {
        self.ebn == 254
    }
}

// The lines that a subtitle may stand on: from `first` up to, not with, `end`.
#[derive(Clone, Copy, PartialEq, Eq)]
pub struct Screen {
    pub first: u8,
    pub end: u8,
}

// How a file is read: the break mode, the frames of a second, the screen, and whether it is for teletext or has open
// subtitles. The mode is a number, for `Gsi.format_of` takes any.
#[derive(Clone, Copy, PartialEq, Eq)]
pub struct Format {
    pub mode: u64,
    pub rate: u8,
    pub screen: Screen,
    pub teletext: bool,
}

impl Format {
    // Whether a pair of 8Ah ends a row of a subtitle.
    pub fn is_paired(self, double: bool) -> bool
        ensures { result ≡ is_paired self.mode double }
    {
        (self.mode == 2) & double
    }
}

// The character of a cell: a code point, and the combining mark on it, if there is one.
#[derive(Clone, Copy, PartialEq, Eq)]
pub struct Glyph {
    pub point: u16,
    pub mark: Option<u16>,
}

impl Glyph {
    // With no mark.
    #[tactic(auto, unfolding(crate::specs::Glyphs::single))]
    pub fn single(point: u16) -> Glyph
        ensures { result ≡ single point }
    {
        Glyph { point, mark: None }
    }
}

// What one code of a text, or an accent with the code after it, stands for. A control and a switch go by their code, as in
// `Codes.is_control_of` and `Cells.control_here`.
#[derive(Clone, Copy, PartialEq, Eq)]
pub enum Token {
    Character(Glyph),
    Control(u8),
    Switch(u8),
    RowEnd,
    Unlisted,
}

// How a cell is shown. A colour has three bits, from the lowest red, green, blue.
#[derive(Clone, Copy, PartialEq, Eq)]
pub struct Look {
    pub italics: bool,
    pub underline: bool,
    pub double: bool,
    pub background: u8,
    pub colour: u8,
}

impl Look {
    pub const BLACK: u8 = 0;

    pub const WHITE: u8 = 7;

    // A packed look is below it, if its colours have three bits.
    pub const COUNT: usize = 512;

    // In single height, upright, with no underline.
    pub const WHITE_ON_BLACK: Look = Look {
        italics: false,
        underline: false,
        double: false,
        background: Look::BLACK,
        colour: Look::WHITE,
    };

    // White on black in a subtitle's height.
    #[tactic(auto, unfolding(crate::specs::Looks::white_on_black))]
    pub fn white_on_black(double: bool) -> Look
        ensures { result ≡ white_on_black double }
    {
        Look {
            double,
            ..Look::WHITE_ON_BLACK
        }
    }

    // This and `unpack` have the names of the definitions. No `From`: `unpack` takes any number and loses its higher bits. A packed
    // look is a plain u16: the number names its style (`Document.style_name`), and `PackedCell.look` may be any.
    #[tactic(auto, unfolding(crate::specs::Looks::pack))]
    pub fn pack(self) -> u16
        ensures { result ≡ pack self }
    {
        let colours = 8 * u16::from(self.background) + u16::from(self.colour);
        256 * u16::from(self.italics)
            + 128 * u16::from(self.underline)
            + 64 * u16::from(self.double)
            + colours
    }

    // Underline, height and background of this look, italics and colour of the other.
    #[tactic(auto, unfolding(crate::specs::Looks::blend))]
    pub fn blend(self, source: Look) -> Look
        ensures { result ≡ blend self source }
    {
        Look {
            italics: source.italics,
            colour: source.colour,
            ..self
        }
    }

    // Whether two looks are equal in what the cells of a span share, as `shared` defines it: no derive compares parts.
    #[tactic(auto, using(crate::proofs::LookLaws::shares_by))]
    pub fn shares(self, other: Look) -> bool
        ensures { result ≡ eqb (shared self) (shared other) }
    {
        (self.underline == other.underline)
            & (self.double == other.double)
            & (self.background == other.background)
    }

    // Whether two looks are equal in what a blank leaves open, as `free` defines it.
    #[tactic(auto, using(crate::proofs::LookLaws::agrees_by))]
    pub fn agrees(self, other: Look) -> bool
        ensures { result ≡ eqb (free self) (free other) }
    {
        (self.italics == other.italics) & (self.colour == other.colour)
    }

    #[tactic(auto, unfolding(crate::specs::Looks::on_black))]
    pub fn on_black(self) -> bool
        ensures { result ≡ on_black self }
    {
        self.background == Look::BLACK
    }

    #[tactic(auto, unfolding(crate::specs::Looks::unpack))]
    pub fn unpack(n: u16) -> Look
        ensures { result ≡ unpack n }
    {
        Look {
            italics: n / 256 % 2 == 1,
            underline: n / 128 % 2 == 1,
            double: n / 64 % 2 == 1,
            background: (n / 8 % 8) as u8,
            colour: (n % 8) as u8,
        }
    }
}

// Rows of a subtitle and lines of the screen are separate counts, never added.
#[derive(Clone, Copy, PartialEq, Eq)]
pub struct Rows(pub u32);

#[derive(Clone, Copy, PartialEq, Eq)]
pub struct Lines(pub u64);

impl Rows {
    // The lines that the rows cover: a double row covers two.
    #[tactic(auto, unfolding(crate::specs::Rows::lines_of))]
    pub fn lines(self, double: bool) -> Lines
        ensures { result ≡ lines_of double self }
    {
        let n = u64::from(self.0);
        if double { Lines(2 * n) } else { Lines(n) }
    }
}
