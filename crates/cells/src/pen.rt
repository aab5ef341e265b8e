// What a token draws under a pen, and the pen after it.

ghost use Rattle.std.specs.Prelude.{◌≡◌, ◌<◌};
ghost use Rattle.meaning.specs.Looks.{look_count, unpack};
ghost use Rattle.meaning.specs.Cells.{cell_of, control_here, control_next, switched, pen_after};
ghost use Rattle.cells.specs.Fronts.{boxed_start};

use crate::{PackedCell, SPACE};
use meaning::{Look, Token};

pub(crate) const BOX_END: u8 = 10;

pub(crate) const BOX_START: u8 = 11;

// 1Ch and 1Dh hold at their own cell.
#[tactic(auto, unfolding(meaning::specs::Cells::control_here))]
fn control_here(c: u8, look: Look) -> Look
    ensures { result ≡ control_here c look }
{
    match c {
        28 => Look {
            background: Look::BLACK,
            ..look
        },
        29 => Look {
            background: look.colour,
            ..look
        },
        _ => look,
    }
}

// A colour holds from the next cell on.
#[tactic(auto, unfolding(meaning::specs::Cells::control_next, meaning::specs::Cells::control_here))]
fn control_next(c: u8, look: Look) -> Look
    ensures { result ≡ control_next c (control_here c look) }
{
    if c < 8 {
        return Look { colour: c, ..look };
    }
    control_here(c, look)
}

// Italics and underline hold from the next cell on.
#[tactic(auto, unfolding(meaning::specs::Cells::switched))]
fn switched(c: u8, look: Look) -> Look
    ensures { result ≡ switched c look }
{
    Look {
        italics: (c == 128) | (look.italics & (c != 129)),
        underline: (c == 130) | (look.underline & (c != 131)),
        ..look
    }
}

// The look of the next cell, packed, and whether cells are hidden.
#[derive(Clone, Copy)]
pub(crate) struct PackedPen {
    pub look: u16,
    pub hidden: bool,
    ghost packed: { look < look_count },
}

impl PackedPen {
    ghost use Rattle.cells.specs.Packed.{packed_cell, pen_of};

    // At the start of a row that is read as if a box were open there, from the look before it.
    #[tactic(auto, using(crate::proofs::Pens::unpack_start, crate::proofs::Pens::start_small))]
    pub(crate) fn at_row_start(before: u16) -> PackedPen
        ensures { pen_of result ≡ boxed_start (unpack before) }
    {
        let look = Look {
            background: Look::BLACK,
            colour: Look::WHITE,
            ..Look::unpack(before)
        };
        PackedPen {
            look: look.pack(),
            hidden: false,
        }
    }

    // The pen after a token.
    #[tactic(auto, unfolding(meaning::specs::Cells::pen_after, meaning::specs::Cells::look_next, meaning::specs::Cells::hidden_next, meaning::specs::Codes::is_control_of, meaning::specs::Cells::control_here, meaning::specs::Cells::control_next), using(crate::proofs::Pens::unpack_next, crate::proofs::Pens::next_small))]
    pub(crate) fn after(self, token: Token) -> PackedPen
        ensures { pen_of result ≡ pen_after token (pen_of self) }
    {
        match token {
            Token::Control(BOX_START) => PackedPen {
                look: self.look,
                hidden: false,
            },
            Token::Control(BOX_END) => PackedPen {
                look: self.look,
                hidden: true,
            },
            Token::Control(c) => PackedPen {
                look: control_next(c, Look::unpack(self.look)).pack(),
                hidden: self.hidden,
            },
            Token::Switch(c) => PackedPen {
                look: switched(c, Look::unpack(self.look)).pack(),
                hidden: self.hidden,
            },
            _ => self,
        }
    }

    // The cell that a token draws.
    #[tactic(auto, unfolding(meaning::specs::Cells::cell_of, meaning::specs::Cells::hidden_if, meaning::specs::Cells::cell_character, meaning::specs::Cells::look_here), using(meaning::proofs::LookLaws::packed_again, crate::proofs::Pens::same_height))]
    pub(crate) fn cell(self, token: Token) -> PackedCell
        ensures { result ≡ packed_cell (cell_of token (pen_of self)) }
    {
        if self.hidden {
            return PackedCell::hidden(self.look);
        }
        match token {
            Token::Character(character) => PackedCell {
                character,
                look: self.look,
            },
            Token::Control(c) => PackedCell {
                character: SPACE,
                look: control_here(c, Look::unpack(self.look)).pack(),
            },
            _ => PackedCell {
                character: SPACE,
                look: self.look,
            },
        }
    }
}
