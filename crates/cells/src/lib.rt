// One row of a text, decoded into a lent array. Looks are kept packed: then a run of codes and most tokens hand the pen on as
// it is.

#![tactic(auto)]

ghost use Rattle.std.specs.Prelude.{◌≡◌};
ghost use Rattle.meaning.specs.Looks.{unpack};
ghost use Rattle.meaning.specs.Cells.{hidden_cell};
ghost use Rattle.cells.specs.Packed.{packed_cell};
ghost use Rattle.cells.specs.Decoded.{Decoded};

use meaning::{Glyph, Look};

mod drawing;
mod pen;

use drawing::Drawing;
use pen::PackedPen;

// A cell whose look is packed.
#[derive(Clone, Copy, PartialEq, Eq)]
pub struct PackedCell {
    pub character: Glyph,
    pub look: u16,
}

const SPACE: Glyph = Glyph {
    point: 32,
    mark: None,
};

impl PackedCell {
    // A blank of look 0, black on black.
    pub const BLANK: PackedCell = PackedCell {
        character: SPACE,
        look: 0,
    };

    // For arrays that nothing was stored in yet: a point of 0 and no mark, so that such an array is cleared at once. No `Default`: there is
    // no character that a `Glyph` is by default.
    pub const EMPTY: PackedCell = PackedCell {
        character: Glyph {
            point: 0,
            mark: None,
        },
        look: 0,
    };

    // A hidden cell: a blank, white on black in the height of a look.
    #[tactic(auto, using(crate::proofs::Pens::unpack_hidden))]
    fn hidden(look: u16) -> PackedCell
        ensures { result ≡ packed_cell (hidden_cell (unpack look).double) }
    {
        PackedCell {
            character: SPACE,
            look: Look::white_on_black(Look::unpack(look).double).pack(),
        }
    }
}

// A row that was read: how many cells it has, the position after the row end that follows it, if one does, and the look after
// the row, packed.
#[derive(Clone, Copy, PartialEq, Eq)]
pub struct RowRead {
    pub cells: usize,
    pub after: Option<usize>,
    pub look: u16,
}

// The cells of the row that starts at a position, from the look before it. Those that the array has no place for are
// counted all the same. A row is not searched for box codes first: its cells up to and with that of the first one are hidden
// at the end, in the height before the row, which no token changes.
pub fn decode_row(text: &[u8], start: usize, before: u16, cells: &mut [PackedCell]) -> RowRead
    ensures { Decoded text.now start before cells.old cells.new result }
{
    let mut row = Drawing {
        cells,
        count: 0,
        front: 0,
        pen: PackedPen::at_row_start(before),
    };
    let after = row.draw(text, start);
    row.hide_front(before);
    RowRead {
        cells: row.count,
        after,
        look: row.pen.look,
    }
}
