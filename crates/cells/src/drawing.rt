// A row that is drawn, token by token.

ghost use Rattle.std.specs.Prelude.{◌≡◌, ◌∷◌, [], ◌+◌, ◌<◌, ◌≤◌, ◌^◌, length, map};
ghost use Rattle.charset.specs.Plain.{plain_token};
ghost use Rattle.meaning.specs.Codes.{takes_cell};
ghost use Rattle.cells.specs.Fronts.{front_after};
ghost use Rattle.rows.specs.Scanned.{row_end_after};
ghost use Rattle.cells.specs.Decoded.{row_tokens};
ghost use Rattle.cells.specs.Drawing.{Puts, Draws, HidesFront};

use crate::PackedCell;
use crate::pen::{BOX_END, BOX_START, PackedPen};
use meaning::{Glyph, Token};

// The array, how many cells are drawn so far, how many of them are to be hidden in front, up to and with that of the first
// box code, and the pen after them. `front` is no Option, as in the definition `front_after`: without a box code 0 cells are hidden.
#[derive(Drop)]
pub(crate) struct Drawing<'a> {
    pub cells: &'a mut [PackedCell],
    pub count: usize,
    pub front: usize,
    pub pen: PackedPen,
}

#[tactic(auto, unfolding(meaning::specs::Codes::takes_cell))]
fn takes_cell(token: Token) -> bool
    ensures { result ≡ takes_cell token }
{
    !matches!(token, Token::Switch(_))
}

#[tactic(auto, unfolding(crate::specs::Fronts::front_after, meaning::specs::Codes::is_box_code, meaning::specs::Codes::is_control_of))]
fn front_after(token: Token, front: usize, count: usize) -> usize
    ensures { result ≡ front_after token front count }
{
    match token {
        Token::Control(BOX_START | BOX_END) if front == 0 => count,
        _ => front,
    }
}

impl Drawing<'_> {
    // One cell more, where the array has a place for it. It and two more ask that the count does not overflow: by `output::after` the
    // count would be `past` in `Draws` and in `front_from` too, and so in every law of a row in hindsight. `draw` knows it, since a
    // cell takes a byte.
    fn put(&mut self, cell: PackedCell)
        requires { self.old.count + 1 < 2 ^ 64 }
        ensures { Puts self.old (cell ∷ []) self.new }
    {
        // By the index, for a proof knows nothing of what is stored through `get_mut`.
        if self.count < self.cells.len() {
            self.cells[self.count] = cell;
        }
        self.count += 1;
    }

    // A token's cell, where it takes one, and the pen after it.
    fn put_token(&mut self, token: Token)
        requires { self.old.count + 1 < 2 ^ 64 }
        ensures { Draws self.old (token ∷ []) self.new }
    {
        if takes_cell(token) {
            self.put(self.pen.cell(token));
            // A box code takes a cell, so it is not asked for elsewhere: a text of switches took 6 % more instructions.
            self.front = front_after(token, self.front, self.count);
        }
        self.pen = self.pen.after(token);
    }

    // The cells of a run of plain codes, which leave the pen as it is.
    fn put_run(&mut self, codes: &[u8])
        requires { self.old.count + length codes.now < 2 ^ 64 }
        ensures { Draws self.old (map plain_token codes.now) self.new }
    {
        // By the index, for a proof knows nothing of what is stored through a `zip` with `iter_mut`.
        let start = self.count;
        let pen = self.pen;
        let places = output::fitting(self.cells.len(), start, codes.len());
        for (j, &c) in codes[..places].iter().enumerate() {
            let character = Glyph::single(u16::from(c));
            self.cells[start + j] = pen.cell(Token::Character(character));
        }
        self.count = start + codes.len();
    }

    // The row that starts at a position, and the position after its row end, if it has one. Most codes are plain, so the run of
    // them after a token is stored at once.
    pub(crate) fn draw(&mut self, text: &[u8], start: usize) -> Option<usize>
        requires { self.old.count ≤ start }
        ensures drawn { Draws self.old (row_tokens text.now start) self.new }
        ensures after { result ≡ row_end_after text.now start }
    {
        for (reading, end) in charset::Runs::new(text, start) {
            if rows::is_row_end(reading.token) {
                return Some(reading.next);
            }
            self.put_token(reading.token);
            let run = &text[reading.next..end];
            self.put_run(run);
        }
        None
    }

    // The cells in front are hidden, in the height of a look.
    pub(crate) fn hide_front(&mut self, look: u16)
        ensures { HidesFront self.old look self.new }
    {
        let places = self.cells.len().min(self.front);
        let hidden = PackedCell::hidden(look);
        // `0..places` and not `..places`: of the latter, over a field, a proof knows nothing.
        self.cells[0..places].fill(hidden);
    }
}
