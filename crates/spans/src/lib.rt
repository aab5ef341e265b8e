// What is shown of a row's cells, and its spans.

#![tactic(auto)]

ghost use Rattle.std.specs.Prelude.{◌≡◌, length, take, drop};
ghost use Rattle.std.specs.List.{prefix_len};
ghost use Rattle.meaning.specs.Cells.{is_blank, is_blank_on_black, shown};
ghost use Rattle.meaning.specs.Looks.{unpack};
ghost use Rattle.meaning.specs.Spans.{fits, look_of};
ghost use Rattle.cells.specs.Packed.{cell_of, cells_in};

use cells::PackedCell;
use meaning::Look;

// An underlined space is no blank.
#[tactic(auto, unfolding(meaning::specs::Cells::is_blank, meaning::specs::Glyphs::is_space))]
fn is_blank(cell: PackedCell) -> bool
    ensures { result ≡ is_blank (cell_of cell) }
{
    (cell.character == PackedCell::BLANK.character) & !Look::unpack(cell.look).underline
}

#[tactic(auto, unfolding(meaning::specs::Cells::is_blank_on_black))]
fn is_blank_on_black(cell: PackedCell) -> bool
    ensures { result ≡ is_blank_on_black (cell_of cell) }
{
    is_blank(cell) & Look::unpack(cell.look).on_black()
}

// The cells without the blanks on black at their start and end.
pub fn shown(cells: &[PackedCell]) -> &[PackedCell]
    ensures shown { cells_in result.now ≡ shown (cells_in cells.now) }
    ensures place { result.now ≡ take (length (shown (cells_in cells.now))) (drop (prefix_len is_blank_on_black (cells_in cells.now)) cells.now) }
{
    let front = cells
        .iter()
        .take_while(|cell| is_blank_on_black(**cell))
        .count();
    let cells = &cells[front..];
    let back = cells
        .iter()
        .rev()
        .take_while(|cell| is_blank_on_black(**cell))
        .count();
    &cells[..cells.len() - back]
}

// The look of some cells as a span: that of the first, in the foreground of the first that is no blank. Blanks only count as
// white and upright.
fn look_of(cells: &[PackedCell]) -> Look
    ensures { result ≡ look_of (cells_in cells.now) }
{
    let Some(first) = cells.first() else {
        return Look::WHITE_ON_BLACK;
    };
    let foreground = cells
        .iter()
        .find(|cell| !is_blank(**cell))
        .map_or(Look::WHITE_ON_BLACK, |cell| Look::unpack(cell.look));
    Look::unpack(first.look).blend(foreground)
}

// Whether a cell can stand in a span of a packed look: one of that look, as most are; a blank, whatever its foreground.
#[tactic(auto, unfolding(meaning::specs::Spans::fits))]
fn fits(look: u16, cell: PackedCell) -> bool
    ensures { result ≡ fits (unpack look) (cell_of cell) }
{
    if cell.look == look {
        return true;
    }
    let own = Look::unpack(cell.look);
    let look = Look::unpack(look);
    own.shares(look) && (is_blank(cell) || own.agrees(look))
}

// The cells of a span, and its packed look.
#[derive(Clone, Copy)]
pub struct Span<'a> {
    pub cells: &'a [PackedCell],
    pub look: u16,
}

// The spans of cells, from the left, each as long as it can be.
#[derive(Clone, Copy)]
pub struct Spans<'a> {
    cells: &'a [PackedCell],
}

impl<'a> Spans<'a> {
    ghost use Rattle.spans.specs.Spans.{spans_left, spans_in, cells_left};

    pub fn new(cells: &'a [PackedCell]) -> Spans<'a>
        ensures spans { spans_left result ≡ spans_in cells.now }
        ensures place { cells_left result ≡ cells.now }
    {
        Spans { cells }
    }
}

impl<'a> Iterator for Spans<'a> {
    ghost use Rattle.std.specs.Iterator.{item_count};
    ghost use Rattle.spans.specs.Spans.{spans_left, GivesSpan};

    type Item = Span<'a>;

    ghost next_gives = { GivesSpan };

    ghost remaining = { item_count spans_left };

    fn next(&mut self) -> Option<Span<'a>> {
        if self.cells.is_empty() {
            return None;
        }
        let look = look_of(self.cells).pack();
        let length = self
            .cells
            .iter()
            .take_while(|cell| fits(look, **cell))
            .count();
        let (cells, rest) = self.cells.split_at(length);
        self.cells = rest;
        // The foreground may be that of a cell after the span.
        let look = look_of(cells).pack();
        Some(Span { cells, look })
    }
}
