// A set's text laid as the content of a paragraph: spans, line breaks and filler lines.

#![tactic(auto)]

ghost use Rattle.std.specs.Prelude.{◌≡◌, replicate};
ghost use mathlib.Core.List.{map, flat_map};
ghost use Rattle.meaning.specs.Glyphs.{spelling};
ghost use Rattle.meaning.specs.Cells.{points};
ghost use Rattle.meaning.specs.Document.{escaped, write_piece};
ghost use Rattle.meaning.specs.Document.Piece.{span, br};
ghost use Rattle.meaning.specs.Conversion.{row_spans, fillers};
ghost use Rattle.cells.specs.Packed.{cells_in};
ghost use Rattle.output.specs.Output.{Put};
ghost use Rattle.text.specs.Laid.{PiecesLaid, RowPut, RowDone, RowsDone, piece_of, content_of};

use cells::{PackedCell, RowRead};
use meaning::{Glyph, Lines, Look, ROW_LIMIT, Rows};
use output::Writer;
use rows::SetText;
use spans::{Span, Spans};

// Where the next byte of a body goes, and the spans so far: what is kept of a body between calls.
#[derive(Clone, Copy, Default)]
pub struct Tally {
    pub at: usize,
    pub spans: usize,
}

// A body that is laid: the writer of its bytes, the marks of the looks in use, and the spans so far. It is made as a literal:
// a proof then knows what the writer and the marks hold after it.
#[derive(Drop)]
pub struct BodyWriter<'w, 'a> {
    pub writer: &'w mut Writer<'a>,
    pub marks: &'w mut [bool],
    pub spans: usize,
}

impl<'w, 'a> BodyWriter<'w, 'a> {
    pub fn tally(&self) -> Tally
        ensures { result ≡ record { at = self.now.writer.now.at; spans = self.now.spans } }
    {
        Tally {
            at: self.writer.at,
            spans: self.spans,
        }
    }
}

fn put_character(w: &mut Writer, character: Glyph)
    ensures { Put w.old (flat_map escaped (spelling character)) w.new }
{
    xml::put_escaped(w, character.point);
    if let Some(mark) = character.mark {
        xml::put_escaped(w, mark);
    }
}

fn put_characters(w: &mut Writer, cells: &[PackedCell])
    ensures { Put w.old (flat_map escaped (flat_map points (cells_in cells.now))) w.new }
{
    // Read here and in the two loops below, since the range of a field behind a reference is not known where nothing reads it.
    prove!(w.at <= usize::MAX);
    for cell in cells {
        put_character(w, cell.character);
    }
}

fn put_span(w: &mut Writer, s: Span)
    ensures { Put w.old (write_piece (piece_of s.entry)) w.new }
{
    w.put(b"<tt:span style=\"");
    styles::put_style_name(w, s.look);
    w.put(b"\">");
    put_characters(w, s.cells);
    w.put(b"</tt:span>");
}

#[tactic(auto, unfolding(meaning::specs::Document::write_piece, meaning::specs::Lists::bytes))]
fn put_break(w: &mut Writer)
    ensures { Put w.old (write_piece br) w.new }
{
    w.put(b"<tt:br/>");
}

// The filler lines between what a subtitle's rows cover and the end of the screen.
#[tactic(auto, unfolding(meaning::specs::Conversion::fillers))]
fn filler_lines(end: u8, vp: u8, covered: Lines) -> Lines
    ensures { result ≡ fillers end vp covered }
{
    let left = u64::from(end.saturating_sub(vp));
    Lines(left.saturating_sub(covered.0))
}

fn put_breaks(w: &mut Writer, n: u64)
    ensures { Put w.old (flat_map write_piece (replicate n br)) w.new }
{
    prove!(w.at <= usize::MAX);
    for _ in 0..n {
        put_break(w);
    }
}

// The spans of what is shown of a row, and their number. Spans are counted, and their looks marked, here and nowhere else.
// It takes the writer and the marks, and not the body: what a buffer two references deep holds is not known in a loop.
fn put_row(w: &mut Writer, marks: &mut [bool], cells: &[PackedCell]) -> usize
    ensures { RowPut w.old marks.old (map span (row_spans (cells_in cells.now))) w.new marks.new result }
{
    prove!(w.at <= usize::MAX);
    // Not by `enumerate` or `count`: the count stops at the largest number, as `Laid` has it.
    let mut count = 0;
    for s in Spans::new(spans::shown(cells)) {
        put_span(w, s);
        styles::mark(marks, s.look);
        count = output::after(count, 1);
    }
    count
}

// The count of a row's cells goes on past the array (`Decoded`), so the row is not handed back as a slice.
fn lay_row(body: &mut BodyWriter, text: &[u8], start: usize, before: u16) -> RowRead
    ensures { RowDone text.now start before body.old body.new result }
{
    let mut cells = [PackedCell::EMPTY; ROW_LIMIT];
    let row = cells::decode_row(text, start, before, &mut cells);
    let taken = &cells[..row.cells.min(ROW_LIMIT)];
    let count = put_row(body.writer, body.marks, taken);
    body.spans = output::after(body.spans, count);
    row
}

// All rows laid, with a line break between them; their number, up to a limit. A `while let`: where a row starts is told by the row
// before it, which is laid as it is read.
fn lay_rows(body: &mut BodyWriter, text: &[u8], before: u16, paired: bool) -> Rows
    ensures { RowsDone text.now before paired body.old body.new result }
{
    let mut row = lay_row(body, text, 0, before);
    let mut rows = 1;
    while let Some(after) = row.after {
        put_break(body.writer);
        let start = rows::row_after(text, paired, after);
        row = lay_row(body, text, start, row.look);
        rows = rows::capped_sum(rows, 1);
    }
    // A capped sum fits a u32.
    Rows(rows as u32)
}

// A set's text as the content of its paragraph: its rows with a line break between them, then one for each filler line.
// A row is cut at the limit of rule 15.
pub fn put_content(body: &mut BodyWriter, text: SetText)
    ensures { PiecesLaid body.old (content_of text.entry.f text.entry.vp text.entry.bytes.now) body.new }
{
    let screen = text.f.screen;
    let double = rows::is_double(text.bytes);
    let paired = text.f.is_paired(double);
    let look = Look::white_on_black(double);
    let rows = lay_rows(body, text.bytes, look.pack(), paired);
    let lines = rows.lines(double);
    let fillers = filler_lines(screen.end, text.vp, lines);
    put_breaks(body.writer, fillers.0);
}
