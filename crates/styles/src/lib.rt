// The looks in use, and the line of each in a document's styling.

#![tactic(auto)]

ghost use Rattle.std.specs.Prelude.{◌≡◌, true, cond, set};
ghost use mathlib.Core.List.{flat_map};
ghost use Rattle.meaning.specs.Document.{style_name, channel, colour_name, style_end, write_style};
ghost use Rattle.output.specs.Output.{Put};
ghost use Rattle.styles.specs.Styles.{looks_marked};

use meaning::Look;
use output::Writer;

// A mark for each look, set for the looks in use. No constant of marks that are all clear: who begins with those has the array
// alone, `[false; Look::COUNT]`, and lends it as a slice.
#[derive(Clone, Copy)]
pub struct Marks {
    pub on: [bool; Look::COUNT],
}

// A number past the end of the marks marks nothing. By index, since get_mut does not promise what the slice holds after it.
pub fn mark(on: &mut [bool], look: u16)
    ensures { on.new ≡ set on.old look true }
{
    let k = usize::from(look);
    if k < on.len() {
        on[k] = true;
    }
}

pub fn put_style_name(w: &mut Writer, look: u16)
    ensures { Put w.old (style_name look) w.new }
{
    w.put_byte(b's');
    numbers::put_digits3(w, usize::from(look));
}

// One of two texts.
fn put_either(w: &mut Writer, first: bool, a: &[u8], b: &[u8])
    ensures { Put w.old (cond first a.now b.now) w.new }
{
    w.put(if first { a } else { b });
}

#[tactic(auto, unfolding(meaning::specs::Document::channel, meaning::specs::Lists::bytes))]
fn put_channel(w: &mut Writer, bit: u8)
    ensures { Put w.old (channel bit) w.new }
{
    put_either(w, bit == 0, b"00", b"ff");
}

fn put_colour_name(w: &mut Writer, colour: u8)
    ensures { Put w.old (colour_name colour) w.new }
{
    w.put_byte(b'#');
    put_channel(w, colour % 2);
    put_channel(w, colour / 2 % 2);
    put_channel(w, colour / 4 % 2);
}

// The end of a style's line: size, italics and underline.
fn put_style_end(w: &mut Writer, shown: Look)
    ensures { Put w.old (style_end shown) w.new }
{
    w.put(b"\" tts:fontSize=\"");
    put_either(w, shown.double, b"1c 2c", b"1c 1c");
    w.put(b"\" tts:fontStyle=\"");
    put_either(w, shown.italics, b"italic", b"normal");
    w.put(b"\" tts:textDecoration=\"");
    put_either(w, shown.underline, b"underline", b"none");
    w.put(b"\"/>\n");
}

// One line of the styling.
fn put_style(w: &mut Writer, look: u16)
    ensures { Put w.old (write_style look) w.new }
{
    let shown = Look::unpack(look);
    w.put(b"<tt:style xml:id=\"");
    put_style_name(w, look);
    w.put(b"\" tts:color=\"");
    put_colour_name(w, shown.colour);
    w.put(b"\" tts:backgroundColor=\"");
    put_colour_name(w, shown.background);
    put_style_end(w, shown);
}

// The lines of the marked looks, each once, ascending.
pub fn put_styles(w: &mut Writer, marks: &Marks)
    ensures { Put w.old (flat_map write_style (looks_marked marks.now.on)) w.new }
{
    // Read here, since the range of a field behind a reference is not known where nothing reads it and no look is marked.
    prove!(w.at <= usize::MAX);
    for (look, &on) in marks.on.iter().enumerate() {
        if on {
            put_style(w, look as u16);
        }
    }
}
