// The parts of a document over a lent buffer: what stands before the paragraphs, a paragraph, and what stands after them.

#![tactic(auto)]

ghost use Rattle.meaning.specs.Document.{write_time, alignment_name, after_paragraphs};
ghost use Rattle.meaning.specs.Conversion.{alignment_of};
ghost use Rattle.output.specs.Output.{Put};
ghost use Rattle.document.specs.Parts.{head_of, paragraph_for, ParagraphLaid};

use meaning::{Format, Header, Time};
use output::Writer;
use rows::SetText;
use styles::Marks;
use text::BodyWriter;

pub fn put_head(w: &mut Writer, rate: u8, marks: &Marks)
    ensures { Put w.old (head_of rate marks.now.on) w.new }
{
    w.put(
        b"<?xml version=\"1.0\" encoding=\"UTF-8\"?>\n<tt:tt xmlns:tt=\"http://www.w3.org/ns/ttml\" xmlns:ttp=\"http://www.w3.org/ns/ttml#parameter\" xmlns:tts=\"http://www.w3.org/ns/ttml#styling\" xmlns:ebuttm=\"urn:ebu:tt:metadata\" xml:lang=\"\" xml:space=\"preserve\" ttp:timeBase=\"smpte\" ttp:frameRate=\"",
    );
    numbers::put_digits2(w, rate);
    w.put(
        b"\" ttp:frameRateMultiplier=\"1 1\" ttp:markerMode=\"discontinuous\" ttp:dropMode=\"nonDrop\" ttp:cellResolution=\"50 30\">\n<tt:head><tt:metadata><ebuttm:documentMetadata><ebuttm:documentEbuttVersion>v1.0</ebuttm:documentEbuttVersion></ebuttm:documentMetadata></tt:metadata><tt:styling>\n<tt:style xml:id=\"defaultStyle\" tts:fontSize=\"1c 1c\" tts:fontFamily=\"monospaceSansSerif\" tts:textAlign=\"left\" tts:lineHeight=\"normal\" tts:color=\"#ffffff\" tts:backgroundColor=\"#000000\" tts:fontWeight=\"normal\" tts:fontStyle=\"normal\" tts:textDecoration=\"none\"/>\n<tt:style xml:id=\"alignLeft\" tts:textAlign=\"left\"/>\n<tt:style xml:id=\"alignCentre\" tts:textAlign=\"center\"/>\n<tt:style xml:id=\"alignRight\" tts:textAlign=\"right\"/>\n",
    );
    styles::put_styles(w, marks);
    w.put(
        b"</tt:styling><tt:layout>\n<tt:region xml:id=\"bottom\" tts:origin=\"0% 0%\" tts:extent=\"100% 100%\" tts:displayAlign=\"after\"/>\n</tt:layout></tt:head><tt:body><tt:div style=\"defaultStyle\" region=\"bottom\">\n",
    );
}

#[tactic(auto, unfolding(meaning::specs::Document::after_paragraphs, meaning::specs::Lists::bytes))]
pub fn put_tail(w: &mut Writer)
    ensures { Put w.old after_paragraphs w.new }
{
    w.put(b"</tt:div></tt:body></tt:tt>\n");
}

// By hand and by no `Display`, as the digits are (`numbers`).
fn put_time(w: &mut Writer, t: Time)
    ensures { Put w.old (write_time t) w.new }
{
    numbers::put_digits2(w, t.hours);
    w.put_byte(b':');
    numbers::put_digits2(w, t.minutes);
    w.put_byte(b':');
    numbers::put_digits2(w, t.seconds);
    w.put_byte(b':');
    numbers::put_digits2(w, t.frames);
}

#[tactic(auto, using(crate::proofs::Laws::align_left, crate::proofs::Laws::align_right), unfolding(meaning::specs::Document::alignment_name, meaning::specs::Conversion::alignment_of, meaning::specs::Lists::bytes))]
fn put_alignment(w: &mut Writer, jc: u8)
    ensures { Put w.old (alignment_name (alignment_of jc)) w.new }
{
    // By number: an enum of the three would be matched here a second time.
    match jc {
        0 | 1 => w.put(b"alignLeft"),
        2 => w.put(b"alignCentre"),
        _ => w.put(b"alignRight"),
    }
}

// The paragraph of a set, from the header of its first block and its whole text.
pub fn put_paragraph(body: &mut BodyWriter, h: Header, text: &[u8], f: Format)
    ensures { ParagraphLaid body.old (paragraph_for f h text.now) body.new }
{
    let w = &mut *body.writer;
    w.put(b"<tt:p xml:id=\"sub");
    numbers::put_decimal(w, h.sn);
    w.put(b"\" style=\"");
    put_alignment(w, h.jc);
    w.put(b"\" begin=\"");
    put_time(w, h.tci);
    w.put(b"\" end=\"");
    put_time(w, h.tco);
    w.put(b"\">");
    let text = SetText {
        bytes: text,
        f,
        vp: h.vp,
    };
    text::put_content(body, text);
    body.writer.put(b"</tt:p>\n");
}
