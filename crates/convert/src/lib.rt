// From an EBU STL file to an EBU-TT document, in two passes over the file: the first checks and measures, the second writes.

#![tactic(auto)]

ghost use Rattle.std.specs.Prelude.{◌≡◌, List, length};
ghost use Rattle.meaning.specs.Refusals.{verdict};
ghost use Rattle.meaning.specs.Conversion.{refusal, refused_answer, accepted_answer, answer, output};
ghost use Rattle.laws.specs.Demands.{FewestSpans};
ghost use Rattle.convert.specs.Telling.{measured, answer_of, within_room, examined_with, examined, answered, WritesDocument};

use checking::Checked;
use meaning::{Answer, Counts, Format, Look, Refusal};
use output::Writer;
use styles::Marks;
use text::BodyWriter;

// A file that is accepted: its answer, and the looks that its document uses.
#[derive(Clone, Copy)]
struct Accepted {
    answer: Answer,
    marks: Marks,
}

// A file that is refused, and the length that its answer tells.
#[derive(Clone, Copy)]
struct Refused {
    refusal: Refusal,
    needed: u64,
}

// The answer to a file that breaks one of the rules 1 to 15 tells no length.
impl From<Refusal> for Refused {
    ghost from_gives = { λ r refused. refused ≡ record { refusal = r; needed = 0 } };

    fn from(refusal: Refusal) -> Refused {
        Refused { refusal, needed: 0 }
    }
}

// Public beside the conversion below: `streamed` has a refusal, and no `Refused`.
#[tactic(auto, unfolding(meaning::specs::Conversion::refused_answer))]
pub fn answer_refused(r: Refusal, needed: u64) -> Answer
    ensures { result ≡ refused_answer r needed }
{
    Answer {
        number: r.number,
        place: r.place,
        length: needed,
        ..Answer::default()
    }
}

impl From<Refused> for Answer {
    ghost from_gives = { λ r a. a ≡ refused_answer r.refusal r.needed };

    fn from(r: Refused) -> Answer {
        answer_refused(r.refusal, r.needed)
    }
}

#[tactic(auto, unfolding(meaning::specs::Conversion::accepted_answer))]
fn answer_accepted(written: u64, c: Counts, spans: u64) -> Answer
    ensures { result ≡ accepted_answer written c spans }
{
    Answer {
        number: 0,
        place: 0,
        length: written,
        subtitles: c.subtitles,
        comments: c.comments,
        continuations: c.continuations,
        users: c.users,
        spans,
    }
}

// The length of a document with these looks in use, whose paragraphs have the given length.
#[tactic(auto, unfolding(crate::specs::Telling::measured))]
fn length_of(rate: u8, marks: &Marks, paragraphs: usize) -> usize
    ensures { result ≡ measured rate marks.now.on paragraphs }
{
    let mut none = [0u8; 0];
    let mut w = Writer::new(&mut none);
    document::put_head(&mut w, rate, marks);
    w.at = output::after(w.at, paragraphs);
    document::put_tail(&mut w);
    w.at
}

// Rule 16, for a file that breaks none of the others, by what pass one told.
#[tactic(auto, unfolding(crate::specs::Telling::within_room, crate::specs::Telling::examined_by))]
fn within_room(f: Format, c: Checked, room: usize) -> Result<Accepted, Refused>
    ensures { result ≡ within_room f room c }
{
    let needed = length_of(f.rate, &c.marks, c.tally.at);
    if room < needed {
        let refusal = Refusal {
            number: 16,
            ..Refusal::NONE
        };
        return Err(Refused {
            refusal,
            needed: needed as u64,
        });
    }
    let answer = answer_accepted(needed as u64, c.counts, c.tally.spans as u64);
    Ok(Accepted {
        answer,
        marks: c.marks,
    })
}

#[tactic(auto, unfolding(crate::specs::Telling::answered))]
fn answered(examined: Result<Accepted, Refused>) -> Answer
    ensures { result ≡ answered examined }
{
    match examined {
        Ok(a) => a.answer,
        Err(r) => Answer::from(r),
    }
}

// Rule 16, by what pass one told.
fn examined_with(f: Format, c: Result<Checked, Refusal>, room: usize) -> Result<Accepted, Refused>
    ensures { result ≡ examined_with f room c }
{
    within_room(f, c?, room)
}

// The answer by what pass one told, for a buffer of some length.
pub fn answer_of(f: Format, c: Result<Checked, Refusal>, room: usize) -> Answer
    ensures { result ≡ answer_of f room c }
{
    answered(examined_with(f, c, room))
}

// File, mode and room go side by side, as the definition `answer`, the promise `Told` and the exported functions take them.
fn examine(file: &[u8], mode: u64, room: usize) -> Result<Accepted, Refused>
    ensures { result ≡ examined mode file.now room }
{
    gsi::file_rule(file, mode)?;
    let f = gsi::format(file, mode);
    let c = checking::check_blocks(file, gsi::block_count(file), f);
    examined_with(f, c, room)
}

// The rule that any file breaks, for any break mode and a buffer of any length; 16 has offset 0.
pub fn refusal(file: &[u8], mode: u64, room: usize) -> Result<(), Refusal>
    ensures { result ≡ verdict (refusal mode file.now room) }
{
    // A `match`, for both arms change.
    match examine(file, mode, room) {
        Ok(_) => Ok(()),
        Err(r) => Err(r.refusal),
    }
}

// The answer to any file, any break mode and a buffer of any length, with nothing written.
pub fn check(file: &[u8], mode: u64, room: usize) -> Answer
    ensures { result ≡ answer mode file.now room }
{
    answered(examine(file, mode, room))
}

// Pass two, over a file that pass one accepted: head, paragraphs, tail.
fn write(file: &[u8], mode: u64, out: &mut [u8], marks: &Marks)
    ensures { WritesDocument mode file.now marks.now out.old out.new }
{
    let f = gsi::format(file, mode);
    // The looks are marked once more, and not read.
    let mut again = [false; Look::COUNT];
    let mut w = Writer::new(out);
    document::put_head(&mut w, f.rate, marks);
    let mut body = BodyWriter {
        writer: &mut w,
        marks: &mut again,
        spans: 0,
    };
    writing::write_blocks(file, gsi::block_count(file), f, &mut body);
    document::put_tail(&mut w);
}

// The answer to any file, any break mode and any buffer. A refusal writes nothing; an acceptance writes the document's bytes only.
pub fn convert(file: &[u8], mode: u64, out: &mut [u8]) -> Answer
    ensures answer { result ≡ answer mode file.now (length out.old) }
    ensures buffer { out.new ≡ output mode file.now out.old }
    ensures fewest { result.number ≡ 0 → FewestSpans mode file.now result out.new }
{
    match examine(file, mode, out.len()) {
        Ok(a) => {
            write(file, mode, out, &a.marks);
            a.answer
        }
        Err(r) => Answer::from(r),
    }
}
