// Pass one over a file's blocks: the sets that close are judged and their paragraphs measured.

#![tactic(auto)]

ghost use Rattle.std.specs.Prelude.{◌≡◌, ◌≤◌, length};
ghost use Rattle.meaning.specs.Walk.{set_rule, finish, walk};
ghost use Rattle.sets.specs.Assembling.{room_for};
ghost use Rattle.closed.specs.Body.{empty_body, lay_set};
ghost use Rattle.checking.specs.Passing.{checked_of};

use meaning::{Counts, Format, GSI_SIZE, Look, Refusal};
use output::Writer;
use sets::Sets;
use styles::Marks;
use text::{BodyWriter, Tally};

mod blocks;

pub use blocks::{Pass, check_more};

// What pass one tells of a file that is not refused: the counts of blocks, how much is laid, and the looks in use.
#[derive(Clone, Copy)]
pub struct Checked {
    pub counts: Counts,
    pub tally: Tally,
    pub marks: Marks,
}

// The first n blocks, with a text buffer that has room for their texts: one function in each pass asks for it, and would take a type for it
// apart at once. The buffer goes beside the body: what a buffer two references deep holds is not known in a loop. Nothing is written here:
// paragraphs are measured over a buffer of no bytes.
fn check_with(file: &[u8], n: usize, f: Format, text: &mut [u8]) -> Result<Checked, Refusal>
    requires { room_for n ≤ length text.old }
    ensures { result ≡ checked_of (finish n (walk f (set_rule f) (lay_set f) empty_body file.now n)) }
{
    let mut out = [0u8; 0];
    let mut on = [false; Look::COUNT];
    let mut writer = Writer::new(&mut out);
    let mut body = BodyWriter {
        writer: &mut writer,
        marks: &mut on,
        spans: 0,
    };
    let blocks = block::field(file, GSI_SIZE, file.len());
    let w = check_more(blocks, n, 0, f, text, &mut body, Pass::default());
    let tally = body.tally();
    w.checked(n as u64, tally, Marks { on })
}

// The first n blocks of any file. n and f go along though the file tells them: the definition `walk` takes any, and so the promise is for
// any.
pub fn check_blocks(file: &[u8], n: usize, f: Format) -> Result<Checked, Refusal>
    ensures { result ≡ checked_of (finish n (walk f (set_rule f) (lay_set f) empty_body file.now n)) }
{
    // A file of few blocks has a small text buffer, which takes less time to clear. `write_blocks` has the same lines: one function for both
    // passes would take the pass as a closure and require that it may be called, and no public function requires anything.
    if n <= Sets::FEW {
        let mut text = [0u8; Sets::FEW_ROOM];
        return check_with(file, n, f, &mut text);
    }
    let mut text = [0u8; Sets::ROOM];
    check_with(file, n, f, &mut text)
}
