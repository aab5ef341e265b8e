// Pass two over a file's blocks: each set that closes is laid. No rule over texts is asked, and a block that breaks a rule is passed over: in a file
// that pass one found good there is none.

#![tactic(auto)]

ghost use Rattle.std.specs.Prelude.{◌≡◌, true, ◌≤◌, length};
ghost use Rattle.meaning.specs.Sets.{advance};
ghost use Rattle.sets.specs.Assembling.{assembly_of, has_room, room_for};
ghost use Rattle.closed.specs.Body.{body_of, LaysAs, Lays};
ghost use Rattle.writing.specs.Laying.{lay_event, lay_blocks, laying_of};

use closed::lay;
use meaning::Format;
use sets::{PlacedBlock, Sets, Step};
use text::BodyWriter;

fn write_block(b: PlacedBlock, text: &mut [u8], body: &mut BodyWriter, sets: Sets) -> Sets
    requires { has_room b.bytes.now sets text.old ≡ true }
    ensures { LaysAs (laying_of result text.new) body.old (lay_event b.entry.f (laying_of sets text.old (body_of body.old)) (advance b.entry.f b.entry.place b.entry.bytes.now (assembly_of sets text.old))) body.new }
{
    match b.advance(text, sets) {
        Ok(Step::Pending(next)) => next,
        Ok(Step::Closed(set, next)) => {
            lay(b.f, text, body, set);
            next
        }
        Ok(Step::NoRoom) => sets,
        Err(_) => sets,
    }
}

// The first n blocks, with a text buffer that has room for their texts.
fn write_all(file: &[u8], n: usize, f: Format, text: &mut [u8], body: &mut BodyWriter)
    requires { room_for n ≤ length text.old }
    ensures { Lays body.old (lay_blocks f file.now (body_of body.old) n).body body.new }
{
    let mut sets = Sets::default();
    // By number: `write_blocks` promises any n, also past the file's end, where a block is empty.
    for k in 0..n {
        let b = PlacedBlock {
            f,
            place: k as u64,
            bytes: block::bytes_at(file, k),
        };
        sets = write_block(b, text, body, sets);
    }
}

// The first n blocks of any file. n and f go along though the file tells them: the definition `lay_blocks` takes any, and so the promise is
// for any.
pub fn write_blocks(file: &[u8], n: usize, f: Format, body: &mut BodyWriter)
    ensures { Lays body.old (lay_blocks f file.now (body_of body.old) n).body body.new }
{
    // The same lines as in `checking::check_blocks`, where it is said why no function chooses for both passes.
    if n <= Sets::FEW {
        let mut text = [0u8; Sets::FEW_ROOM];
        return write_all(file, n, f, &mut text, body);
    }
    let mut text = [0u8; Sets::ROOM];
    write_all(file, n, f, &mut text, body)
}
