// A character as text of an XML document, laid over a lent buffer: UTF-8, and names for the three that XML keeps for itself.

#![tactic(auto)]

ghost use Rattle.std.specs.Prelude.{◌≡◌, ◌⊎◌, ◌+◌, ◌%◌};
ghost use Rattle.meaning.specs.Document.{utf8, escaped};
ghost use Rattle.output.specs.Output.{Put};

use output::Writer;

// A byte of UTF-8 after the first: six bits.
fn continuation(c: u16) -> u8
    ensures { result ≡ 128 + c % 64 }
{
    (128 + c % 64) as u8
}

// By hand and not by `char::encode_utf8`: `put_escaped` promises every u16, also a surrogate, which is no char.
fn put_utf8(w: &mut Writer, c: u16)
    ensures { Put w.old (utf8 c) w.new }
{
    if c < 128 {
        w.put_byte(c as u8);
    } else if c < 2048 {
        w.put_byte((192 + c / 64) as u8);
        w.put_byte(continuation(c));
    } else {
        w.put_byte((224 + c / 4096) as u8);
        w.put_byte(continuation(c / 64));
        w.put_byte(continuation(c));
    }
}

// The name of a character that XML keeps for itself.
fn put_entity(w: &mut Writer, c: u16)
    requires { (c ≡ 38) ⊎ ((c ≡ 60) ⊎ (c ≡ 62)) }
    ensures { Put w.old (escaped c) w.new }
{
    match c {
        38 => w.put(b"&amp;"),
        60 => w.put(b"&lt;"),
        _ => w.put(b"&gt;"),
    }
}

// Any other character than those that put_escaped tells by its test. It stands apart so that put_escaped is little enough to be
// compiled into a loop.
#[inline(never)]
fn put_other(w: &mut Writer, c: u16)
    ensures { Put w.old (escaped c) w.new }
{
    match c {
        38 | 60 | 62 => put_entity(w, c),
        _ => put_utf8(w, c),
    }
}

// 20h and 3Fh to 7Eh come first, told by one test: a branch that most characters take.
#[inline(always)]
pub fn put_escaped(w: &mut Writer, c: u16)
    ensures { Put w.old (escaped c) w.new }
{
    if (c == 32) | ((63 <= c) & (c < 127)) {
        return w.put_byte(c as u8);
    }
    put_other(w, c);
}
