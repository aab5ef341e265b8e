// The converter, the reason for a refusal, and the check that is fed in lumps, for callers in other languages.

#![tactic(auto)]

ghost use Rattle.std.specs.Prelude.{◌≡◌, false, length};
ghost use Rattle.meaning.specs.Conversion.{answer, output};
ghost use Rattle.laws.specs.Demands.{FewestSpans};
ghost use Rattle.output.specs.Output.{stored};
ghost use Rattle.reasons.specs.Explained.{Told};
ghost use Rattle.meaning.specs.Answers.{numbers_of};
ghost use Rattle.meaning.specs.Reasons.{reason, reason_numbers};
ghost use Rattle.store.specs.Stores.{check_of};
ghost use Rattle.streamed.specs.Checks.{opened_in, fed_in, closed_in, answer_in, is_running, opened_store, store_closed};

// For callers in C and Rust: the refusal's number, or 0. As much of the answer as `numbers` has room for is stored there.
#[unsafe(no_mangle)]
pub extern "C" fn milursake_convert(
    file: &[u8],
    mode: u64,
    out: &mut [u8],
    numbers: &mut [u64],
) -> u64
    ensures number { result ≡ (answer mode file.now (length out.old)).number }
    ensures buffer { out.new ≡ output mode file.now out.old }
    ensures stored { numbers.new ≡ stored numbers.old 0 (numbers_of (answer mode file.now (length out.old))) }
    ensures fewest { result ≡ 0 → FewestSpans mode file.now (answer mode file.now (length out.old)) out.new }
{
    let a = convert::convert(file, mode, out);
    output::put_at(numbers, 0, &<[u64; 8]>::from(a));
    a.number
}

// Why a file is refused, for a buffer of `room` bytes: the refusal's number, or 0. As many as `numbers` has room for of number, block,
// offset, 1 or 0 for a byte or none, and the byte or 0 are stored there.
#[unsafe(no_mangle)]
pub extern "C" fn milursake_explain(file: &[u8], mode: u64, room: u64, numbers: &mut [u64]) -> u64
    ensures number { result ≡ (reason mode file.now room).number }
    ensures stored { numbers.new ≡ stored numbers.old 0 (reason_numbers (reason mode file.now room)) }
    ensures told { Told mode file.now room (reason mode file.now room) }
{
    let r = explain::explain(file, mode, room as usize);
    output::put_at(numbers, 0, &<[u64; 5]>::from(r));
    r.number
}

// Starts a check with a break mode and a room, on a store of streamed::SIZE bytes; another store is left as it is.
#[unsafe(no_mangle)]
pub extern "C" fn milursake_check_open(store: &mut [u8], mode: u64, room: u64)
    ensures check { check_of store.new ≡ opened_in (length store.old) mode room }
    ensures store { store.new ≡ opened_store mode room store.old }
{
    streamed::open_check(store, mode, room);
}

// A lump of the file, for an open check; a store that is none of an open check is left as it is.
#[unsafe(no_mangle)]
pub extern "C" fn milursake_check_feed(store: &mut [u8], lump: &[u8])
    ensures check { check_of store.new ≡ fed_in (check_of store.old) lump.now }
    ensures kept { is_running (check_of store.old) ≡ false → store.new ≡ store.old }
{
    streamed::feed_check(store, lump);
}

// Closes a check: the refusal's number, or 0. As much of the answer as `numbers` has room for is stored there.
#[unsafe(no_mangle)]
pub extern "C" fn milursake_check_close(store: &mut [u8], numbers: &mut [u64]) -> u64
    ensures number { result ≡ (answer_in (check_of store.old)).number }
    ensures stored { numbers.new ≡ stored numbers.old 0 (numbers_of (answer_in (check_of store.old))) }
    ensures check { check_of store.new ≡ closed_in (check_of store.old) }
    ensures store { store.new ≡ store_closed store.old }
{
    let a = streamed::close_check(store);
    output::put_at(numbers, 0, &<[u64; 8]>::from(a));
    a.number
}
