// Numbers in decimal digits, laid over a lent buffer. A digit is told by subtracting its unit, but in put_digits3: the processor that
// this is for has no divide. So no `Display` and no `format!`, which tell digits by dividing.

#![tactic(auto)]

ghost use Rattle.std.specs.Prelude.{◌≡◌, ◌+◌, ◌*◌, ◌/◌, ◌%◌, ◌<◌, ◌≤◌};
ghost use Rattle.meaning.specs.Document.{digits, decimal};
ghost use Rattle.output.specs.Output.{Put};

use output::Writer;

// A digit, and what is left of the number behind it.
#[derive(Clone, Copy)]
struct Leading {
    digit: u8,
    rest: u32,
}

impl Leading {
    ghost use Rattle.numbers.specs.Units.{taken_off};

    // Some units are taken off what is left if they go, and counted in the digit.
    #[tactic(auto, unfolding(crate::specs::Units::taken_off))]
    fn take_off(self, units: u8, size: u32) -> Leading
        requires { self.digit + units < 256 }
        ensures taken { result ≡ taken_off self units size }
        ensures small { result.digit ≤ self.digit + units }
    {
        if self.rest < size {
            return self;
        }
        Leading {
            digit: self.digit + units,
            rest: self.rest - size,
        }
    }
}

// How often a unit goes into a number, as a digit, and what is left. One unit at a time would be a loop, which compilers turn
// back into a division.
fn leading_digit(n: u32, unit: u32) -> Leading
    requires { (n < 10 * unit) × (unit ≤ 10000) }
    ensures digit { result.digit ≡ 48 + n / unit }
    ensures rest { result.rest ≡ n % unit }
{
    let none = Leading {
        digit: b'0',
        rest: n,
    };
    if n < unit {
        return none;
    }
    none.take_off(8, 8 * unit)
        .take_off(4, 4 * unit)
        .take_off(2, 2 * unit)
        .take_off(1, unit)
}

// The last five digits of a number; a u16 has no more.
#[tactic(auto, using(crate::proofs::Digits::five))]
fn five_digits(n: u16) -> [u8; 5]
    ensures { result ≡ digits 5 n }
{
    let ten_thousands = leading_digit(u32::from(n), 10000);
    let thousands = leading_digit(ten_thousands.rest, 1000);
    let hundreds = leading_digit(thousands.rest, 100);
    let tens = leading_digit(hundreds.rest, 10);
    [
        ten_thousands.digit,
        thousands.digit,
        hundreds.digit,
        tens.digit,
        b'0' + tens.rest as u8,
    ]
}

// The last two digits. Past the buffer's end they are only counted.
pub fn put_digits2(w: &mut Writer, n: u8)
    ensures { Put w.old (digits 2 n) w.new }
{
    if w.out.len() <= w.at {
        w.at = output::after(w.at, 2);
        return;
    }
    w.put(&five_digits(u16::from(n))[3..]);
}

// The last decimal digit of a number.
fn digit(n: usize) -> u8
    ensures { result ≡ 48 + n % 10 }
{
    (48 + n % 10) as u8
}

// For a look's number, which put_digits2 has no digits for. It divides: it promises the last three digits of any usize, and what
// subtracts takes a number below ten times its first unit. A narrower parameter would ask more of callers.
pub fn put_digits3(w: &mut Writer, n: usize)
    ensures { Put w.old (digits 3 n) w.new }
{
    let tens = n / 10;
    w.put_byte(digit(tens / 10));
    w.put_byte(digit(tens));
    w.put_byte(digit(n));
}

// The digits from the first that is no leading zero on; the last is always written.
pub fn put_decimal(w: &mut Writer, n: u16)
    ensures { Put w.old (decimal n) w.new }
{
    let all = five_digits(n);
    let from = all[..4].iter().position(|&d| d != b'0').unwrap_or(4);
    w.put(&all[from..]);
}
