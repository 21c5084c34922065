// The numbers of a shelf file (document 01, "The shelf file"): groups of seven bits, lowest group first, top bit set on
// every group but the last, in the shortest form, at most 65,535. So a number has one spelling.
#![tactic(auto)]

ghost use Rattle.std.specs.Prelude.{◌≡◌};
ghost use Rattle.file_number.specs.Number.{number_at, writing, written_of};
ghost use Rattle.file_number.specs.Answer.{number_lent};

use refusal::Refusal;

// A number that was read, and the place after its last group.
#[derive(Clone, Copy, Debug, PartialEq, Eq)]
pub struct Number {
    pub value: u16,
    pub next: usize,
}

// A group's seven bits, and its top bit.
const GROUP: u8 = 128;

// The third group of 65,535. A higher one, or one with its top bit set, says a number above that or none.
const HIGHEST_THIRD: u8 = 3;

// What one of the second group counts for, and one of the third.
pub const SECOND: u16 = 128;

const THIRD: u16 = 16384;

// The number at a place of the file and the place after it, or 11.
pub fn read_number(file: &[u8], at: usize) -> Result<Number, Refusal>
    ensures { result ≡ number_at file.now at }
{
    let end = file.len();
    if end <= at {
        return Err(Refusal::BadNumber);
    }
    let low = file[at];
    let second = at + 1;
    if low < GROUP {
        let value = u16::from(low);
        return Ok(Number {
            value,
            next: second,
        });
    }
    if end <= second {
        return Err(Refusal::BadNumber);
    }
    let middle = file[second];
    if middle == 0 {
        return Err(Refusal::BadNumber);
    }
    let third = second + 1;
    if middle < GROUP {
        let value = u16::from(low % GROUP) + u16::from(middle) * SECOND;
        return Ok(Number { value, next: third });
    }
    if end <= third {
        return Err(Refusal::BadNumber);
    }
    let high = file[third];
    if high == 0 {
        return Err(Refusal::BadNumber);
    }
    if HIGHEST_THIRD < high {
        return Err(Refusal::BadNumber);
    }
    let value = u16::from(low % GROUP)
        + u16::from(middle % GROUP) * SECOND
        + u16::from(high) * THIRD;
    let next = third + 1;
    Ok(Number { value, next })
}

// The answer in one number: the number in bits 8 to 23, and how many bytes it takes in bits 24 to 31.
const BIT_8: u32 = 256;

const BIT_24: u32 = 16777216;

// The number at the front of some bytes, in a number whose low 8 bits are the refusal.
pub fn number_code(bytes: &[u8]) -> u32
    ensures { result ≡ number_lent bytes.now }
{
    match read_number(bytes, 0) {
        Ok(number) => {
            let size = (number.next % 256) as u32;
            BIT_8 * u32::from(number.value) + BIT_24 * size
        }
        Err(refusal) => refusal as u32,
    }
}

// The number, written in its one spelling at the front of the output, and how many bytes it takes there; 15 where it does not fit.
pub fn write_number(n: u16, out: &mut [u8]) -> Result<usize, Refusal>
    ensures { writing result out.new ≡ written_of n out.old }
{
    let room = out.len();
    if n < SECOND {
        if room < 1 {
            return Err(Refusal::OutputTooSmall);
        }
        out[0] = n as u8;
        return Ok(1);
    }
    let low = (SECOND + n % SECOND) as u8;
    let rest = n / SECOND;
    if rest < SECOND {
        if room < 2 {
            return Err(Refusal::OutputTooSmall);
        }
        out[0] = low;
        out[1] = rest as u8;
        return Ok(2);
    }
    if room < 3 {
        return Err(Refusal::OutputTooSmall);
    }
    let middle = (SECOND + rest % SECOND) as u8;
    let high = (rest / SECOND) as u8;
    out[0] = low;
    out[1] = middle;
    out[2] = high;
    Ok(3)
}
