// What the calls over a host's numbers share: how an answer stands in one number.
#![tactic(auto)]

ghost use Rattle.std.specs.Prelude.{◌≡◌};
ghost use Rattle.answers.specs.Answers.{size_code, done, sized};

use refusal::Refusal;

// What a field is multiplied by to begin at that bit of an answer of 64 bits.
pub const BIT_8: u64 = 256;

pub const BIT_16: u64 = 65536;

pub const BIT_24: u64 = 16777216;

pub const BIT_32: u64 = 4294967296;

pub const BIT_40: u64 = 1099511627776;

pub const BIT_48: u64 = 281474976710656;

// What a call answers that was done and has nothing else to tell: 0, or the refusal.
pub fn done(answer: Result<(), Refusal>) -> u8
    ensures { result ≡ done answer }
{
    match answer {
        Ok(()) => 0,
        Err(refusal) => u8::from(refusal),
    }
}

// How many bytes now stand at the front of an output, in the place of an answer.
pub fn size_code(n: usize) -> u32
    ensures { result ≡ size_code n }
{
    256 * ((n % 65536) as u32)
}

// What a call answers that fills an output: how many bytes now stand at its front, or the refusal.
pub fn sized(answer: Result<usize, Refusal>) -> u32
    ensures { result ≡ sized answer }
{
    match answer {
        Ok(n) => size_code(n),
        Err(refusal) => refusal as u32,
    }
}
