// The digits after the point of an f32, all of them: a fraction of 60 binary places at most has as many decimal ones.
ghost use Rattle.std.specs.Prelude.{◌<◌, ◌≤◌};
ghost use Rattle.io.specs.Counts.{IsPrefixLen};

use cli_page::Out;

// The most binary places, so that ten times a denominator fits a u64.
const PLACES: u32 = 60;

// 2 to the power of `places`, at most 2^60.
#[tactic(auto, using(crate::proofs::Powers::at_most_60, std::proofs::lemmas::Nat::pow_pos))]
fn doubled(places: u32) -> u64
    ensures { (0 < result) × (result ≤ 1152921504606846976) }
{
    2u64.pow(places.min(PLACES))
}

// The last decimal digit of n. Stays a byte: it is a character of the text.
pub fn digit(n: u64) -> u8 {
    b'0' + (n % 10) as u8
}

// Puts the decimal digits of f / scale into the room until nothing is left, and answers how many there are.
fn digits(f: u64, scale: u64, room: &mut [u8]) -> usize
    requires { (f < scale) × (scale ≤ 1152921504606846976) }
    ensures { IsPrefixLen result room.new }
{
    let mut left = f;
    for at in 0..room.len() {
        if left == 0 {
            return at;
        }
        room[at] = digit(left * 10 / scale);
        left = left * 10 % scale;
    }
    room.len()
}

// The point, and the digits that m / 2^places has behind it.
fn say_fraction(out: &mut Out, m: u64, places: u32) {
    let scale = doubled(places);
    let f = m % scale;
    if f > 0 {
        let mut room = [0u8; PLACES as usize];
        let n = digits(f, scale, &mut room);
        out.say(".");
        out.say_bytes(&room[..n]);
    }
}

// What stands after the point of a size from 2^-37 up, by its bits: these have 23 places, and an exponent that is 150 more than that of the last.
pub fn say_exact(out: &mut Out, bits: u32) {
    let exponent = bits / 8388608;
    if exponent < 150 {
        say_fraction(out, (bits % 8388608) as u64 + 8388608, 150 - exponent);
    }
}
