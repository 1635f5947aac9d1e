// Numbers as a text has them: whole ones, decimals as -12.375, and bit patterns as 0x41480000.
ghost use Rattle.std.specs.Prelude.{◌≡◌, ◌<◌, ◌≤◌, length, from_bits, IfSome};
ghost use Rattle.std.specs.Float.{binary32};
ghost use Rattle.cli_words.specs.Numbers.{too_large, below, is_digit, written, written_after, whole_of, decimal_after, decimal_of, fitting, quotient_of, unsigned_of, signed_of, no_pattern, hex_all, bits_of, number_of};

// 2^24: below it every whole number is an f32.
pub const TOO_LARGE: u64 = 16777216;

// 2^32: no bit pattern is larger.
const NO_PATTERN: u64 = 4294967296;

// The digits without the point; `scale` is 0 before the point, and then ten to the number of digits after it. No ghost field bounds them, since the definitions
// speak of decimals that are too large as well.
#[derive(Clone, Copy)]
pub struct Decimal {
    pub digits: u64,
    pub scale: u64,
}

#[tactic(auto, using(std::proofs::lemmas::Bool::Decides::nat_tests), unfolding(crate::specs::Numbers::is_digit))]
fn is_digit(b: u8) -> bool
    ensures { result ≡ is_digit b }
{
    b.is_ascii_digit()
}

// The number n with the digit b after it, where that is below the limit.
#[tactic(auto, using(std::proofs::lemmas::Bool::Decides::nat_tests), unfolding(crate::specs::Numbers::written_after))]
fn digit_after(n: u64, b: u8, base: u32, limit: u64) -> Option<u64>
    requires { (n < limit) × (limit ≤ 4294967296) × (2 ≤ base) × (base ≤ 16) }
    ensures value { result ≡ below limit (written_after base limit n b) }
    ensures below { IfSome result (λ m. (m < limit) × (m ≡ written_after base limit n b)) }
{
    let digit = char::from(b).to_digit(base)?;
    let more = n * base as u64 + digit as u64;
    if more < limit { Some(more) } else { None }
}

// The number below the limit that s writes to a base. Nothing written is 0.
#[tactic(auto, using(crate::specs::Grown::written_none, crate::specs::Grown::written_more, crate::specs::Grown::spoilt))]
fn number_to(s: &[u8], base: u32, limit: u64) -> Option<u64>
    requires { (0 < limit) × (limit ≤ 4294967296) × (2 ≤ base) × (base ≤ 16) }
    ensures value { result ≡ below limit (written base limit s.now (length s.now)) }
    ensures below { IfSome result (λ n. n < limit) }
{
    let mut n = 0;
    for b in s {
        n = digit_after(n, *b, base, limit)?;
    }
    Some(n)
}

// The whole number below 2^24 that s writes. Nothing written is 0.
#[tactic(auto, using(crate::specs::Grown::whole_is))]
pub fn whole(s: &[u8]) -> Option<u32>
    ensures value { result ≡ below too_large (whole_of s.now (length s.now)) }
    ensures small { IfSome result (λ n. n < too_large) }
{
    number_to(s, 10, TOO_LARGE).map(|n| n as u32)
}

// The bit pattern that s writes in hexadecimal.
#[tactic(auto, using(crate::specs::Grown::hex_is))]
fn hexadecimal(s: &[u8]) -> Option<u32>
    ensures { result ≡ below no_pattern (hex_all s.now) }
{
    number_to(s, 16, NO_PATTERN).map(|n| n as u32)
}

impl Decimal {
    // The decimal with the byte b after it, which is a digit or the one point.
    #[tactic(auto, using(std::proofs::lemmas::Bool::Decides::nat_tests, crate::specs::Grown::digit_same), unfolding(crate::specs::Numbers::decimal_after, crate::specs::Numbers::held))]
    fn after(self, b: u8) -> Option<Decimal>
        requires { (self.digits < too_large) × (self.scale < too_large) }
        ensures value { result ≡ fitting (decimal_after self b) }
        ensures below { IfSome result (λ d. (d.digits < too_large) × (d.scale < too_large) × (d ≡ decimal_after self b)) }
    {
        match (b, self.scale) {
            (b'.', 0) => Some(Decimal { scale: 1, ..self }),
            (b'.', _) => None,
            _ => {
                let digits = digit_after(self.digits, b, 10, TOO_LARGE)?;
                let scale = self.scale * 10;
                if scale < TOO_LARGE {
                    Some(Decimal { digits, scale })
                } else {
                    None
                }
            }
        }
    }

    // The digits over the scale, rounded once.
    #[tactic(auto, using(std::proofs::lemmas::Bool::Decides::nat_tests), unfolding(crate::specs::Numbers::quotient_of))]
    fn quotient(self) -> f32
        requires { (self.digits < too_large) × (self.scale < too_large) }
        ensures { result ≡ quotient_of self }
    {
        let n = std::num::nearest_u32_to_f32(self.digits as u32);
        n / std::num::nearest_u32_to_f32(self.scale.max(1) as u32)
    }
}

#[tactic(auto, using(crate::specs::Grown::decimal_none, crate::specs::Grown::decimal_more, crate::specs::Grown::decimal_spoilt))]
fn read_decimal(s: &[u8]) -> Option<Decimal>
    ensures value { result ≡ fitting (decimal_of s.now (length s.now)) }
    ensures below { IfSome result (λ d. (d.digits < too_large) × (d.scale < too_large)) }
{
    let mut d = Decimal {
        digits: 0,
        scale: 0,
    };
    for b in s {
        d = d.after(*b)?;
    }
    Some(d)
}

#[tactic(auto, using(std::proofs::lemmas::Bool::Decides::nat_tests), unfolding(crate::specs::Numbers::unsigned_of))]
fn unsigned(s: &[u8]) -> Option<f32>
    ensures { result ≡ unsigned_of s.now }
{
    if s.is_empty() || !is_digit(s[0]) || !is_digit(s[s.len() - 1]) {
        return None;
    }
    read_decimal(s).map(|d| d.quotient())
}

// The decimal that s writes, as -12.375: its digits without the point below 2^24, rounded once.
#[tactic(auto, using(std::proofs::lemmas::Bool::Decides::nat_tests), unfolding(crate::specs::Numbers::signed_of))]
fn signed(s: &[u8]) -> Option<f32>
    ensures { result ≡ signed_of s.now }
{
    match s {
        [] => None,
        [b'-', rest @ ..] => unsigned(rest).map(|x| -x),
        _ => unsigned(s),
    }
}

// The float of a bit pattern, a NaN's too.
pub fn pattern(v: u32) -> f32
    ensures { result ≡ from_bits binary32 v }
{
    std::num::f32_from_bits_with_nan(v)
}

// The float that 0x and eight digits write by its bits.
#[tactic(auto, using(std::proofs::lemmas::Bool::Decides::nat_tests), unfolding(crate::specs::Numbers::bits_of))]
fn bits(s: &[u8]) -> Option<f32>
    ensures { result ≡ bits_of s.now }
{
    match s {
        [b'0', b'x', digits @ ..] if digits.len() == 8 => hexadecimal(digits).map(|v| pattern(v)),
        _ => None,
    }
}

// A number as a text has it: in decimal, or by its bits.
#[tactic(auto, using(std::proofs::lemmas::Bool::Decides::nat_tests), unfolding(crate::specs::Numbers::number_of))]
pub fn read_number(s: &[u8]) -> Option<f32>
    ensures { result ≡ number_of s.now }
{
    signed(s).or_else(|| bits(s))
}
