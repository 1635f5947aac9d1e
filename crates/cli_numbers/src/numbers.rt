// Numbers: a decimal where one of at most seven digits reads back as the very number, an approximation marked by ~ where none does, and the
// bits beside it.
ghost use Rattle.std.specs.Prelude.{◌≡◌, ◌<◌, ◌≤◌, IfSome};
ghost use Rattle.cli_numbers.specs.Text.{Shown, hex_text};
ghost use Rattle.cli_numbers.specs.Text.{glyph as glyph_of};

use crate::exact::{digit, say_exact};
use arrayvec::ArrayString;
use cli_page::Out;
use cli_words::TOO_LARGE;
use std::fmt::Write;

// The most digits after the point.
const PLACES: usize = 6;

// From here on an f32 is no u64.
const BEYOND: f32 = 18446744073709551616.0;

// A decimal: a sign, a point, and the digits of a u64.
type Text = ArrayString<24>;

// A number that is no NaN, its bits, its sign, and how large it is without it.
#[derive(Clone, Copy)]
struct Signed {
    value: f32,
    bits: u32,
    negative: bool,
    size: f32,
}

// Ten to the power of `places`.
#[tactic(auto, using(crate::proofs::Powers::at_most_6, crate::proofs::Powers::tens_positive))]
fn tens(places: usize) -> u32
    requires { places ≤ 6 }
    ensures { 0 < result }
{
    10u32.pow(places as u32)
}

// The digit of a number below 16, in upper case. Stays by hand, as `hex_text`: no clause of std says what `{:X}` writes.
#[tactic(auto, using(std::proofs::lemmas::Bool::Decides::nat_tests), unfolding(crate::specs::Text::glyph))]
fn glyph(d: u32) -> u8
    requires { d < 16 }
    ensures { result ≡ glyph_of d }
{
    if d < 10 { 48 + d as u8 } else { 55 + d as u8 }
}

// 0x and the eight digits of a bit pattern.
fn hex_text(n: u32) -> [u8; 10]
    ensures { result ≡ hex_text n }
{
    [
        48,
        120,
        glyph(n / 268435456 % 16),
        glyph(n / 16777216 % 16),
        glyph(n / 1048576 % 16),
        glyph(n / 65536 % 16),
        glyph(n / 4096 % 16),
        glyph(n / 256 % 16),
        glyph(n / 16 % 16),
        glyph(n % 16),
    ]
}

// All digits of a whole number. Stays on an array, of the most digits: nothing allocates.
fn say_whole(out: &mut Out, n: u64) {
    let mut text = [0u8; 20];
    let k = io::decimal(n, &mut text);
    out.say_bytes(&text[..k]);
}

impl Signed {
    #[tactic(auto, using(float::specs::Bits::number))]
    fn new(x: f32) -> Option<Signed> {
        if x != x {
            return None;
        }
        let bits = f32::to_bits(x);
        let negative = bits >= 2147483648;
        Some(Signed {
            value: x,
            bits,
            negative,
            size: if negative { -x } else { x },
        })
    }

    // The text of digits of which so many are places after the point.
    fn spell(&self, digits: u64, places: usize) -> Text
        requires { places ≤ 6 }
    {
        let scale = tens(places) as u64;
        let sign = if self.negative { "-" } else { "" };
        let whole = digits / scale;
        let part = digits % scale;
        let mut text = Text::new();
        let _ = write!(text, "{sign}{whole}");
        if places > 0 {
            let _ = write!(text, ".{part:0places$}");
        }
        text
    }

    // The text of digits, where it reads back as the number. Stays a comparison: a text of 2^24 or more is read as no number.
    fn attempt(&self, digits: u64, places: usize) -> Option<Text>
        requires { places ≤ 6 }
        ensures { IfSome result (λ text. Shown self.now.value text.bytes) }
    {
        if digits >= TOO_LARGE {
            return None;
        }
        // What reading it will give: most texts need not be spelled.
        let scale = std::num::nearest_u32_to_f32(tens(places));
        if std::num::nearest_u32_to_f32(digits as u32) / scale != self.size {
            return None;
        }
        let text = self.spell(digits, places);
        let y = cli_words::read_number(text.as_str().as_bytes())?;
        if float::same_bits(self.value, y) {
            Some(text)
        } else {
            None
        }
    }

    // The same of the digits nearest to the number. Where the product was rounded up to a half, its nearest whole is one more than these.
    fn nearest(&self, places: usize) -> Option<Text>
        requires { places ≤ 6 }
        ensures { IfSome result (λ text. Shown self.now.value text.bytes) }
    {
        let shifted = self.size * std::num::nearest_u32_to_f32(tens(places));
        let digits = float::cut_u64(float::nearest_whole(shifted));
        self.attempt(digits, places)
            .or_else(|| self.attempt(digits.checked_sub(1)?, places))
    }

    // The shortest decimal that reads back as the number.
    fn decimal(&self) -> Option<Text>
        ensures { IfSome result (λ text. Shown self.now.value text.bytes) }
    {
        (0..=PLACES).find_map(|places| self.nearest(places))
    }

    fn say_sign(&self, out: &mut Out) {
        if self.negative {
            out.say("-");
        }
    }

    // About how large a number is that no short decimal gives: three digits after the point, where it can have a part behind one.
    fn say_about(&self, out: &mut Out) {
        out.say("~");
        self.say_sign(out);
        if self.size >= BEYOND {
            out.say("2^64+");
            return;
        }
        say_whole(out, float::cut_u64(self.size));
        if self.size < 8388608.0 {
            let part = float::cut_u64(float::remainder(self.size, 1.0) * 1000.0);
            out.say(".");
            out.say_bytes(&[digit(part / 100), digit(part / 10), digit(part)]);
        }
    }

    // 0x and eight digits, in JSON as a string: that is how a number is written that no decimal here gives.
    fn say_bits(&self, out: &mut Out) {
        let quote = if out.json { "\"" } else { "" };
        out.say(quote);
        out.say_bytes(&hex_text(self.bits));
        out.say(quote);
    }

    // In JSON a number that has no short decimal is written in full, where its digits fit; -0 has a point, so that its sign is read.
    fn say_long(&self, out: &mut Out) {
        if !out.json {
            self.say_about(out);
        } else if (self.size < 7.275957614183426e-12) | (self.size >= BEYOND) {
            self.say_bits(out);
        } else {
            self.say_sign(out);
            say_whole(out, float::cut_u64(self.size));
            say_exact(out, self.bits % 2147483648);
        }
    }

    fn say_finite(&self, out: &mut Out) {
        let Some(text) = self.decimal() else {
            self.say_long(out);
            return;
        };
        out.say(text.as_str());
        if out.json & self.negative & (self.size == 0.0) {
            out.say(".0");
        }
    }

    fn say_infinite(&self, out: &mut Out) {
        let quote = if out.json { "\"" } else { "" };
        out.say(quote);
        self.say_sign(out);
        out.say("inf");
        out.say(quote);
    }

    fn say(&self, out: &mut Out) {
        if float::is_finite(self.value) {
            self.say_finite(out);
        } else {
            self.say_infinite(out);
        }
        if !out.json {
            out.say(" ");
            self.say_bits(out);
        }
    }
}

// A number, in text with its bits; a NaN has none of its own.
pub fn number(out: &mut Out, before: &str, name: &str, x: f32) {
    out.key(before, name);
    match Signed::new(x) {
        Some(signed) => signed.say(out),
        None => out.say(if out.json { "\"nan\"" } else { "nan" }),
    }
}
