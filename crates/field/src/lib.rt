// Fields of a lent slice of bytes: little-endian numbers, finite floats, which are also written, and names of 24 bytes.
#![tactic(auto)]

mod index;
mod names;

ghost use Rattle.std.specs.Prelude.{◌≡◌, ◌+◌, ◌*◌, ◌<◌, ◌≤◌, true, length, drop, ◌++◌};
ghost use Rattle.field.specs.Read.{byte_at, u16_at, u32_at, float_at, finite_at, finite_row};
ghost use Rattle.field.specs.Name.{name_bytes, name_at, same_name, empty_name};
ghost use Rattle.field.specs.Word.{word_at};
ghost use Rattle.field.specs.Bucket.{buckets, bucket_of};
ghost use Rattle.field.specs.Write.{put_float};
ghost use Rattle.float.specs.Numbers.{finite};

pub use index::blank_index;
pub use names::Names;

fn wide(x: u8) -> usize
    ensures { (result ≡ x) × (result < 256) }
{
    x as usize
}

// A byte. The bound is part of the contract, so that sums of fields close at the caller.
pub fn byte_at(s: &[u8], at: usize) -> usize
    requires { at < length s.now }
    ensures { (result ≡ byte_at s.now at) × (result < 256) }
{
    wide(s[at])
}

// A u16, with its bound likewise.
#[tactic(auto, unfolding(crate::specs::Read::u16_at))]
pub fn u16_at(s: &[u8], at: usize) -> usize
    requires { at + 1 < length s.now }
    ensures { (result ≡ u16_at s.now at) × (result < 65536) }
{
    byte_at(s, at) + byte_at(s, at + 1) * 256
}

fn wide32(x: u8) -> u32
    ensures { (result ≡ x) × (result < 256) }
{
    x as u32
}

// A u32, summed in its own width: so the compiler makes one load of it, and loops over u32s go several at a time.
#[tactic(auto, using(crate::specs::Read::u32_bytes))]
pub fn u32_at(s: &[u8], at: usize) -> u32
    requires { at + 3 < length s.now }
    ensures { result ≡ u32_at s.now at }
{
    wide32(s[at])
        + wide32(s[at + 1]) * 256
        + wide32(s[at + 2]) * 65536
        + wide32(s[at + 3]) * 16777216
}

// Whether an f32 is finite, seen from its pattern: the exponent is not all ones.
pub fn finite_at(s: &[u8], at: usize) -> bool
    requires { at + 3 < length s.now }
    ensures { result ≡ finite_at s.now at }
{
    u32_at(s, at) % 2147483648 / 8388608 != 255
}

pub fn f32_at(s: &[u8], at: usize) -> f32
    requires { (at + 3 < length s.now) × (finite_at s.now at ≡ true) }
    ensures { result ≡ float_at s.now at }
{
    f32::from_bits(u32_at(s, at))
}

// Writes a finite f32.
pub fn put_f32(out: &mut [u8], at: usize, x: f32)
    requires { (at + 3 < length out.old) × (finite x ≡ true) }
    ensures { out.new ≡ put_float out.old at x }
{
    let n = f32::to_bits(x);
    out[at] = (n % 256) as u8;
    out[at + 1] = (n / 256 % 256) as u8;
    out[at + 2] = (n / 256 / 256 % 256) as u8;
    out[at + 3] = (n / 256 / 256 / 256 % 256) as u8;
}

// Whether n f32s in a row are finite. No early way out: the loop then goes several at a time.
#[tactic(auto, using(laws::specs::Below::all_none, laws::specs::Below::all_step), unfolding(crate::specs::Read::finite_row, crate::specs::Read::finite_in))]
pub fn finite_row(s: &[u8], at: usize, n: usize) -> bool
    requires { at + n * 4 ≤ length s.now }
    ensures { result ≡ finite_row s.now at n }
{
    let mut ok = true;
    for k in 0..n {
        ok &= finite_at(s, at + k * 4);
    }
    ok
}

// ---- names

// How many bytes a name has.
pub const NAME_BYTES: usize = 24;

pub fn name_at<'a>(s: &'a [u8], at: usize) -> &'a [u8]
    requires { at + name_bytes ≤ length s.now }
    ensures { result.now ≡ name_at s.now at }
{
    &s[at..at + NAME_BYTES]
}

// Eight bytes as one number.
#[tactic(auto, unfolding(crate::specs::Word::word_at))]
fn word_at(s: &[u8], at: usize) -> u64
    requires { at + 8 ≤ length s.now }
    ensures { result ≡ word_at s.now at }
{
    (u32_at(s, at) as u64) + (u32_at(s, at + 4) as u64) * 4294967296
}

pub fn empty_name(s: &[u8], at: usize) -> bool
    requires { at + name_bytes ≤ length s.now }
    ensures { result ≡ empty_name s.now at }
{
    (word_at(s, at) == 0) & (word_at(s, at + 8) == 0) & (word_at(s, at + 16) == 0)
}

// Whether two fields hold one name. Left at the first word that differs, since most pairs are of two names.
// Stays by words: a comparison of the two slices, tried, takes nearly twice as long.
pub fn same_name(s: &[u8], i: usize, t: &[u8], j: usize) -> bool
    requires { (i + name_bytes ≤ length s.now) × (j + name_bytes ≤ length t.now) }
    ensures { result ≡ same_name s.now i t.now j }
{
    word_at(s, i) == word_at(t, j)
        && word_at(s, i + 8) == word_at(t, j + 8)
        && word_at(s, i + 16) == word_at(t, j + 16)
}

// How many buckets names have.
pub const BUCKETS: usize = 256;

// 2^32 over the golden ratio.
const GOLDEN: u64 = 2654435769;

// The bucket of a name.
fn bucket_of(s: &[u8], at: usize) -> usize
    requires { at + name_bytes ≤ length s.now }
    ensures { (result ≡ bucket_of s.now at) × (result < buckets) }
{
    let front = std::num::wrapping_add_u64(word_at(s, at), word_at(s, at + 8));
    let sum = std::num::wrapping_add_u64(front, word_at(s, at + 16));
    let half = (sum % 4294967296 + sum / 4294967296) % 4294967296;
    (half * GOLDEN % 4294967296 / 16777216) as usize
}

// A slice at the start of another; what stands behind it stays.
pub fn copy(from: &[u8], to: &mut [u8])
    requires { length from.now ≤ length to.old }
    ensures { to.new ≡ from.now ++ drop (length from.now) to.old }
{
    to[..from.len()].copy_from_slice(from);
}
