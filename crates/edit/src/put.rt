// Keys that are the same, and a key put in another's place.
ghost use Rattle.std.specs.Prelude.{◌≡◌, set};
ghost use Rattle.edit.specs.Keys.{Within, keys, same_key};

use curve::Key;

// Stays by hand: bit for bit, which no derived equality is, since -0 is not +0.
#[tactic(auto, unfolding(crate::specs::Keys::same_key))]
pub fn same_key(a: Key, b: Key) -> bool
    ensures { result ≡ same_key a b }
{
    float::same_bits(a.frame, b.frame)
        & float::same_bits(a.value, b.value)
        & float::same_bits(a.slope, b.slope)
}

// Stays over three slices: C lends them apart, and they need not be one length.
pub fn put_key(frames: &mut [f32], values: &mut [f32], slopes: &mut [f32], at: usize, k: Key)
    requires { Within (keys frames.old values.old slopes.old) at }
    ensures frames_after { frames.new ≡ set frames.old at k.frame }
    ensures values_after { values.new ≡ set values.old at k.value }
    ensures slopes_after { slopes.new ≡ set slopes.old at k.slope }
{
    frames[at] = k.frame;
    values[at] = k.value;
    slopes[at] = k.slope;
}
