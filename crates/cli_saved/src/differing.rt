// How far two lists of bytes are apart.
ghost use Rattle.std.specs.Prelude.{◌≡◌, ◌==◌, length, not};
ghost use Rattle.std.specs.List.{count_by, zip};
ghost use Rattle.cli_saved.specs.Differing.{differing as differing_of};

// How many pairs differ.
fn pairs_apart(a: &[u8], b: &[u8]) -> usize
    ensures { result ≡ count_by (λ p. not (p.0 == p.1)) (zip a.now b.now) }
{
    a.iter().zip(b).filter(|(x, y)| **x != **y).count()
}

// How many bytes of a are not those of b at the same place.
#[tactic(auto, using(crate::specs::Differing::counted_pairs), unfolding(crate::specs::Differing::differing))]
pub fn differing(a: &[u8], b: &[u8]) -> usize
    requires { length b.now ≡ length a.now }
    ensures { result ≡ differing_of a.now b.now }
{
    pairs_apart(a, b)
}
