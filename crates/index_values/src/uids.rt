// Whether numbers are all different.
ghost use Rattle.std.specs.Prelude.{◌≡◌, take};
ghost use Rattle.index_values.specs.Different.{member, different};

// Whether x is one of them.
#[tactic(auto, unfolding(crate::specs::Different::member))]
fn among(t: &[u64], x: u64) -> bool
    ensures { result ≡ member x t.now }
{
    t.iter().any(|y| x == *y)
}

// Whether all are different. From the last to the first: one that is below all after it needs no look at them.
fn are_different(t: &[u64]) -> bool
    ensures { result ≡ different t.now }
{
    let mut low = u64::MAX;
    // A loop, since `all` has no place for what goes from number to number.
    for i in (0..t.len()).rev() {
        let x = t[i];
        if x < low {
            low = x;
        } else if among(&t[i + 1..], x) {
            return false;
        }
    }
    true
}

// Whether the first n, as far as there are any, are all different.
pub fn unique(t: &[u64], n: usize) -> bool
    ensures { result ≡ different (take n t.now) }
{
    are_different(&t[..n.min(t.len())])
}
