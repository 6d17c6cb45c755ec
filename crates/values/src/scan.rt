// Where a run of bytes of one kind ends.
ghost use Rattle.std.specs.Prelude.{◌≡◌, ℕ, Bool, take, drop};
ghost use Rattle.values.specs.Expand.{front};
ghost use Rattle.values.specs.Tests.{Tests};

// The bytes at the front that pass a test, and the bytes after them.
pub(crate) fn split_run<F: Fn(u8) -> bool>(s: &[u8], test: F) -> (&[u8], &[u8])
    requires { F.IsAlwaysCallable test }
    ensures run { (p : ℕ → Bool) → Tests (F.post test) p → result.0.now ≡ take (front p s.now) s.now }
    ensures rest { (p : ℕ → Bool) → Tests (F.post test) p → result.1.now ≡ drop (front p s.now) s.now }
{
    s.split_at(s.iter().position(|b| !test(*b)).unwrap_or(s.len()))
}
