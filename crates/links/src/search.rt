//! The lowest record, or pair of records, at which a test fails.
ghost use Rattle.std.specs.Prelude.{◌≡◌, ℕ, ◌<◌, Bool, Option};
ghost use Rattle.links.specs.Verdict.{failing, failing2};

/// The lowest number below `count` at which a test fails.
pub fn first_failing<T: Fn(u32) -> bool>(count: u32, test: T) -> Option<u32>
    requires { T.IsAlwaysCallable test }
    ensures { (t : ℕ → Bool) → ((i : ℕ) (b : Bool) → i < count → T.post test i b → b ≡ t i) → result ≡ failing count t }
{
    (0..count).find(|i| !test(*i))
}

/// The lowest pair at which a test fails: its first number is below `count`, and its second is what `second` finds for that.
pub fn first_pair<S: Fn(u32) -> Option<u32>>(count: u32, second: S) -> Option<(u32, u32)>
    requires { S.IsAlwaysCallable second }
    ensures { (l : ℕ) (t : ℕ → ℕ → Bool) → ((i : ℕ) (o : Option ℕ) → i < count → S.post second i o → o ≡ failing l (t i)) → result ≡ failing2 count l t }
{
    for i in 0..count {
        if let Some(j) = second(i) {
            return Some((i, j));
        }
    }
    None
}
