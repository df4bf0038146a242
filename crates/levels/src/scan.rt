//! Every number below a bound, and the lowest of them, at which a test passes.
ghost use Rattle.std.specs.Prelude.{◌≡◌, ℕ, Bool, ◌<◌, IfSome};
ghost use Rattle.levels.specs.Scan.{Tells, every, lowest};

// The premise of each is what the language asks of a function that calls a closure.
/// The lowest number below `n` at which the test passes.
pub fn lowest<F: Fn(u16) -> bool>(n: u16, test: F) -> Option<u16>
    requires { F.IsAlwaysCallable test }
    ensures first { (passes : ℕ → Bool) → Tells n (F.post test) passes → result ≡ lowest n passes }
    ensures below { IfSome result (λ i. i < n) }
{
    // Handed on by name, so that a must-fail edit can hand on another place.
    let i = (0..n).find(|i| test(*i))?;
    Some(i)
}

/// Whether the test passes at every number below `n`.
pub fn every<F: Fn(u16) -> bool>(n: u16, test: F) -> bool
    requires { F.IsAlwaysCallable test }
    ensures { (passes : ℕ → Bool) → Tells n (F.post test) passes → result ≡ every n passes }
{
    (0..n).all(|i| test(i))
}
