//! How a rule refuses.
ghost use Rattle.std.specs.Prelude.{◌≡◌, ℕ, Bool, ◌<◌};
ghost use Rattle.std.specs.Option.{option_map};
ghost use Rattle.levels.specs.Scan.{Tells, lowest};
ghost use Rattle.levels.specs.declared.refusal.Refusal.{Refusal};
ghost use Rattle.reading.specs.ReadingRefusal.{told, Names};

use crate::fault::ReadingFault;
use levels::scan::lowest;

// Called once for each rule, since each is named apart, for its own verdict in the specs.
/// Refuses with the fault of the lowest place below n at which a rule is broken, if there is one.
pub fn refuse_where<F: Fn(u16) -> bool, G: Fn(u16) -> ReadingFault>(
    n: u16,
    broken: F,
    fault: G,
) -> Result<(), ReadingFault>
    requires asked { F.IsAlwaysCallable broken }
    requires named { (i : ℕ) → i < n → G.pre fault i }
    ensures { (breaks : ℕ → Bool) (refusal : ℕ → Refusal) → Tells n (F.post broken) breaks → Names n (G.post fault) refusal → told result ≡ option_map refusal (lowest n breaks) }
{
    // What is found is the failure here, which no method of `Option` says more plainly.
    match lowest(n, broken) {
        None => Ok(()),
        Some(i) => Err(fault(i)),
    }
}
