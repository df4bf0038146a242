//! What each node comes to by its namings.
ghost use Rattle.std.specs.Prelude.{◌≡◌, ℕ, ◌<◌, length, slice_index_or};
ghost use Rattle.layout.specs.Tree.{target};
ghost use Rattle.reading.specs.Folding.{Steps, step_at, folded};
ghost use Rattle.reading.specs.Meaning.{code_of};

use crate::bytes::Bytes;
use layout::parts::Part;

// Takes the step of node i at the part.
fn note<T: Copy, F: Fn(T, u16) -> T>(each: &mut [T; 4096], part: Option<Part>, i: u16, step: &F)
    requires { F.IsAlwaysCallable step.now }
    ensures { (f : T → ℕ → T) → Steps (F.post step.now) f → (j : ℕ) (d : T) → j < 4096 → slice_index_or each.new j d ≡ step_at f i (target part) j (slice_index_or each.old j d) }
{
    if let Some(Part { node, .. }) = part {
        // By index: after `get_mut` a proof knows nothing of the other nodes.
        if node < 4096 {
            each[node as usize] = step(each[node as usize], i);
        }
    }
}

impl<'a> Bytes<'a> {
    /// Takes what stands at each node a step on for each naming of the node, in the order of the nodes that name.
    pub fn by_namings<T: Copy, F: Fn(T, u16) -> T>(&self, each: &mut [T; 4096], step: F)
        requires { F.IsAlwaysCallable step }
        ensures { (f : T → ℕ → T) → Steps (F.post step) f → (j : ℕ) (d : T) → j < 4096 → slice_index_or each.new j d ≡ folded f (slice_index_or each.old j d) (code_of self.now) (length (code_of self.now).nodes) j }
    {
        // By number: nodes are decoded as they are asked for, since the verdict has no heap for a list of them.
        for i in 0..self.node_count() {
            let parts = self.node(i).parts();
            note(each, parts.0, i, &step);
            note(each, parts.1, i, &step);
            note(each, parts.2, i, &step);
        }
    }
}
