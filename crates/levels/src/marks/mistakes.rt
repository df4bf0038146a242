//! The four mistakes that keep marks from being a lattice.
ghost use Rattle.std.specs.Prelude.{◌≡◌, ℕ, Bool, length};
ghost use Rattle.levels.specs.Scan.{Tells};
ghost use Rattle.levels.specs.Marks.{unmarked, mutual_marks, broken_chain, no_bound, some_level, is_lattice};

use crate::marks::Marks;
use crate::scan::lowest;

impl<'a> Marks<'a> {
    // Whether a test passes at some level.
    fn some_level<F: Fn(u16) -> bool>(self, test: F) -> bool
        requires { F.IsAlwaysCallable test }
        ensures { (passes : ℕ → Bool) → Tells (length self.entry.rows.now) (F.post test) passes → result ≡ some_level self.entry.rows.now passes }
    {
        lowest(self.count(), test).is_some()
    }

    // Whether a level lacks its own mark.
    fn lacks_own(self, i: u16) -> bool
        ensures { result ≡ unmarked self.entry.rows.now i }
    {
        !self.marked(i, i)
    }

    // Whether a level and another one mark each other.
    fn has_mutual(self, i: u16) -> bool
        ensures { result ≡ some_level self.entry.rows.now (mutual_marks self.entry.rows.now i) }
    {
        self.some_level(|j| self.marked(i, j) && self.marked(j, i) && i != j)
    }

    // Whether a chain that begins with two levels is broken.
    fn breaks_after(self, i: u16, j: u16) -> bool
        ensures { result ≡ some_level self.entry.rows.now (broken_chain self.entry.rows.now i j) }
    {
        self.some_level(|k| self.marked(i, j) && self.marked(j, k) && !self.marked(i, k))
    }

    // Whether a chain that begins with a level is broken.
    fn breaks(self, i: u16) -> bool
        ensures { result ≡ some_level self.entry.rows.now (λ j. some_level self.entry.rows.now (broken_chain self.entry.rows.now i j)) }
    {
        self.some_level(|j| self.breaks_after(i, j))
    }

    // Whether two levels have no join or no meet.
    fn lack_bound(self, i: u16, j: u16) -> bool
        ensures { result ≡ no_bound self.entry.rows.now i j }
    {
        !(self.bound(true, i, j).is_some() && self.bound(false, i, j).is_some())
    }

    // Whether a level has no join or no meet with some level.
    fn lacks_bound(self, i: u16) -> bool
        ensures { result ≡ some_level self.entry.rows.now (no_bound self.entry.rows.now i) }
    {
        self.some_level(|j| self.lack_bound(i, j))
    }

    /// Whether the marks are a lattice: no level and no levels make a mistake.
    pub fn is_lattice(self) -> bool
        ensures { result ≡ is_lattice self.entry.rows.now }
    {
        !self.some_level(|i| self.lacks_own(i))
            && !self.some_level(|i| self.has_mutual(i))
            && !self.some_level(|i| self.breaks(i))
            && !self.some_level(|i| self.lacks_bound(i))
    }
}
