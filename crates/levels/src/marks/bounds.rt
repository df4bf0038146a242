//! Joins and meets, the lowest and the highest level, as the marks say.
ghost use Rattle.std.specs.Prelude.{◌≡◌, ◌<◌, IfSome};
ghost use Rattle.levels.specs.Bounds.{HoldsRow, HoldsBounds};
ghost use Rattle.levels.specs.Marks.{follows, is_bound, bound, is_end, end};

use crate::marks::Marks;
use crate::scan::{every, lowest};

impl<'a> Marks<'a> {
    // The way and the levels are not a struct: one would be made at each call, no plainer.
    // Whether d, if it lies past both a and b, lies past c.
    fn follows(self, up: bool, a: u16, b: u16, c: u16, d: u16) -> bool
        ensures { result ≡ follows up self.entry.rows.now a b c d }
    {
        !self.past_both(up, a, b, d) || self.toward(up, c, d)
    }

    // Whether c is the first that lies past both a and b.
    fn is_bound(self, up: bool, a: u16, b: u16, c: u16) -> bool
        ensures { result ≡ is_bound up self.entry.rows.now a b c }
    {
        self.past_both(up, a, b, c) && every(self.count(), |d| self.follows(up, a, b, c, d))
    }

    /// Upwards the join of two levels, downwards their meet.
    pub fn bound(self, up: bool, a: u16, b: u16) -> Option<u16>
        ensures value { result ≡ bound up self.entry.rows.now a b }
        ensures small { IfSome result (λ c. c < 16) }
    {
        lowest(self.count(), |c| self.is_bound(up, a, b, c))
    }

    // Whether all levels lie that way from c.
    fn is_end(self, up: bool, c: u16) -> bool
        ensures { result ≡ is_end up self.entry.rows.now c }
    {
        every(self.count(), |d| self.toward(up, c, d))
    }

    /// Upwards the lowest level, downwards the highest.
    pub fn end(self, up: bool) -> Option<u16>
        ensures value { result ≡ end up self.entry.rows.now }
        ensures small { IfSome result (λ c. c < 16) }
    {
        lowest(self.count(), |c| self.is_end(up, c))
    }

    // By index, here and below: `array::from_fn` would go over all sixteen places, and most tables have few levels.
    // The bounds of a level with each level.
    fn bound_row(self, up: bool, a: u16) -> [u8; 16]
        ensures { HoldsRow up self.entry.rows.now a result }
    {
        let mut held = [0; 16];
        for b in 0..self.count() {
            held[b as usize] = self.bound(up, a, b).unwrap_or(0) as u8;
        }
        held
    }

    /// The bounds of each two levels.
    pub fn bound_table(self, up: bool) -> [[u8; 16]; 16]
        ensures { HoldsBounds up self.entry.rows.now result }
    {
        let mut held = [[0; 16]; 16];
        for a in 0..self.count() {
            held[a as usize] = self.bound_row(up, a);
        }
        held
    }
}
