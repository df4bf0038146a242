//! Marks of an order of at most 16 levels, and the scans for their mistakes and bounds.
ghost use Rattle.std.specs.Prelude.{◌≡◌, ◌≤◌, true, false, length, take, slice_index, MatchResult};
ghost use Rattle.levels.specs.Marks.{marked, row_fits, well_shaped, toward, past_both};
ghost use Rattle.levels.specs.declared.table.TableFault.TheVariants.{Shape};

use crate::scan::every;
use crate::table::TableFault;

pub mod bounds;
pub mod mistakes;

/// Rows of marks: bit j of row i marks that level i is at or below level j. There are 1 to 16, and they mark levels that have a row.
#[derive(Clone, Copy)]
pub struct Marks<'a> {
    pub(crate) rows: &'a [u16],
    ghost shaped: { well_shaped rows.now ≡ true },
    ghost few: { length rows.now ≤ 16 },
}

// A row, and 0 where there is none.
fn row(rows: &[u16], i: u16) -> u16
    ensures { result ≡ slice_index rows.now i }
{
    rows.get(i as usize).copied().unwrap_or(0)
}

fn well_shaped(rows: &[u16]) -> bool
    ensures { result ≡ well_shaped rows.now }
{
    let count = rows.len();
    0 < count
        && count <= 16
        && every(
            count as u16,
            |i| u32::from(row(rows, i)) < 1 << count as u32,
        )
}

impl<'a> Marks<'a> {
    /// Refuses 0 or over 16 rows, and marks of levels without a row.
    pub fn new(rows: &'a [u16]) -> Result<Marks<'a>, TableFault>
        ensures { MatchResult result (λ m. m.rows.now ≡ rows.now) (λ e. (e ≡ Shape) × (well_shaped rows.now ≡ false)) }
    {
        if well_shaped(rows) {
            Ok(Marks { rows })
        } else {
            Err(TableFault::Shape)
        }
    }

    /// The number of levels.
    pub fn count(self) -> u16
        ensures { result ≡ length self.entry.rows.now }
    {
        self.rows.len() as u16
    }

    /// The rows at the front of a table.
    pub fn table(self) -> [u16; 16]
        ensures { take (length self.entry.rows.now) result ≡ self.entry.rows.now }
    {
        // Fixed memory: a table wants no heap.
        let mut table = [0; 16];
        table[..self.rows.len()].copy_from_slice(self.rows);
        table
    }

    /// Whether level i is marked at or below level j.
    pub fn marked(self, i: u16, j: u16) -> bool
        ensures { result ≡ marked self.entry.rows.now i j }
    {
        i < self.count() && j < self.count() && (self.rows[i as usize] >> j) % 2 == 1
    }

    // Which way is a `bool` in the definitions too: an enum would be turned into it at each law.
    fn toward(self, up: bool, i: u16, j: u16) -> bool
        ensures { result ≡ toward up self.entry.rows.now i j }
    {
        if up {
            self.marked(i, j)
        } else {
            self.marked(j, i)
        }
    }

    fn past_both(self, up: bool, a: u16, b: u16, d: u16) -> bool
        ensures { result ≡ past_both up self.entry.rows.now a b d }
    {
        self.toward(up, a, d) && self.toward(up, b, d)
    }
}
