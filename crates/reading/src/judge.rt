//! The verdict on byte lists, worked out without the heap.
ghost use Rattle.std.specs.Prelude.{◌≡◌};
ghost use Rattle.reading.specs.ReadingRefusal.{told};
ghost use Rattle.reading.specs.Verdict.{refused};

use crate::bytes::Bytes;
use crate::fault::ReadingFault;
use crate::functions::Functions;
use crate::owners::Owners;
use layout::lists::Lists;

/// Rules 4 to 10, each over the whole program before the next.
pub fn judge(lists: Lists<'_>) -> Result<(), ReadingFault>
    ensures { told result ≡ refused lists.entry.nodes.now lists.entry.functions.now lists.entry.apps.now }
{
    let bytes = Bytes::new(lists)?;
    let tree = Owners::new(Functions::new(bytes))?;
    tree.codes_fit()?;
    let named = tree.named()?;
    tree.calls_fit()?;
    tree.named_once()?;
    named.scopes_fit()
}
