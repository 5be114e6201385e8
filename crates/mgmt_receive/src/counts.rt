ghost use Rattle.std.specs.Prelude.{◌≡◌, ◌≤◌, length, take};
ghost use Rattle.mgmt_receive.specs.Receiving.{count_wanted};

use crate::descriptors::Gave;
use crate::filters::is_wanted;
use zns_types::State;
use zone_cell::ZoneCell;

// The number of these zones that are wanted.
fn count_wanted(cells: &[ZoneCell], wanted: Option<State>) -> usize
    ensures { result ≡ count_wanted wanted cells.now }
{
    let mut count = 0;
    for i in 0..cells.len() {
        count += usize::from(is_wanted(wanted, cells[i].state()));
    }
    count
}

/// The number of zones that are wanted, given how many of those seen so far were. Only the
/// remaining cells are looked at, and none if all are wanted.
pub fn count_all(cells: &[ZoneCell], wanted: Option<State>, gave: Gave) -> usize
    requires within { gave.seen ≤ length cells.now }
    requires given { gave.given ≡ count_wanted wanted (take gave.seen cells.now) }
    ensures { result ≡ count_wanted wanted cells.now }
{
    if wanted.is_none() {
        return cells.len();
    }
    gave.given + count_wanted(&cells[gave.seen..], wanted)
}
