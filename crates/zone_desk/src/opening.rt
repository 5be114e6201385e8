//! The places of a new desk.
ghost use Rattle.std.specs.Prelude.{◌≡◌, ◌∷◌, IfOk, map};
ghost use Rattle.zone_desk.specs.declared.slot.Slot.TheVariants.{Ledger, Zone};

use crate::kept_book::KeptBook;
use crate::slot::Slot;
use solo_drive::Book;
use std::alloc::Global;
use zns_io::NoMemory;
use zone_cell::ZoneCell;

/// The book's place, and then one for each cell.
pub(crate) fn places(alloc: Global, book: Book, cells: Vec<ZoneCell>) -> Result<Vec<Slot>, NoMemory>
    ensures { IfOk result (λ v. v.items ≡ Ledger book ∷ map (λ c. Zone c) cells.items) }
{
    let mut places = Vec::new(alloc);
    places.push(Slot::Ledger(KeptBook::new(alloc, book)?))?;
    for cell in cells {
        places.push(Slot::Zone(cell))?;
    }
    Ok(places)
}
