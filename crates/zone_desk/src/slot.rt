use crate::kept_book::KeptBook;
use zone_cell::ZoneCell;

/// What is in a place of the table: the book or a zone's cell, or `Away` while a pass has it.
#[derive(Drop)]
pub enum Slot {
    Away,
    Ledger(KeptBook),
    Zone(ZoneCell),
}
