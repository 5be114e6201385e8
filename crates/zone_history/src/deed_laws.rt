ghost use Rattle.zone_history.specs.Moves.{DeedMovesPointer, PointerIsLeast, DeedKeepsCommitted, DeedIsAllowed};

/// A deed moves the pointer of a zone with a random write area only by a commit, a reset, a finish,
/// or a Write past the end of the area, which moves it by the fewest granules that let the Write
/// end inside.
pub fn deed_moves_pointer()
    ensures { DeedMovesPointer }
{}

/// The pointer of a zone with a random write area is the least multiple of the granule that covers
/// what was written before the area was asked for, is past each commit, and lets each Write end
/// inside the area.
pub fn pointer_is_least()
    ensures { PointerIsLeast }
{}

/// A committed block stays committed and reads the same, until its zone is reset or goes Offline.
pub fn deed_keeps_committed()
    ensures { DeedKeepsCommitted }
{}

/// The table of transitions allows each deed that the zone itself didn't refuse.
pub fn deed_is_allowed()
    ensures { DeedIsAllowed }
{}
