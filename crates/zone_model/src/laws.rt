//! Laws of every history, each the contract of a function that does nothing.

ghost use Rattle.zone_model.specs.Laws.{RefusedChangesNothing, FirstRefusal, UntouchedIsIdle, UntouchedStays, CommittedStays, PointerMoves, PointerIsLeast, WithinLimits, HistoriesAreKept, MovesAreAllowed};
ghost use Rattle.zone_model.specs.Local.{NoneGivesWay, OpenedNeedsNothing, ReadIsLocal, ReachIsRange};
ghost use Rattle.zone_model.specs.Counting.{OneIsCounted, IdleIsUncounted};
ghost use Rattle.zone_model.specs.Sessions.{MergeKeepsOrder};

/// A refused act changes nothing.
pub fn refused_changes_nothing()
    ensures { RefusedChangesNothing }
{}

/// The status of a refused act is the code of the first row of its command that holds.
pub fn first_refusal_holds()
    ensures { FirstRefusal }
{}

/// An act does nothing to a zone outside its reach, unless it closes the zone for another.
pub fn untouched_is_idle()
    ensures { UntouchedIsIdle }
{}

/// A zone outside an act's reach stays as it was, unless the act closes it for another.
pub fn untouched_stays()
    ensures { UntouchedStays }
{}

/// A committed block stays committed and reads the same until its zone is reset or goes Offline.
pub fn committed_stays()
    ensures { CommittedStays }
{}

/// A random write area moves only by a commit, a reset, a finish, or a Write, which moves it by as
/// few granules as it can.
pub fn pointer_moves()
    ensures { PointerMoves }
{}

/// The pointer of a zone with a random write area is the lowest boundary that covers what was
/// written and committed, and lets each Write end inside the area.
pub fn pointer_is_least()
    ensures { PointerIsLeast }
{}

/// The numbers of active zones, open zones and random write areas are within their limits.
pub fn within_limits()
    ensures { WithinLimits }
{}

/// At every place of a history the limits hold, pointers move only as allowed, and committed blocks
/// stay.
pub fn histories_are_kept()
    ensures { HistoriesAreKept }
{}

/// What an act does to a zone is allowed there by the table of transitions.
pub fn moves_are_allowed()
    ensures { MovesAreAllowed }
{}

/// If no other zone has to give way, the counts and the act's own zones alone decide.
pub fn none_gives_way()
    ensures { NoneGivesWay }
{}

/// A write to an open zone needs no resource.
pub fn opened_needs_nothing()
    ensures { OpenedNeedsNothing }
{}

/// Only its own zones decide whether a Read is refused.
pub fn read_is_local()
    ensures { ReadIsLocal }
{}

/// The zones of an act are a range of the drive's zones.
pub fn reach_is_range()
    ensures { ReachIsRange }
{}

/// An act that does a deed to one zone first closes the zone that gives way, and then counts what
/// its own zone uses.
pub fn one_is_counted()
    ensures { OneIsCounted }
{}

/// An act that does nothing to any zone leaves the counts unchanged.
pub fn idle_is_uncounted()
    ensures { IdleIsUncounted }
{}

/// Acts merged by an order of their queues are all of these acts, with each queue's in its own
/// order.
pub fn merge_keeps_order()
    ensures { MergeKeepsOrder }
{}
