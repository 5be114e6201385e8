ghost use Rattle.std.specs.Prelude.{◌≡◌, ◌+◌, ◌<◌, ◌^◌, OnOk, IfErr};
ghost use Rattle.drive_rules.specs.declared.deed.Deed.TheVariants as deed;
ghost use Rattle.drive_rules.specs.ZoneRows.{is_misplaced};
ghost use Rattle.drive_rules.specs.Deeds.{need_for};
ghost use Rattle.zone_cell.specs.Cells.{IsOf, TakesWrites, sight};
ghost use Rattle.zone_cell.specs.Deeds.{judgement, state_judgement, ClosesBy, HasSmallOffset};

use crate::cell::ZoneCell;
use crate::states::action_of;
use drive_rules::Deed;
use zns_types::{Code, Geometry, State};
use zone_limits::Need;
use zone_state::{Action, go};
use zrwa_commit::{admits, explicit};

// No resource.
const NOTHING: Need = Need {
    active: false,
    opened: false,
    window: false,
};

// The status with which a state refuses every write.
fn open_to_writes(state: State) -> Result<(), Code>
    ensures open { OnOk result (TakesWrites state) }
    ensures closed { IfErr result (ClosesBy state) }
{
    match state {
        State::Full => Err(Code::ZONE_FULL),
        State::ReadOnly => Err(Code::ZONE_READ_ONLY),
        State::Offline => Err(Code::ZONE_OFFLINE),
        _ => Ok(()),
    }
}

impl ZoneCell {
    /// What the deed needs, or the status with which the zone refuses it.
    pub fn check(&self, g: &Geometry, deed: Deed) -> Result<Need, Code>
        requires of { IsOf g.now.fields self.now }
        requires offset { HasSmallOffset deed }
        ensures { result ≡ judgement g.now.fields deed self.now }
    {
        match deed {
            Deed::Write { from, blocks } => self.check_write(g, from, blocks),
            Deed::Append { blocks } => self.check_append(g, blocks),
            Deed::Open { window } => self.check_open(g, window),
            Deed::Commit { last } => self.check_commit(g, last),
            _ => self.check_state(action_of(deed)),
        }
    }

    /// What a Write of `count` blocks starting at offset `from` needs, or the status with which the
    /// zone refuses it.
    pub fn check_write(&self, g: &Geometry, from: u64, count: u32) -> Result<Need, Code>
        requires { from < 2 ^ 32 }
        ensures { result ≡ judgement g.now.fields (deed.Write from count) self.now }
    {
        open_to_writes(self.state())?;
        if self.is_misplaced(g, from, count) {
            return Err(Code::ZONE_INVALID_WRITE);
        }
        if from + u64::from(count) > g.fields().capacity {
            return Err(Code::ZONE_BOUNDARY_ERROR);
        }
        Ok(self.need())
    }

    /// What an Append of `count` blocks needs, or the status with which the zone refuses it.
    pub fn check_append(&self, g: &Geometry, count: u32) -> Result<Need, Code>
        ensures { result ≡ judgement g.now.fields (deed.Append count) self.now }
    {
        open_to_writes(self.state())?;
        if self.has_window() {
            return Err(Code::INVALID_ZONE_OPERATION);
        }
        if self.pointer() + u64::from(count) > g.fields().capacity {
            return Err(Code::ZONE_BOUNDARY_ERROR);
        }
        Ok(self.need())
    }

    // What an Open needs, or the status with which the zone refuses it.
    fn check_open(&self, g: &Geometry, window: bool) -> Result<Need, Code>
        ensures { result ≡ judgement g.now.fields (deed.Open window) self.now }
    {
        if go(self.state(), Action::Open).is_err() {
            return Err(Code::INVALID_ZONE_STATE_TRANSITION);
        }
        if window && g.fields().windows == 0 {
            return Err(Code::INVALID_ZONE_OPERATION);
        }
        if window && self.pointer() % u64::from(g.fields().granule) != 0 {
            return Err(Code::INVALID_ZONE_OPERATION);
        }
        Ok(Need {
            window: window && !self.has_window(),
            ..self.need()
        })
    }

    // What a commit up to block `last` needs, or the status with which the zone refuses it.
    fn check_commit(&self, g: &Geometry, last: u64) -> Result<Need, Code>
        requires { IsOf g.now.fields self.now }
        ensures { result ≡ judgement g.now.fields (deed.Commit last) self.now }
    {
        if !self.has_window() {
            return Err(Code::INVALID_ZONE_OPERATION);
        }
        explicit(self.pointer(), last, g)?;
        Ok(Need {
            opened: self.state().is_closed(),
            ..NOTHING
        })
    }

    // The status with which the zone's state refuses an action that needs nothing.
    fn check_state(&self, action: Action) -> Result<Need, Code>
        ensures { result ≡ state_judgement action self.now.state }
    {
        if go(self.state(), action).is_err() {
            return Err(Code::INVALID_ZONE_STATE_TRANSITION);
        }
        Ok(NOTHING)
    }

    // Whether a Write doesn't start at the pointer, or misses the random write area if there is
    // one.
    fn is_misplaced(&self, g: &Geometry, from: u64, count: u32) -> bool
        requires { from < 2 ^ 32 }
        ensures { result ≡ is_misplaced g.now.fields (sight self.now) from (from + count) }
    {
        if self.has_window() {
            !admits(self.pointer(), from, count, g)
        } else {
            from != self.pointer()
        }
    }

    // What the zone needs to become opened.
    fn need(&self) -> Need
        ensures { result ≡ need_for (deed.Append 1) (sight self.now) }
    {
        let state = self.state();
        Need {
            active: state.is_empty(),
            opened: state.is_empty() || state.is_closed(),
            window: false,
        }
    }
}
