ghost use Rattle.std.specs.Prelude.{◌≡◌, IsTrue, IsOk};
ghost use Rattle.zone_state.specs.Transitions.{go as allowed};
ghost use Rattle.zone_cell.specs.Cells.{IsOf, MayAsk, after_open, after_excursion, after_action};

use crate::cell::ZoneCell;
use crate::states::after;
use zns_types::Geometry;
use zone_state::Action;

impl ZoneCell {
    /// Applies an action to the zone. An Open may ask for a random write area. For a write or a
    /// commit, this changes the state alone.
    pub fn turn(&mut self, g: &Geometry, action: Action, window: bool)
        requires kept { IsOf g.now.fields self.old }
        requires allowed { IsOk (allowed action self.old.state) }
        requires asks { IsTrue window → MayAsk g.now.fields action self.old }
        ensures done { self.new ≡ after_action g.now.fields action window self.old }
        ensures kept { IsOf g.now.fields self.new }
    {
        match action {
            Action::Reset => self.clear(),
            Action::Finish => self.lead(after(action, self.state()), g.fields().capacity),
            Action::Excursion(kind) => self.excurse(g, kind),
            Action::Open => self.open(window),
            _ => self.lead(after(action, self.state()), self.pointer()),
        }
    }

    // Opens the zone, with a random write area if `window` asks for one.
    fn open(&mut self, window: bool)
        ensures { self.new ≡ after_open window self.old }
    {
        self.give_window(window);
        self.lead(after(Action::Open, self.state()), self.pointer());
    }

    // An excursion: the controller itself acts on the zone.
    fn excurse(&mut self, g: &Geometry, kind: u8)
        requires { IsOf g.now.fields self.old }
        ensures { self.new ≡ after_excursion g.now.fields kind self.old }
    {
        let state = after(Action::Excursion(kind), self.state());
        let pointer = if kind == 1 {
            g.fields().capacity
        } else {
            self.pointer()
        };
        self.note(kind);
        self.lead(state, pointer);
    }
}
