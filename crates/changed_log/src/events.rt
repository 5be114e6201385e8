ghost use Rattle.std.specs.Prelude.{◌≡◌, ◌↔◌, true, ◌∷◌, length, IfSome, IfNone};
ghost use Rattle.changed_log.specs.Marks.{Marks, IsSound, at_start, with_enabled, fired_by, after_excursion, told_to, after_request, after_read};

use crate::waited::Waited;
use arrayvec::ArrayVec;
use std::marker::Model;

/// The marks that govern events of changed zones, and the Asynchronous Event Requests that wait, at
/// most four (NVM Express Base Specification 2.0, 5.2; Zoned Namespace Command Set Specification
/// 1.1, 4.1.3).
#[derive(Drop)]
pub struct Events {
    enabled: bool,
    masked: bool,
    pending: bool,
    waiting: ArrayVec<u16, 4>,
}

impl Model for Events {
    ghost use Rattle.changed_log.specs.Marks.{Marks, IsSound};

    ghost Value = { Marks };

    ghost view = { λ e. record { enabled = e.enabled; masked = e.masked; pending = e.pending; waiting = e.waiting.items } };

    ghost invariant = { λ e. IsSound (record { enabled = e.enabled; masked = e.masked; pending = e.pending; waiting = e.waiting.items }) };
}

impl Events {
    /// The events of a drive at its start: not enabled, with nothing waiting.
    pub fn new() -> Events
        ensures { result ≡ at_start }
    {
        Events {
            enabled: false,
            masked: false,
            pending: false,
            waiting: ArrayVec::new(),
        }
    }

    /// Enables or disables events: bit 27 of the feature Asynchronous Event Configuration. A
    /// pending event stays pending.
    pub fn enable(&mut self, on: bool)
        ensures marks { self.new ≡ with_enabled on self.old }
        ensures sound { IsSound self.new }
    {
        self.enabled = on;
    }

    /// Whether events are enabled.
    pub fn enabled(&self) -> bool
        ensures { result ≡ self.now.enabled }
    {
        self.enabled
    }

    /// Takes an Asynchronous Event Request by its command identifier. A pending event completes it,
    /// and masks further events. Otherwise the request waits after the others, unless four wait
    /// already; then nothing changes.
    pub fn wait(&mut self, cid: u16) -> Waited
        ensures answer { result ≡ told_to self.old }
        ensures fired { (result ≡ Waited.Fired) ↔ (self.old.pending ≡ true) }
        ensures limit { (result ≡ Waited.Limit) ↔ (length self.old.waiting ≡ 4) }
        ensures marks { self.new ≡ after_request cid self.old }
        ensures unchanged { result ≡ Waited.Limit → self.new ≡ self.old }
        ensures sound { IsSound self.new }
    {
        if self.pending {
            self.pending = false;
            self.masked = true;
            Waited::Fired
        } else if self.waiting.is_full() {
            Waited::Limit
        } else {
            self.waiting.push(cid);
            Waited::Kept
        }
    }

    /// Takes note of an excursion that succeeded. If events are enabled and not masked, this
    /// completes the oldest waiting request, returns its command identifier and masks further
    /// events; if none waits, an event becomes pending.
    pub fn fire(&mut self) -> Option<u16>
        ensures answer { result ≡ fired_by self.old }
        ensures oldest { IfSome result (λ cid. self.old.waiting ≡ cid ∷ self.new.waiting) }
        ensures kept { IfNone result (self.new.waiting ≡ self.old.waiting) }
        ensures marks { self.new ≡ after_excursion self.old }
        ensures sound { IsSound self.new }
    {
        if !self.enabled || self.masked {
            None
        } else if self.waiting.is_empty() {
            self.pending = true;
            None
        } else {
            self.masked = true;
            Some(self.waiting.remove(0))
        }
    }

    /// Takes note of a read that clears the log page: nothing is masked or pending any more.
    pub fn read_clear(&mut self)
        ensures marks { self.new ≡ after_read self.old }
        ensures sound { IsSound self.new }
    {
        self.masked = false;
        self.pending = false;
    }
}
