/// Hooks that are called while commands are served. A gate can't change any answer.
pub trait Gate {
    /// Called before a command takes a lock word of its own. `number` is the command's number in
    /// its queue, from 0. The queue may hold words that it kept from the command before.
    fn before(&self, queue: u16, number: u32);

    /// Called if a command's bytes have moved before the book's lock word is taken, with the same
    /// number.
    fn moved(&self, queue: u16, number: u32);
}

/// A gate that does nothing.
pub struct FreeGate;

impl Gate for FreeGate {
    fn before(&self, _queue: u16, _number: u32) {}

    fn moved(&self, _queue: u16, _number: u32) {}
}
