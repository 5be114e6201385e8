ghost use Rattle.std.specs.Prelude.{◌≡◌, ◌<◌, ◌++◌, ◌∷◌, [], true, IfOk, OnOk, All, length};
ghost use Rattle.zone_model.specs.declared.act.Act.{Act};
ghost use Rattle.zone_model.specs.Sessions.{IsOrder, merged, own_order};
ghost use Rattle.zns_program.specs.Queues.{AreQueues};

use session_file::Order;
use std::alloc::Global;
use std::collections::VecDeque;
use std::marker::Model;
use zns_io::NoMemory;
use zone_model::Act;

// The acts of a queue that remain, in order.
#[derive(Drop)]
struct Queue {
    acts: VecDeque<Act>,
}

impl Model for Queue {
    ghost use Rattle.std.specs.Prelude.{List};
    ghost use Rattle.zone_model.specs.declared.act.Act.{Act};

    ghost Value = { List Act };

    ghost view = { λ q. q.acts.items };
}

impl Queue {
    // No acts.
    fn new(alloc: Global) -> Queue
        ensures { result ≡ [] }
    {
        Queue {
            acts: VecDeque::new(alloc),
        }
    }

    // Appends an act.
    fn push(&mut self, act: Act) -> Result<(), NoMemory>
        ensures { OnOk result (self.new ≡ self.old ++ act ∷ []) }
    {
        self.acts.push_back(act)?;
        Ok(())
    }

    // Takes the first act.
    fn take(&mut self) -> Act
        requires { 0 < length self.old }
        ensures { self.old ≡ result ∷ self.new }
    {
        match self.acts.pop_front() {
            Some(act) => act,
            None => unreachable!(),
        }
    }
}

// `count` queues without acts.
fn no_acts(alloc: Global, count: u16) -> Result<Vec<Queue>, NoMemory>
    ensures { IfOk result (λ queues. AreQueues count [] queues.items) }
{
    let mut queues = Vec::new(alloc);
    for _number in 0..count {
        queues.push(Queue::new(alloc))?;
    }
    Ok(queues)
}

// Sorts acts into `count` queues.
fn queues_of(alloc: Global, count: u16, acts: Vec<Act>) -> Result<Vec<Queue>, NoMemory>
    requires { All (λ (a : Act). a.queue < count) acts.items }
    ensures { IfOk result (λ queues. AreQueues count acts.items queues.items) }
{
    let mut queues = no_acts(alloc, count)?;
    for act in acts {
        let queue = usize::from(act.queue);
        queues[queue].push(act)?;
    }
    Ok(queues)
}

// Whether an order is the acts' own order.
fn is_own(acts: &[Act], order: &Order) -> bool
    ensures { result ≡ true → order.now ≡ own_order acts.now }
{
    if acts.len() != order.len() as usize {
        return false;
    }
    for number in 0..order.len() {
        if acts[number as usize].queue != order.queue(number) {
            return false;
        }
    }
    true
}

/// The acts of `count` queues in an order: at each place, the next act of the queue named there.
pub fn in_order(
    alloc: Global,
    count: u16,
    acts: Vec<Act>,
    order: &Order,
) -> Result<Vec<Act>, NoMemory>
    requires few { All (λ (a : Act). a.queue < count) acts.items }
    requires order { IsOrder acts.items order.now }
    ensures { IfOk result (λ mixed. mixed.items ≡ merged acts.items order.now) }
{
    if is_own(&acts, order) {
        return Ok(acts);
    }
    let mut queues = queues_of(alloc, count, acts)?;
    let mut mixed = Vec::new(alloc);
    for number in 0..order.len() {
        let queue = usize::from(order.queue(number));
        mixed.push(queues[queue].take())?;
    }
    Ok(mixed)
}
