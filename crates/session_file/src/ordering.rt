ghost use Rattle.std.specs.Prelude.{◌≡◌, ℕ, ◌+◌, ◌*◌, ◌-◌, ◌<◌, ◌≤◌, ◌^◌, ◌↔◌, true, false, List, ◌++◌, take, drop, length, slice_index, slice_set, IsTrue, IfOk, OnOk, IfErr, MatchResult, None, Some, All, count_by, vec_len};
ghost use Rattle.zone_model.specs.declared.act.Act.{Act};
ghost use Rattle.zone_model.specs.Sessions.{is_of, IsOrder, order_bytes};
ghost use Rattle.session_file.specs.Orders.{AreCounts, queues_from, order_rows, order_front_rows, result_rows, IsFirstAfter};
ghost use Rattle.session_file.specs.Faults.{NoneBroken, FirstBroken, IsFirstOf, OutOfMemory, IsWithin, later as later_error};

use crate::fields::{u16_at, u32_at};
use crate::file_err::{FileErr, Reason, bad};
use crate::order::Order;
use crate::session::Session;
use std::alloc::Global;
use zone_model::Acts;

// The most queues of a drive.
const MOST_QUEUES: usize = 17;

// The length of a result's text and count, in bytes. The queues follow.
const FRONT_LEN: usize = 12;

// The number of acts for each queue.
fn count_acts(acts: &Acts) -> [u32; 17]
    requires { All (λ (a : Act). a.queue < 17) acts.now.acts }
    ensures long { length result ≡ 17 }
    ensures counts { AreCounts acts.now.acts result }
{
    let mut counts = [0; MOST_QUEUES];
    for number in 0..acts.len() {
        counts[usize::from(acts.act(number).queue)] += 1;
    }
    counts
}

// Takes one from the acts left for `queue`. Returns whether it had any.
fn take_one(left: &mut [u32; 17], queue: u16) -> bool
    ensures some { result ≡ true → (queue < 17) × (0 < slice_index left.old queue) }
    ensures none { result ≡ false → queue < 17 → slice_index left.old queue ≡ 0 }
    ensures taken { result ≡ true
        → left.new ≡ slice_set left.old queue (slice_index left.old queue - 1) }
    ensures kept { result ≡ false → left.new ≡ left.old }
{
    let queue = usize::from(queue);
    if queue >= MOST_QUEUES || left[queue] == 0 {
        return false;
    }
    left[queue] -= 1;
    true
}

// The queues that stand at `at`, each of which has another act when it is named.
fn read_queues(alloc: Global, bytes: &[u8], at: usize, acts: &Acts) -> Result<Vec<u16>, FileErr>
    requires within { at + 2 * length acts.now.acts ≤ length bytes.now }
    requires few { All (λ (a : Act). a.queue < 17) acts.now.acts }
    ensures queues { IfOk result
        (λ v. v.items ≡ queues_from (length acts.now.acts) at bytes.now) }
    ensures passed { OnOk result
        (NoneBroken (order_rows (length acts.now.acts) bytes.now at acts.now.acts)) }
    ensures broken { IfErr result
        (IsFirstOf (order_rows (length acts.now.acts) bytes.now at acts.now.acts)) }
    ensures error { IfErr result (IsWithin (length bytes.now)) }
{
    let mut left = count_acts(acts);
    let mut queues = Vec::new(alloc);
    for number in 0..acts.len() {
        let place = at + 2 * number as usize;
        let queue = u16_at(bytes, place);
        if !take_one(&mut left, queue) {
            return Err(bad(Reason::ResultOrder, place));
        }
        queues.push(queue)?;
    }
    Ok(queues)
}

// The offset at which the queues of `acts` acts begin, in a result that begins at `from`.
#[tactic(auto, unfolding(crate::specs::Orders::order_front_rows))]
fn check_front(bytes: &[u8], from: usize, acts: u32) -> Result<usize, FileErr>
    requires { from ≤ length bytes.now }
    ensures place { IfOk result (λ at. at ≡ from + 12) }
    ensures within { IfOk result (λ at. at + 2 * acts ≤ length bytes.now) }
    ensures passed { OnOk result (NoneBroken (order_front_rows bytes.now from acts)) }
    ensures broken { IfErr result (FirstBroken (order_front_rows bytes.now from acts)) }
    ensures error { IfErr result (IsWithin (length bytes.now)) }
{
    let at = from + FRONT_LEN;
    if bytes.len() < at + 2 * acts as usize {
        return Err(bad(Reason::Short, bytes.len()));
    }
    if &bytes[from..from + 8] != b"ZNSR0001".as_slice() {
        return Err(bad(Reason::ResultMagic, from));
    }
    if u32_at(bytes, from + 8) != acts {
        return Err(bad(Reason::ResultCount, from + 8));
    }
    Ok(at)
}

/// The order at the front of a result that begins at an offset. An error names the first broken
/// rule.
pub fn read_order(
    alloc: Global,
    bytes: &[u8],
    from: u64,
    session: &Session,
) -> Result<Order, FileErr>
    requires { from ≤ length bytes.now }
    ensures order { IfOk result (IsOrder session.now.acts) }
    ensures spelled { IfOk result (λ order.
        take (12 + 2 * length order) (drop from bytes.now) ≡ order_bytes order) }
    ensures complete { (order after : List ℕ) → IsOrder session.now.acts order
        → drop from bytes.now ≡ order_bytes order ++ after
        → MatchResult result (λ o. o ≡ order) OutOfMemory }
    ensures passed { OnOk result (NoneBroken (result_rows bytes.now from session.now.acts)) }
    ensures broken { IfErr result (IsFirstOf (result_rows bytes.now from session.now.acts)) }
    ensures within { IfErr result (IsWithin (length bytes.now)) }
{
    let acts = session.acts();
    let at = check_front(bytes, from as usize, acts.len())?;
    let queues = read_queues(alloc, bytes, at, acts)?;
    Ok(Order::from_vec(queues))
}

// Moves an error's offset on by `before`, the number of bytes that come first.
fn later(error: FileErr, before: u64) -> FileErr
    requires few { before ≤ 2 ^ 32 }
    requires within { IsWithin (2 ^ 63) error }
    ensures { result ≡ later_error before error }
{
    match error {
        FileErr::Bad { reason, offset } => FileErr::Bad {
            reason,
            offset: before + offset,
        },
        error => error,
    }
}

/// The order at the front of a result that begins after `before` bytes of an input. `bytes` come
/// next: as many as an order of the acts has, or all that are left. An error names the first broken
/// rule, with its offset in the input.
pub fn read_order_after(
    alloc: Global,
    bytes: &[u8],
    before: u64,
    session: &Session,
) -> Result<Order, FileErr>
    requires { before ≤ 2 ^ 32 }
    ensures order { IfOk result (IsOrder session.now.acts) }
    ensures spelled { IfOk result (λ order.
        take (12 + 2 * length order) bytes.now ≡ order_bytes order) }
    ensures broken { IfErr result (IsFirstAfter before bytes.now session.now.acts) }
{
    match read_order(alloc, bytes, 0, session) {
        Ok(order) => Ok(order),
        Err(error) => Err(later(error, before)),
    }
}
