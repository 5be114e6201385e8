//! Waiting for a lock word, and waking those who wait. A wake is a system call, so it is made only
//! if somebody waits: each word has a count of its waiters.
//!
//! No wake is missed, though no clause says so. Every step below is atomic, and all threads agree
//! on one order of them. A waiter raises the count (1), and then sleeps only if the word is still 1
//! (2); the system compares the word and puts the thread to sleep in one step. A thread that frees
//! the word stores 0 (3), and then reads the count (4). If 4 comes before 1, then 3 comes before 2,
//! which sees the 0, or the 1 of a later taker, which reads the count after 1 when it frees the
//! word. If 4 comes after 1, it finds the count raised, because a waiter lowers it only once it is
//! awake, and wakes one sleeper. A woken thread tries to take the word; if another was faster, that
//! one wakes a sleeper again when it frees the word.
ghost use Rattle.std.specs.Prelude.{◌≡◌, ◌<◌, length, vec_len, IfOk};

use crate::steps::Board;
use std::alloc::Global;
use std::hint;
use std::sync::Wait;
use std::sync::atomic::{AtomicU32, Ordering};
use zns_io::NoMemory;

// The number of looks at the word before the thread sleeps. Most words are held for a short time.
const LOOKS: u32 = 64;

/// The waiters' counts of `words` words, each 0.
pub(crate) fn no_one_waits(alloc: Global, words: usize) -> Result<Vec<AtomicU32>, NoMemory>
    ensures { IfOk result (λ v. vec_len v ≡ words) }
{
    let mut waiting = Vec::with_capacity(alloc, words)?;
    for _ in 0..words {
        waiting.push_reserved(AtomicU32::new(0));
    }
    Ok(waiting)
}

// Whether the word is seen free within a few looks.
fn is_seen_free(board: &Board, word: usize) -> bool
    requires word { word < board.now.table_id.words }
{
    for _ in 0..LOOKS {
        if board.peek(word) == 0 {
            return true;
        }
        hint::spin_loop();
    }
    false
}

/// Waits until the word may be free.
pub(crate) fn wait_for<R: Wait>(rt: &R, board: &Board, waiting: &[AtomicU32], word: usize)
    requires word { word < board.now.table_id.words }
    requires count { word < length waiting.now }
{
    if is_seen_free(board, word) {
        return;
    }
    // The count has to rise before the word is compared.
    let count = &waiting[word];
    count.fetch_add(1, Ordering::SeqCst);
    board.park(rt, word, 1);
    count.fetch_sub(1, Ordering::SeqCst);
}

/// Wakes one waiter of a word that was just freed.
pub(crate) fn wake(board: &Board, waiting: &[AtomicU32], word: usize)
    requires word { word < board.now.table_id.words }
    requires count { word < length waiting.now }
{
    if waiting[word].load(Ordering::SeqCst) != 0 {
        board.wake_one(word);
    }
}
