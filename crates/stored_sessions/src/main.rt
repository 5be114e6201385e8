//! Compares what the program makes of the sessions in `data/` with what is stored of them there.
//!
//! Each line of `rows.txt` is a row of four columns: the words, the files that the input consists
//! of, the exit status, and the file of the output. If the status isn't 0, nothing may be written,
//! and the last column is the line that reports the status. The stored results come from another
//! program, or were written by hand.
//!
//! Prints each row that fails, and how many rows hold and fail.
#![tactic(auto)]

mod row;

use row::holds;
use std::{fs, io};

fn main(rt: HostRuntime) -> io::Result<()> {
    let text = fs::read_to_string(&rt, "rows.txt")?;
    let mut held = 0u64;
    let mut failed = 0u64;
    for line in text.lines() {
        if holds(&rt, line)? {
            held = held.saturating_add(1);
        } else {
            failed = failed.saturating_add(1);
            println!(rt; "{line}")?;
        }
    }
    println!(rt; "{held} rows hold, {failed} fail")
}
