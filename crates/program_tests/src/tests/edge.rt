use super::around::{Arguments, Around, Tape};
use super::sessions::one_write;
use std::cell::Cell;
use std::process::ExitCode;
use std::test::Fail;
use zns_program::run_program;

const USAGE: &str = "zns_runner: usage: one, run, check, show, host, gen NUMBER COUNT\n";

// A run ends with the number of its status and reports its line. A read or write that fails is
// reported, even if the next one would succeed. A word that isn't text means nothing.
#[test]
fn each_run_ends_with_its_number_and_line(rt: HostRuntime) -> Result<(), Fail> {
    let alloc = rt.alloc();
    // the words, the length of the input, whether its first read and the first write fail, the exit
    // status, the bytes that are written, and the line
    let rows: [(&[&[u8]], usize, bool, bool, u8, usize, &str); 9] = [
        (&[b"it", b"one"], 648, false, false, 0, 4_388, ""),
        (&[b"it"], 648, false, false, 2, 0, USAGE),
        (&[b"it", b"one", b"show"], 648, false, false, 2, 0, USAGE),
        (
            &[b"it", b"one"],
            648,
            true,
            false,
            3,
            0,
            "zns_runner: read fault\n",
        ),
        (
            &[b"it", b"one"],
            648,
            false,
            true,
            4,
            0,
            "zns_runner: write fault\n",
        ),
        (
            &[b"it", b"one"],
            600,
            false,
            false,
            5,
            0,
            "zns_runner: bad file: Short at 600\n",
        ),
        (&[b"it", b"one\xff"], 648, false, false, 2, 0, USAGE),
        (&[b"it", b"one", b"one\xff"], 648, false, false, 2, 0, USAGE),
        (
            &[b"it", b"check"],
            648,
            false,
            false,
            5,
            0,
            "zns_runner: bad file: Short at 648\n",
        ),
    ];
    for (all, len, read_fails, write_fails, number, written, line) in rows {
        let mut file = one_write(alloc)?;
        file.truncate(len);
        let around = Around {
            alloc,
            arguments: Arguments { all },
            fails: Cell::new(write_fails),
            written: Cell::new(0),
            said: Cell::new(0),
        };
        let tape = Tape {
            left: &file,
            fails: read_fails,
        };
        let code = run_program(&(&around, alloc), &rt, tape);
        assert_eq!(rt; code, ExitCode::from(number));
        assert_eq!(rt;
            (around.written.get(), around.said.get()),
            (written, line.len())
        );
    }
    Ok(())
}
