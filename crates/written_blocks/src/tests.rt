use super::*;
use std::test::Fail;

#[test]
fn marks_cross_a_word(rt: HostRuntime) -> Result<(), Fail> {
    let mut written = Written::new(rt.alloc(), 130)?;
    assert_eq!(rt; written.holes(0, 130), 130);
    written.mark(60, 10);
    for (block, marked) in [
        (59, false),
        (60, true),
        (63, true),
        (64, true),
        (69, true),
        (70, false),
    ] {
        assert_eq!(rt; written.is_written(block), marked, "block {block}");
    }
    for (from, to, holes) in [
        (0, 130, 120),
        (60, 70, 0),
        (63, 65, 0),
        (64, 128, 58),
        (129, 130, 1),
    ] {
        assert_eq!(rt; written.holes(from, to), holes, "from {from} to {to}");
    }
    written.clear();
    assert_eq!(rt; written.holes(0, written.len()), 130);
    Ok(())
}
