use crate::{first_line, number_in, unended, words_in};
use std::test::Fail;

#[test]
fn a_text_is_cut(rt: HostRuntime) -> Result<(), Fail> {
    let text = b"p 0  17\nf";
    let line = first_line(text);
    assert_eq!(rt; line, b"p 0  17\n".as_slice());
    assert_eq!(rt; first_line(b"f"), b"f".as_slice());
    let line = unended(line).ok_or("the line has no line feed")?;
    assert_eq!(rt; unended(line), None);
    let words = words_in(rt.alloc(), line, 3)?;
    assert_eq!(rt; words.len(), 3);
    assert_eq!(rt; words[0], b"p".as_slice());
    assert_eq!(rt; number_in(words[1]), Some(0));
    assert_eq!(rt; words[2], b"".as_slice());
    Ok(())
}
