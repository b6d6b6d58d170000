//! Lines that are put into a table and found there again.
use lt_cache::{Recent, ShortText};
use std::alloc::{AllocError, Global};
use std::test::Fail;

const LINES: &[(&str, &str, bool)] = &[
    ("zh-yue", "yue\n", false),
    ("", "! EmptySubtag 1\n", true),
    ("EN-us", "en-US\n", false),
    ("zh-yu", "zh-YU\n", false),
];

/// Lines of one hash, and whether each is kept where all are put.
const NEIGHBOURS: [(&str, bool); 3] = [("de-AB", false), ("fr-IO", true), ("it-SA", true)];

const LONG: &str = "de-1901-x-abcdefgh-abcdefgh-abcde";

/// What a table has for the front of a text.
fn found(
    alloc: Global,
    table: &Recent,
    text: &str,
    count: usize,
) -> Result<Option<(Vec<u8>, bool)>, AllocError> {
    let mut answer = Vec::new(alloc);
    match table.find(text.as_bytes(), count.min(text.len())) {
        Some(there) => {
            there.answer.append_to(&mut answer)?;
            Ok(Some((answer, there.refused)))
        }
        None => Ok(None),
    }
}

/// Whether a table has this for a line.
fn has(
    alloc: Global,
    table: &Recent,
    line: &str,
    answer: &str,
    refused: bool,
) -> Result<bool, AllocError> {
    match found(alloc, table, line, line.len())? {
        Some((text, no)) => Ok(text.as_slice() == answer.as_bytes() && no == refused),
        None => Ok(false),
    }
}

#[test]
fn finds_what_was_put(rt: HostRuntime) -> Result<(), Fail> {
    let mut table = Recent::new(rt.alloc());
    for (line, answer, refused) in LINES {
        assert!(rt;
            found(rt.alloc(), &table, line, line.len())?.is_none(),
            "{line}"
        );
        table.put(line.as_bytes(), answer.as_bytes(), *refused);
    }
    for (line, answer, refused) in LINES {
        assert!(rt; has(rt.alloc(), &table, line, answer, *refused)?, "{line}");
    }
    Ok(())
}

#[test]
fn finds_the_front_of_a_text(rt: HostRuntime) -> Result<(), Fail> {
    let mut table = Recent::new(rt.alloc());
    table.put(b"zh-yue", b"yue\n", false);
    let text = "zh-yue\nen\nand thirty-two bytes more";
    assert!(rt; found(rt.alloc(), &table, text, 6)?.is_some());
    assert!(rt; found(rt.alloc(), &table, text, 5)?.is_none());
    assert!(rt; found(rt.alloc(), &table, text, 7)?.is_none());
    Ok(())
}

#[test]
fn keeps_two_lines_of_one_hash(rt: HostRuntime) -> Result<(), Fail> {
    let mut table = Recent::new(rt.alloc());
    for (line, _) in &NEIGHBOURS {
        table.put(line.as_bytes(), line.as_bytes(), false);
    }
    for (line, stays) in &NEIGHBOURS {
        let is_there = found(rt.alloc(), &table, line, line.len())?.is_some();
        assert!(rt; is_there == *stays, "{line}");
        assert!(rt;
            has(rt.alloc(), &table, line, line, false)? == *stays,
            "{line}"
        );
    }
    Ok(())
}

#[test]
fn puts_each_answer_once_one_came_again(rt: HostRuntime) -> Result<(), Fail> {
    let mut table = Recent::new(rt.alloc());
    for _time in 0..257usize {
        table.put(b"de", b"de\n", false);
    }
    table.put(b"en", b"en\n", false);
    assert!(rt; found(rt.alloc(), &table, "en", 2)?.is_none());
    table.note_again();
    table.put(b"en", b"en\n", false);
    assert!(rt; found(rt.alloc(), &table, "en", 2)?.is_some());
    Ok(())
}

#[test]
fn keeps_no_long_line(rt: HostRuntime) -> Result<(), Fail> {
    let mut table = Recent::new(rt.alloc());
    table.put(LONG.as_bytes(), b"de\n", false);
    table.put(b"de", LONG.as_bytes(), false);
    assert!(rt; found(rt.alloc(), &table, LONG, LONG.len())?.is_none());
    assert!(rt; found(rt.alloc(), &table, LONG, 2)?.is_none());
    Ok(())
}

#[test]
fn compares_each_byte(rt: HostRuntime) -> Result<(), Fail> {
    for place in 0..32usize {
        let mut other = [b'a'; 32];
        other[place] = b'b';
        let Some(first) = ShortText::front(&[b'a'; 32], 32) else {
            return Err("short".into());
        };
        let Some(second) = ShortText::front(&other, 32) else {
            return Err("short".into());
        };
        assert!(rt; !first.is(&second) && first.is(&first));
    }
    Ok(())
}

/// Whether all bytes are this one.
fn are_all(bytes: &[u8], wanted: u8) -> bool {
    for byte in bytes {
        if *byte != wanted {
            return false;
        }
    }
    true
}

#[test]
fn appends_each_length(rt: HostRuntime) -> Result<(), Fail> {
    for count in 0..33usize {
        let Some(text) = ShortText::front(&[b'a'; 40], count) else {
            return Err("short".into());
        };
        let mut texts = vec![in rt.alloc(); b'-'; count]?;
        text.append_to(&mut texts)?;
        text.append_to(&mut texts)?;
        let is_right = texts.len() == 3 * count
            && are_all(&texts[..count], b'-')
            && are_all(&texts[count..], b'a');
        assert!(rt; is_right, "{count}");
    }
    Ok(())
}
