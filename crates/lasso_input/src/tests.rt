//! Line feeds that are found, lines that are taken, and texts of lines of any bytes, with positions, lines and texts worked by hand.
use crate::{Line, MARK, Stretch, after_newline, find_newline, first_line, line_of, text_of};
use std::alloc::Global;
use std::process::Abort;
use std::test::Fail;

// The calls without their contracts: nothing of a result is known before.
fn find(bytes: &[u8]) -> Option<usize> {
    find_newline(bytes)
}

fn after(bytes: &[u8], at: usize) -> &[u8] {
    if at < bytes.len() {
        return after_newline(bytes, at);
    }
    b"no line feed"
}

fn is_so(rt: &impl Abort, holds: bool, what: &str) {
    assert!(rt; holds, "{what}");
}

// Bytes, and where their first line feed is.
static FEEDS: [(&[u8], Option<usize>); 5] = [
    (b"", None),
    (b"to be", None),
    (b"\n\n", Some(0)),
    (b"to be\nor not\n", Some(5)),
    (b"a carriage return\r, and then a line feed\n", Some(40)),
];

#[test]
fn the_first_line_feed_is_found(rt: HostRuntime) {
    for (bytes, at) in &FEEDS {
        is_so(&rt, find(bytes) == *at, "the first line feed");
    }
}

#[test]
fn the_bytes_after_a_line_feed(rt: HostRuntime) {
    is_so(
        &rt,
        after(b"to be\nor not\n", 5) == b"or not\n".as_slice(),
        "a line",
    );
    is_so(&rt, after(b"\n", 0).is_empty(), "nothing");
}

// Bytes, their first line, and what is left after it.
static FIRST: [(&[u8], &[u8], &[u8]); 6] = [
    (b"to be\nor not\n", b"to be", b"or not\n"),
    (b"or not\n", b"or not", b""),
    (b"\n\nto be", b"", b"\nto be"),
    (b"to be\r\n", b"to be\r", b""),
    (b"to be", b"to be", b""),
    (b"\0", b"\0", b""),
];

// Whether this line is cut off the bytes, and the rest is left.
fn is_cut(bytes: &[u8], line: &[u8], rest: &[u8]) -> bool {
    match first_line(bytes) {
        Some(cut) => cut.0 == line && cut.1 == rest,
        None => false,
    }
}

#[test]
fn the_first_line_is_cut_off(rt: HostRuntime) {
    for (bytes, line, rest) in &FIRST {
        is_so(&rt, is_cut(bytes, line, rest), "the first line");
    }
    is_so(&rt, first_line(b"").is_none(), "no line");
}

// Whether the line has these bytes, and is a text just if they are.
fn is_line(line: &Line<'_>, bytes: &[u8], is_text: bool) -> bool {
    line.bytes() == bytes && line.text().is_ok() == is_text
}

// Lines, each with whether it is UTF-8.
type Lines = &'static [(&'static [u8], bool)];

// Whether these are the next lines that a line feed ends, and then the rest is left.
fn are_ended(lines: &mut Stretch<'_>, ended: Lines, rest: &[u8]) -> bool {
    for (bytes, is_text) in ended {
        let Some(line) = lines.next_ended() else {
            return false;
        };
        if !is_line(&line, bytes, *is_text) {
            return false;
        }
    }
    lines.next_ended().is_none() && lines.rest() == rest
}

// Whether these are all lines.
fn are_all(lines: &mut Stretch<'_>, all: Lines) -> bool {
    for (bytes, is_text) in all {
        let Some(line) = lines.next_line() else {
            return false;
        };
        if !is_line(&line, bytes, *is_text) {
            return false;
        }
    }
    lines.next_line().is_none() && lines.rest().is_empty()
}

// Bytes, the lines that a line feed ends, and what is left after them.
static STRETCHES: [(&[u8], Lines, &[u8]); 8] = [
    (b"", &[], b""),
    (b"to be", &[], b"to be"),
    (b"\n\nto be", &[(b"", true), (b"", true)], b"to be"),
    (b"to be\r\nor\n", &[(b"to be\r", true), (b"or", true)], b""),
    // the first byte that is not UTF-8 is in the second line: the lines after it are tested one by one
    (
        b"a\nb\xff\nc\n\xe2\x82\n",
        &[
            (b"a", true),
            (b"b\xff", false),
            (b"c", true),
            (b"\xe2\x82", false),
        ],
        b"",
    ),
    // a letter that is cut by a line feed
    (b"\xc3\n\xa4\n", &[(b"\xc3", false), (b"\xa4", false)], b""),
    // letters of two bytes
    (
        b"\xc3\xa4\n\xc3\xb6\n",
        &[(b"\xc3\xa4", true), (b"\xc3\xb6", true)],
        b"",
    ),
    // a letter of which the last line has the beginning
    (b"\xc3\xa4\n\xc3", &[(b"\xc3\xa4", true)], b"\xc3"),
];

#[test]
fn lines_that_a_line_feed_ends(rt: HostRuntime) {
    for (bytes, ended, rest) in &STRETCHES {
        is_so(
            &rt,
            are_ended(&mut Stretch::new(bytes), ended, rest),
            "ended lines",
        );
    }
}

// Bytes, and all their lines.
static WHOLE: [(&[u8], Lines); 7] = [
    (b"", &[]),
    (b"\n", &[(b"", true)]),
    (b"to be", &[(b"to be", true)]),
    (b"to be\nor not\n", &[(b"to be", true), (b"or not", true)]),
    (b"\n\nto be", &[(b"", true), (b"", true), (b"to be", true)]),
    (b"a\n\xff", &[(b"a", true), (b"\xff", false)]),
    (b"\xff\na", &[(b"\xff", false), (b"a", true)]),
];

#[test]
fn all_lines(rt: HostRuntime) {
    for (bytes, all) in &WHOLE {
        is_so(&rt, are_all(&mut Stretch::new(bytes), all), "all lines");
    }
}

// Bytes, and whether all are UTF-8.
static TEXTS: [(&[u8], bool); 4] = [
    (b"", true),
    (b"a\n\xc3\xa4", true),
    (b"a\n\xff\n", false),
    (b"a\n\xc3", false),
];

#[test]
fn whether_all_lines_are_texts(rt: HostRuntime) {
    for (bytes, is_text) in &TEXTS {
        let lines = Stretch::new(bytes);
        let mut copy = lines.copy();
        is_so(&rt, copy.is_text() == *is_text, "all are texts");
        let _line = copy.next_line();
        is_so(&rt, lines.rest() == *bytes, "the stretch stays");
    }
}

#[test]
fn a_line_by_hand(rt: HostRuntime) -> Result<(), Fail> {
    is_so(&rt, is_line(&Line::untested(b"a"), b"a", true), "a text");
    is_so(
        &rt,
        is_line(&Line::untested(b"\xff"), b"\xff", false),
        "no text",
    );
    Ok(())
}

// Texts of lines of any bytes.

// Whether the line has this text, and the text this line.
fn is_text(alloc: Global, line: &[u8], text: &[u8]) -> Result<bool, Fail> {
    let found = text_of(alloc, &Line::untested(line))?;
    let back = line_of(alloc, found.as_str())?;
    Ok(found.as_str().as_bytes() == text && back.as_slice() == line)
}

// Whether the text has this line.
fn is_line_of(alloc: Global, text: &str, line: &[u8]) -> Result<bool, Fail> {
    Ok(line_of(alloc, text)?.as_slice() == line)
}

static DIGITS: [u8; 16] = *b"0123456789abcdef";

// The mark and the digits of the bytes.
fn with_digits(alloc: Global, bytes: &[u8]) -> Result<Vec<u8>, Fail> {
    let mut text = Vec::from_slice(alloc, b"\xf4\x8f\xbf\xbf")?;
    for byte in bytes {
        text.push(DIGITS[(*byte >> 4) as usize])?;
        text.push(DIGITS[(*byte & 15) as usize])?;
    }
    Ok(text)
}

// Whether the line has the right text. `is_utf8`: the line is UTF-8, and shorter than the mark.
fn has_its_text(alloc: Global, line: &[u8], is_utf8: bool) -> Result<bool, Fail> {
    if is_utf8 {
        return is_text(alloc, line, line);
    }
    let text = with_digits(alloc, line)?;
    is_text(alloc, line, &text)
}

// Whether the lines of this byte and one more have the right texts. Two bytes are UTF-8 if both are ASCII, or if
// they are a letter of two bytes.
fn pairs_have_texts(alloc: Global, first: u8) -> Result<bool, Fail> {
    for second in 0..=255u8 {
        let is_letter = first >= 0xc2 && first <= 0xdf && second >= 0x80 && second <= 0xbf;
        let is_utf8 = first < 0x80 && second < 0x80 || is_letter;
        if !has_its_text(alloc, &[first, second], is_utf8)? {
            return Ok(false);
        }
    }
    Ok(true)
}

#[test]
fn each_byte_alone(rt: HostRuntime) -> Result<(), Fail> {
    for byte in 0..=255u8 {
        let holds = has_its_text(rt.alloc(), &[byte], byte < 0x80)?;
        is_so(&rt, holds, "a line of one byte");
    }
    Ok(())
}

#[test]
fn each_two_bytes(rt: HostRuntime) -> Result<(), Fail> {
    for first in 0..=255u8 {
        let holds = pairs_have_texts(rt.alloc(), first)?;
        is_so(&rt, holds, "a line of two bytes");
    }
    Ok(())
}

// Lines, each with its text.
static LINES: [(&[u8], &str); 12] = [
    (b"", ""),
    (b"caf\xc3\xa9", "café"),
    (b"caf\xe9", "\u{10FFFF}636166e9"),
    // the mark, its beginnings, and the characters before it
    (b"\xf4\x8f\xbf\xbf", "\u{10FFFF}f48fbfbf"),
    (b"\xf4\x8f\xbf", "\u{10FFFF}f48fbf"),
    (b"\xf4\x8f\xbf\xbe", "\u{10FFFE}"),
    (b"\xf4\x80\x80\x80", "\u{100000}"),
    // the mark at another place
    (b"a\xf4\x8f\xbf\xbf61", "a\u{10FFFF}61"),
    // lines that look like texts of other lines
    (b"\xf4\x8f\xbf\xbf61", "\u{10FFFF}f48fbfbf3631"),
    (b"\xf4\x8f\xbf\xbffF", "\u{10FFFF}f48fbfbf6646"),
    (b"\xf4\x8f\xbf\xbfx", "\u{10FFFF}f48fbfbf78"),
    (b"\xf4\x8f\xbf\xbf\xff", "\u{10FFFF}f48fbfbfff"),
];

#[test]
fn lines_have_their_texts(rt: HostRuntime) -> Result<(), Fail> {
    for (line, text) in &LINES {
        let holds = is_text(rt.alloc(), line, text.as_bytes())?;
        is_so(&rt, holds, "a line and its text");
    }
    Ok(())
}

// Texts, each with its line. The first four have proper digits, the others have none.
static LINE_TEXTS: [(&str, &[u8]); 9] = [
    ("\u{10FFFF}", b""),
    ("\u{10FFFF}6a", b"j"),
    ("\u{10FFFF}6AfF", b"j\xff"),
    ("\u{10FFFF}F48FBFBF", b"\xf4\x8f\xbf\xbf"),
    ("\u{10FFFF}6", b"\xf4\x8f\xbf\xbf6"),
    ("\u{10FFFF}6a6", b"\xf4\x8f\xbf\xbf6a6"),
    ("\u{10FFFF}6g", b"\xf4\x8f\xbf\xbf6g"),
    ("\u{10FFFF} 6a", b"\xf4\x8f\xbf\xbf 6a"),
    (
        "\u{10FFFF}\u{10FFFF}6a",
        b"\xf4\x8f\xbf\xbf\xf4\x8f\xbf\xbf6a",
    ),
];

#[test]
fn texts_have_their_lines(rt: HostRuntime) -> Result<(), Fail> {
    for (text, line) in &LINE_TEXTS {
        let holds = is_line_of(rt.alloc(), text, line)?;
        is_so(&rt, holds, "a text and its line");
    }
    Ok(())
}

#[test]
fn all_bytes_in_one_line(rt: HostRuntime) -> Result<(), Fail> {
    let mut line = Vec::new(rt.alloc());
    for byte in 0..=255u8 {
        line.push(byte)?;
    }
    let holds = has_its_text(rt.alloc(), &line, false)?;
    is_so(&rt, holds, "a line of all bytes");
    Ok(())
}

// The mark, and digits with a letter that is none among them.
fn with_wrong_digit(alloc: Global, before: usize, after: usize) -> Result<String, Fail> {
    let mut text = String::new(alloc);
    text.push(MARK)?;
    for _ in 0..before {
        text.push('0')?;
    }
    text.push('g')?;
    for _ in 0..after {
        text.push('0')?;
    }
    Ok(text)
}

#[test]
fn a_wrong_digit_at_each_place(rt: HostRuntime) -> Result<(), Fail> {
    for before in 0..100usize {
        let text = with_wrong_digit(rt.alloc(), before, 99 - before)?;
        let holds = is_line_of(rt.alloc(), &text, text.as_bytes())?;
        is_so(&rt, holds, "a text with a letter that is no digit");
    }
    Ok(())
}
