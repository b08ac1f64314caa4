//! Sizes and ranges of text.
use rowan_green::text::{TextLen, TextRange, TextSize};
use std::cmp::Ordering;
use std::process::Abort;
use std::test::Fail;

/// Texts with their lengths in bytes.
const TEXTS: [(&str, u32); 5] = [
    ("", 0),
    ("a", 1),
    ("é", 2),
    ("日本", 6),
    ("a\r\n\u{10348}", 7),
];

#[test]
fn sizes_are_lengths_in_bytes(rt: HostRuntime) {
    for (text, len) in TEXTS {
        assert!(rt; u32::from(TextSize::of(text)) == len);
        assert!(rt; text.text_len() == TextSize::from(len));
    }
}

#[test]
fn sizes_come_from_numbers(rt: HostRuntime) {
    for raw in [0, 7, u32::MAX] {
        assert!(rt; u32::from(TextSize::from(raw)) == raw);
    }
    assert!(rt; TextSize::default() == TextSize::from(0));
    assert!(rt; TextSize::from(7) < TextSize::from(11));
}

#[test]
fn sizes_show_their_number(rt: HostRuntime) -> Result<(), Fail> {
    let shown = format!(in rt.alloc(); "{:?}", TextSize::from(7))?;
    assert!(rt; shown.as_str() == "7");
    Ok(())
}

/// Starts and ends, with their lengths.
const RANGES: [(u32, u32, u32); 5] = [
    (0, 0, 0),
    (3, 11, 8),
    (7, 7, 0),
    (0, u32::MAX, u32::MAX),
    (u32::MAX, u32::MAX, 0),
];

#[test]
fn ranges_run_from_start_to_end(rt: HostRuntime) {
    for (start, end, len) in RANGES {
        assert!(rt; start <= end);
        let range = TextRange::new(TextSize::from(start), TextSize::from(end));
        assert!(rt; u32::from(range.start()) == start);
        assert!(rt; u32::from(range.end()) == end);
        assert!(rt; u32::from(range.len()) == len);
        assert!(rt; range.is_empty() == (len == 0));
    }
}

#[test]
fn ranges_lie_at_an_offset(rt: HostRuntime) {
    for (start, end, len) in RANGES {
        assert!(rt; start <= end && len <= u32::MAX - start);
        let range = TextRange::new(TextSize::from(start), TextSize::from(end));
        assert!(rt; TextRange::at(TextSize::from(start), TextSize::from(len)) == range);
    }
}

#[test]
fn ranges_show_both_ends(rt: HostRuntime) -> Result<(), Fail> {
    let range = TextRange::new(TextSize::from(3), TextSize::from(11));
    let shown = format!(in rt.alloc(); "{range:?}")?;
    assert!(rt; shown.as_str() == "3..11");
    Ok(())
}

/// Two numbers with their sum and their difference, where there is one.
const SUMS: [(u32, u32, Option<u32>, Option<u32>); 6] = [
    (0, 0, Some(0), Some(0)),
    (11, 7, Some(18), Some(4)),
    (7, 8, Some(15), None),
    (u32::MAX, 0, Some(u32::MAX), Some(u32::MAX)),
    (u32::MAX - 1, 1, Some(u32::MAX), Some(u32::MAX - 2)),
    (u32::MAX, 1, None, Some(u32::MAX - 1)),
];

#[test]
fn sums_and_differences_stay_within_the_limits(rt: HostRuntime) {
    for (a, b, sum, difference) in SUMS {
        let (a, b) = (TextSize::from(a), TextSize::from(b));
        assert!(rt; a.checked_add(b) == sum.map(TextSize::from));
        assert!(rt; a.checked_sub(b) == difference.map(TextSize::from));
    }
}

/// A range from its two ends.
fn range(rt: &impl Abort, ends: (u32, u32)) -> TextRange {
    let (start, end) = ends;
    assert!(rt; start <= end);
    TextRange::new(TextSize::from(start), TextSize::from(end))
}

/// The two ends of a range.
fn ends(range: TextRange) -> (u32, u32) {
    (u32::from(range.start()), u32::from(range.end()))
}

/// Two ranges, and whether the first contains the second.
const INNER: [((u32, u32), (u32, u32), bool); 6] = [
    ((2, 9), (3, 7), true),
    ((2, 9), (2, 9), true),
    ((2, 9), (9, 9), true),
    ((2, 9), (1, 3), false),
    ((2, 9), (8, 10), false),
    ((3, 3), (3, 3), true),
];

#[test]
fn ranges_contain_ranges(rt: HostRuntime) {
    for (outer, inner, is_inside) in INNER {
        let outer = range(&rt, outer);
        assert!(rt; outer.contains_range(range(&rt, inner)) == is_inside);
    }
}

#[test]
fn ranges_contain_their_ends(rt: HostRuntime) {
    let range = range(&rt, (3, 7));
    for (offset, is_inside) in [(2, false), (3, true), (5, true), (7, true), (8, false)] {
        assert!(rt; range.contains_inclusive(TextSize::from(offset)) == is_inside);
    }
}

/// Two ranges, what both have, and where the first stands beside the second.
const PAIRS: [((u32, u32), (u32, u32), Option<(u32, u32)>, Ordering); 8] = [
    ((0, 10), (5, 15), Some((5, 10)), Ordering::Equal),
    ((2, 9), (3, 7), Some((3, 7)), Ordering::Equal),
    ((0, 6), (3, 3), Some((3, 3)), Ordering::Equal),
    ((0, 5), (5, 10), Some((5, 5)), Ordering::Less),
    ((5, 10), (0, 5), Some((5, 5)), Ordering::Greater),
    ((3, 3), (3, 3), Some((3, 3)), Ordering::Less),
    ((0, 4), (6, 9), None, Ordering::Less),
    ((6, 9), (0, 4), None, Ordering::Greater),
];

#[test]
fn ranges_intersect_and_stand_in_order(rt: HostRuntime) {
    for (a, b, common, order) in PAIRS {
        let (a, b) = (range(&rt, a), range(&rt, b));
        assert!(rt; a.intersect(b).map(ends) == common);
        assert!(rt; a.ordering(b) == order);
    }
}
