use rowan::{TextRange, TextSize};
use rowan_parser::{LineColumn, LineIndex};
use std::test::Fail;

/// Offsets of `a\r\né𝄞b\n`, with their lines, and their columns in bytes, units of UTF-16 and
/// characters.
const PLACES: [(u32, usize, usize, usize, usize); 6] = [
    (0, 0, 0, 0, 0),
    (2, 0, 2, 2, 2),
    (3, 1, 0, 0, 0),
    (5, 1, 2, 1, 1),
    (9, 1, 6, 3, 2),
    (11, 2, 0, 0, 0),
];

#[test]
fn columns_are_counted_in_each_unit(rt: HostRuntime) -> Result<(), Fail> {
    let index = LineIndex::new(rt.alloc(), "a\r\né𝄞b\n")?;
    for (offset, line, column, utf16, characters) in PLACES {
        let place = index.line_column(TextSize::from(offset));
        assert!(rt; place == LineColumn { line, column });
        assert!(rt; index.offset(place) == Some(TextSize::from(offset)));
        assert!(rt;
            index.to_utf16(place)
                == Some(LineColumn {
                    line,
                    column: utf16
                })
        );
        let units = LineColumn {
            line,
            column: utf16,
        };
        assert!(rt; index.from_utf16(units) == Some(place));
        assert!(rt;
            index.to_characters(place)
                == Some(LineColumn {
                    line,
                    column: characters
                })
        );
    }
    Ok(())
}

/// Places in units of UTF-16 that the same text does not have: within a character, past the end of
/// a line, and past the last line.
const NO_PLACES: [(usize, usize); 4] = [(1, 2), (1, 5), (2, 1), (3, 0)];

/// The lines of the same text: their ranges, and their texts without their ends.
const LINES: [(usize, u32, u32, &str); 3] = [(0, 0, 3, "a"), (1, 3, 11, "é𝄞b"), (2, 11, 11, "")];

#[test]
fn lines_have_ranges_and_texts(rt: HostRuntime) -> Result<(), Fail> {
    let index = LineIndex::new(rt.alloc(), "a\r\né𝄞b\n")?;
    for (line, column) in NO_PLACES {
        assert!(rt; index.from_utf16(LineColumn { line, column }).is_none());
    }
    for (line, start, end, text) in LINES {
        let range = TextRange::new(TextSize::from(start), TextSize::from(end));
        assert!(rt; index.line(line) == Some(range));
        assert!(rt; index.line_text(line) == text);
    }
    assert!(rt; index.line(3).is_none());
    assert!(rt; index.line_text(3) == "");
    Ok(())
}
