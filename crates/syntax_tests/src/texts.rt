//! Places in a text.

use go_syntax::place;

#[test]
fn a_return_ends_no_line_and_a_tab_is_one_byte(rt: HostRuntime) {
    let text = b"a\r\n\tb\n";
    for (offset, line, col) in [(0, 1, 1), (2, 1, 3), (4, 2, 2), (6, 3, 1)] {
        let at = place(text, offset);
        assert_eq!(rt; at.line, line, "line of {offset}");
        assert_eq!(rt; at.col, col, "column of {offset}");
    }
}
