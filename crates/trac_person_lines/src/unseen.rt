//! Which signs a person does not see. The list also stands in `python/trac_tools/tool.py`, `web/unseen.js` and
//! `node/names.js`: `tests/test_unseen.py` compares them.

/// Whether a sign is seen: it is no control character, it has a shape or makes room, it turns no direction, and it ends
/// no line. Signs that choose the look of the one before them (U+FE00 to U+FE0F) count as seen with that.
pub fn is_seen(sign: char) -> bool {
    !sign.is_control()
        && !matches!(
            sign,
            '\u{ad}' | '\u{34f}' | '\u{61c}' | '\u{115f}'..='\u{1160}' | '\u{17b4}'..='\u{17b5}'
                | '\u{180b}'..='\u{180f}' | '\u{200b}'..='\u{200f}' | '\u{2028}'..='\u{202e}'
                | '\u{2060}'..='\u{206f}' | '\u{3164}' | '\u{feff}' | '\u{ffa0}' | '\u{fff0}'..='\u{fffb}'
                | '\u{1bca0}'..='\u{1bca3}' | '\u{1d173}'..='\u{1d17a}' | '\u{e0000}'..='\u{e0fff}'
        )
}
