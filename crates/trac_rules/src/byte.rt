//! The bytes that have a meaning of their own.

/// `(`, which begins a protected text.
pub const OPENING: u8 = b'(';

/// `)`, which ends a protected text or a function.
pub const CLOSING: u8 = b')';

/// `,`, which ends an argument.
pub const COMMA: u8 = b',';

/// `#`, of which one before a `(` begins an active function, and two a neutral one.
pub const SHARP: u8 = b'#';

/// A carriage return, deleted when it is scanned.
pub const CARRIAGE_RETURN: u8 = b'\r';

/// A line feed, deleted when it is scanned.
pub const LINE_FEED: u8 = b'\n';

/// A tab, deleted when it is scanned.
pub const TAB: u8 = b'\t';

/// `*`, which stands between the arguments in a line of the trace.
pub const STAR: u8 = b'*';

/// `'`, the meta character that ends a text of the input until another one is set.
pub const APOSTROPHE: u8 = b'\'';
