//! The limits on what a processor holds.

/// The active text, the base text and all arguments hold at most so many bytes together.
pub const TEXT_LIMIT: usize = 16_777_216;

/// There are at most so many marks: one for each begun function, and one for each of its finished arguments.
pub const MARK_LIMIT: usize = 1_048_576;

/// A form has at most so many items, and stands for at most so many bytes: its own, and those of
/// the widths of its gaps.
pub const FORM_LIMIT: usize = 16_777_216;

/// The name of a form has at most so many bytes.
pub const NAME_LIMIT: usize = 16_777_216;

/// At most so many forms are live.
pub const FORM_COUNT_LIMIT: usize = 65_536;

/// There are at most so many blocks, erased ones counted, and each holds no more forms than may be live.
pub const BLOCK_LIMIT: usize = 65_536;

/// At most so many bytes of output are kept until they are released.
pub const OUTPUT_LIMIT: usize = 16_777_216;

/// A session keeps at most so many bytes of input.
pub const TAPE_LIMIT: usize = 33_554_432;

/// A journal may be allowed to hold at most so many records, and no fewer than one.
pub const JOURNAL_LIMIT: usize = 1_048_576;
