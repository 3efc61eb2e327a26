//! The width of numbers.

/// How wide numbers are (this project's profile). A number fits if it is not below the least number of the width and
/// not above the greatest one.
#[derive(Clone, Copy, Debug, PartialEq, Eq)]
pub enum Width {
    /// 64 bits: from -9223372036854775808 to 9223372036854775807.
    W64,
    /// 128 bits: from -170141183460469231731687303715884105728 to 170141183460469231731687303715884105727.
    W128,
}
