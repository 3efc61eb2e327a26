//! The law of the sizes that the contracts cite by name.
ghost use Rattle.std.specs.Prelude.{◌≡◌};

use crate::input::READ_SIZE;
use crate::lines::{LINE_COUNT_LIMIT, LINE_LIMIT};
use crate::options::BUDGET_LIMIT;

/// The sizes are those of this project's profile: the most bytes that one read asks for, the most bytes of a line, the
/// most lines of commands, and the most steps that a run may be allowed.
pub fn sizes_are_as_stated()
    ensures read { READ_SIZE ≡ 4096 }
    ensures line { LINE_LIMIT ≡ 4096 }
    ensures lines { LINE_COUNT_LIMIT ≡ 1048576 }
    ensures budget { BUDGET_LIMIT ≡ 1000000000000 }
{}
