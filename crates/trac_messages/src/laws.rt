//! Laws of frames.
ghost use Rattle.std.specs.Prelude.{◌≡◌, ◌≤◌, ℕ, List, ◌++◌, All, length, map};
ghost use Rattle.std.specs.List.{flat_map};
ghost use Rattle.trac_messages.specs.Frames.{Frame, frame_bytes, frames_of};

use crate::header::{DIGIT_LIMIT, HEADER_LIMIT, MESSAGE_LIMIT};

/// The limits that the contracts cite by name are those of this project's profile.
pub fn limits_are_as_stated()
    ensures header { HEADER_LIMIT ≡ 4096 }
    ensures message { MESSAGE_LIMIT ≡ 16777216 }
    ensures digits { DIGIT_LIMIT ≡ 15 }
{}

/// Frames that are written one after another are read as their messages, if none is longer than a message may be.
pub fn written_messages_are_read()
    ensures { (messages : List (List ℕ)) (rest : List ℕ) → All (λ m. length m ≤ MESSAGE_LIMIT) messages →
        frames_of (flat_map frame_bytes messages ++ rest) ≡ map (λ m. Frame.Message m) messages ++ frames_of rest }
{}
