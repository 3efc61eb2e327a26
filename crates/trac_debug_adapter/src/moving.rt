//! Requests that move a program.

use crate::debuggee::Debuggee;
use crate::messages::Request;
use crate::running::Way;
use crate::stopping::Halt;
use std::alloc::Allocator;

/// What a request asks of a program.
#[derive(Clone, Copy, Debug, PartialEq, Eq)]
pub(crate) enum Move {
    /// To run until it is to stop.
    Run(Way),
    /// To the next call of its own.
    In,
    /// Over the next call.
    Over,
    /// To the end of the call around.
    Out,
    /// To the call before.
    Back,
    /// By one step of the rules.
    Rule(Way),
    /// To stand, which it does.
    Pause,
}

/// What a request asks of a program; none, if it moves none.
pub(crate) fn move_of(request: Request<'_>) -> Option<Move> {
    let by_rules = request.text("/granularity") == Some("instruction");
    Some(match request.command.as_bytes() {
        b"continue" => Move::Run(Way::On),
        b"reverseContinue" => Move::Run(Way::Back),
        b"next" | b"stepIn" if by_rules => Move::Rule(Way::On),
        b"stepBack" if by_rules => Move::Rule(Way::Back),
        b"next" => Move::Over,
        b"stepIn" => Move::In,
        b"stepOut" => Move::Out,
        b"stepBack" => Move::Back,
        b"pause" => Move::Pause,
        _ => return None,
    })
}

impl<A: Allocator + Copy> Debuggee<A> {
    /// Moves the program so, and says why it stands then; none, if it is to run.
    pub(crate) fn go(&mut self, asked: Move) -> Option<Halt> {
        Some(match asked {
            Move::Run(_) => return None,
            Move::In => self.step_in(),
            Move::Over => self.step_over(),
            Move::Out => self.step_out(),
            Move::Back => self.step_back(),
            Move::Rule(Way::On) => self.step_once(),
            Move::Rule(Way::Back) => self.step_back_once(),
            Move::Pause => Halt::Paused,
        })
    }
}
