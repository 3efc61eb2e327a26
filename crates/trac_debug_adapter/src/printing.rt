//! What a program prints, as the editor is told, with the place that printed it.

use crate::debuggee::{Debuggee, shown};
use crate::outbox::Outbox;
use crate::stack::source_of;
use serde_json::json;
use std::alloc::{AllocError, Allocator, Global};
use trac_moves::Aim;

// The places of so many calls are told at most; what was printed before these is told in one piece, without one.
const PIECE_COUNT: usize = 32;

// A part of the output.
#[derive(Clone, Copy)]
struct Piece {
    // how much was printed before it
    start: u64,
    // and with it
    end: u64,
    // which byte of all input the name of the call is that printed it, if that is known
    written: Option<u64>,
}

impl<A: Allocator + Copy> Debuggee<A> {
    /// Tells the editor of what was printed that it was not told. The error is that memory was refused, here and below.
    pub(crate) fn tell_output(
        &mut self,
        global: Global,
        firsts: (u64, u64),
        outbox: &mut Outbox,
    ) -> Result<(), AllocError> {
        let printed = self.printed();
        if printed <= self.told {
            return Ok(());
        }
        let pieces = self.pieces(printed)?;
        for piece in pieces.iter().rev() {
            self.tell_piece(global, *piece, firsts, outbox)?;
        }
        self.told = printed;
        Ok(())
    }

    // The parts of what was printed up to here that the editor was not told, the latest first.
    fn pieces(&mut self, printed: u64) -> Result<Vec<Piece, A>, AllocError> {
        let here = self.walker.step();
        let mut pieces = Vec::new(self.alloc);
        let mut end = printed;
        for _ in 0..PIECE_COUNT {
            if end <= self.told {
                break;
            }
            let Some(piece) = self.piece_before(end) else {
                break;
            };
            pieces.push(piece)?;
            end = piece.start;
        }
        if end > self.told {
            let start = self.told;
            pieces.push(Piece {
                start,
                end,
                written: None,
            })?;
        }
        let _ = self.walker.go_to(here);
        Ok(pieces)
    }

    // The part that the call printed, to which the walker goes back, that printed the last of so many bytes.
    fn piece_before(&mut self, end: u64) -> Option<Piece> {
        let most = end.checked_sub(1)?.checked_sub(self.walker.released())?;
        let most = usize::try_from(most).ok()?;
        if self.walker.return_to(Aim::Unprinted(most)).is_some() {
            return None;
        }
        let start = self.printed().max(self.told);
        if start >= end {
            return None;
        }
        let depth = self.walker.glance().depth;
        let written = match depth.checked_sub(1) {
            Some(number) => self.written(number),
            None => None,
        };
        Some(Piece {
            start,
            end,
            written,
        })
    }

    // Tells of a part.
    fn tell_piece(
        &self,
        global: Global,
        piece: Piece,
        firsts: (u64, u64),
        outbox: &mut Outbox,
    ) -> Result<(), AllocError> {
        let released = self.walker.released();
        let pending = self.walker.pending();
        let end = (piece.end.saturating_sub(released) as usize).min(pending.len());
        let start = (piece.start.saturating_sub(released) as usize).min(end);
        let text = shown(global, pending.split_at(end).0.split_at(start).1)?;
        let body = match self.spot(piece.written) {
            None => json!(in global; {"category": "stdout", "output": text.as_str()})?,
            Some(spot) => {
                let source = source_of(global, spot.path)?;
                let line = spot.position.line.saturating_add(firsts.0);
                let column = spot.position.character.saturating_add(firsts.1);
                json!(in global; {
                    "category": "stdout",
                    "output": text.as_str(),
                    "source": source,
                    "line": line,
                    "column": column
                })?
            }
        };
        outbox.tell("output", body)
    }
}
