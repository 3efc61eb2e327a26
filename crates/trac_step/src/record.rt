//! What a step leaves for the way back, and going back.
ghost use Rattle.std.specs.Prelude.{◌≡◌, ◌<◌, ◌^◌, [], ◌∷◌, IsSomeAnd, MatchOption, Some};
ghost use Rattle.trac_rules.specs.Records as rules;
ghost use Rattle.trac_rules.specs.Weights.{weight};
ghost use Rattle.trac_text.specs.Pieces.{all_texts};
ghost use Rattle.trac_text.specs.Ruled.{said_by};
ghost use Rattle.trac_journal.specs.Told.{HasCallFirst, IsCallFirst, IsShortFirst, record_with};
ghost use Rattle.trac_change.specs.Undone.{undone_in};
ghost use Rattle.trac_step.specs.Record.{before, recorded_by};
ghost use Rattle.trac_step.specs.Room.{HasRoom, IsNoLess};

use crate::engine::Core;
use crate::one::One;
use std::alloc::{Allocator, Global};
use trac_gap::TwoEnds;
use trac_journal::{Called, LentCall, Undone, weigh_call, weigh_functions, weigh_pieces};
use trac_text::{Kind, Mark, Pieces, Short};

/// What one step of a machine destroyed, by which any machine that shows the state after it can go back. What a
/// step only moved is not kept: a record says how much it was, counted from the end of the text to which it
/// went.
#[derive(Drop)]
pub enum Record<A: Allocator + Copy = Global> {
    /// A byte went to the current text.
    Moved,
    /// An argument was finished, and an empty one begun.
    Comma,
    /// A function was begun.
    Begun,
    /// A protected text went to the current text.
    Quoted {
        /// How many bytes it has.
        inner: usize,
        /// Whether a match of its `(` was deleted.
        closed: bool,
    },
    /// This byte was deleted.
    Deleted(u8),
    /// All text was emptied, and the idle program loaded.
    Idle {
        /// The text outside all begun functions.
        base: Vec<u8, A>,
        /// The begun functions, the innermost first: the kind of each, and all its arguments, of
        /// which the last was being gathered.
        frames: Vec<(Kind, Pieces<A>), A>,
    },
    /// A function was performed.
    Call {
        /// Its kind.
        kind: Kind,
        /// All its arguments, its name being the first.
        arguments: Pieces<A>,
        /// How many bytes its value has.
        value: usize,
        /// Whether the value went before the active text, to be scanned, and not to the current text.
        scanned: bool,
        /// How many bytes were printed.
        printed: usize,
        /// How many bytes of the tape were read.
        read: usize,
        /// The meta character before, if the call set one.
        meta: Option<u8>,
        /// Whether each call was printed before.
        trace: bool,
        /// What was destroyed of forms and blocks.
        change: Undone<A>,
    },
}

impl<A: Allocator + Copy> Record<A> {
    // The record of which this is all.
    pub(crate) fn of_short(short: Short) -> Self
        ensures { recorded_by result ≡ said_by short }
    {
        match short {
            Short::Moved => Record::Moved,
            Short::Comma => Record::Comma,
            Short::Begun => Record::Begun,
            Short::Quoted { inner, closed } => Record::Quoted { inner, closed },
            Short::Deleted(byte) => Record::Deleted(byte),
        }
    }

    // All of the record, if its step performed no function and did not empty the texts; else none.
    pub(crate) fn short(&self) -> Option<Short>
        ensures { MatchOption result (IsShortFirst (recorded_by self.now ∷ []) → ⊥)
            (λ short. recorded_by self.now ≡ said_by short) }
    {
        match self {
            Record::Moved => Some(Short::Moved),
            Record::Comma => Some(Short::Comma),
            Record::Begun => Some(Short::Begun),
            Record::Quoted { inner, closed } => Some(Short::Quoted {
                inner: *inner,
                closed: *closed,
            }),
            Record::Deleted(byte) => Some(Short::Deleted(*byte)),
            Record::Idle { .. } | Record::Call { .. } => None,
        }
    }

    // The record, lent, if it is of a call; else none.
    pub(crate) fn call(&self) -> Option<LentCall<'_>>
        ensures { MatchOption result (IsCallFirst (recorded_by self.now ∷ []) → ⊥)
            (λ call. HasCallFirst call.called (all_texts call.arguments) (recorded_by self.now ∷ [])) }
    {
        match self {
            Record::Call {
                kind,
                arguments,
                value,
                scanned,
                printed,
                read,
                meta,
                trace,
                ..
            } => Some(LentCall {
                called: Called {
                    kind: *kind,
                    value: *value,
                    scanned: *scanned,
                    printed: *printed,
                    read: *read,
                    meta: *meta,
                    trace: *trace,
                },
                arguments: arguments.lend(),
            }),
            Record::Moved
            | Record::Comma
            | Record::Begun
            | Record::Quoted { .. }
            | Record::Deleted(_)
            | Record::Idle { .. } => None,
        }
    }

    // The record of a call, from what it says beside its arguments, these, and what the call
    // destroyed of forms and blocks.
    pub(crate) fn of_call(called: Called, arguments: Pieces<A>, undone: Undone<A>) -> Self
        ensures { recorded_by result ≡ rules.Called (record_with called (all_texts arguments) (undone_in undone)) }
    {
        Record::Call {
            kind: called.kind,
            arguments,
            value: called.value,
            scanned: called.scanned,
            printed: called.printed,
            read: called.read,
            meta: called.meta,
            trace: called.trace,
            change: undone,
        }
    }

    /// What the record keeps: bytes of texts and names, items of forms, and one for each gap that was made, `,`, begun
    /// function, name and meta character. Lengths, old pointers, numbers of blocks and flags are not weighed. The sum
    /// has to fit a `usize`, as it does for every record of a step. It takes no memory, and time for the begun
    /// functions and the forms alone, whatever their length.
    pub fn weight(&self) -> usize
        requires { weight (recorded_by self.now) < 2 ^ 64 }
        ensures { result ≡ weight (recorded_by self.now) }
    {
        match self {
            Record::Moved | Record::Comma | Record::Begun | Record::Quoted { .. } => 0,
            Record::Deleted(_byte) => 1,
            Record::Idle { base, frames } => base.len() + weigh_functions(frames.as_slice()),
            Record::Call {
                arguments,
                meta,
                change: undone,
                ..
            } => weigh_call(weigh_pieces(arguments), *meta, undone) as usize,
        }
    }
}

impl<E: TwoEnds<u8, A>, M: TwoEnds<Mark, A>, A: Allocator + Copy> Core<E, M, A> {
    /// Goes back over a step: the machine shows the state before it again, all parts as they were, in its own room. All
    /// that was lost comes from the record, so any machine that shows the state after the step can go back over it. It
    /// takes no memory and cannot fail, lessens no room and forgets no name. The record has to say a state before
    /// the one that the machine shows, and the machine has to have room for it and to know the names of its
    /// forms, as it does after the step.
    pub fn undo(&mut self, taken: Record<A>)
        requires { IsSomeAnd (before taken self.old.state) (λ s. HasRoom self.old s) }
        ensures state { before taken self.old.state ≡ Some self.new.state }
        ensures room { IsNoLess self.old self.new }
    {
        let mut one = One {
            taken: Some(taken),
            arguments: None,
            alloc: *self.output.allocator(),
        };
        self.go_back(&mut one);
    }
}
