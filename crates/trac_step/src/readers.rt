//! The readers of a machine's state.
ghost use Rattle.std.specs.Prelude.{◌≡◌, ◌+◌, ◌≤◌, length, reverse, slice_get, None, Some, MatchOption};
ghost use Rattle.trac_forms.specs.Stored.{KnowsAll};
ghost use Rattle.trac_text.specs.Frames.{IsFrame};
ghost use Rattle.trac_rules.specs.Limits.{argument_bytes};
ghost use Rattle.trac_rules.specs.Stepping.{call_at};
ghost use Rattle.trac_step.specs.Room.{HasRoom};

use crate::engine::Core;
use std::alloc::Allocator;
use trac_forms::Store;
use trac_gap::TwoEnds;
use trac_rules::width::Width;
use trac_text::{Args, BegunFunctions, Kind, Mark};

impl<E: TwoEnds<u8, A>, M: TwoEnds<Mark, A>, A: Allocator + Copy> Core<E, M, A> {
    /// What is not scanned yet: the active string of T-64.
    pub fn active(&self) -> &[u8]
        ensures { result.now ≡ self.now.state.active }
    {
        self.texts.active()
    }

    /// How many bytes base text and the arguments of all begun functions hold together. It takes the
    /// same time however many these are.
    pub fn neutral_len(&self) -> usize
        ensures { result ≡ length self.now.state.base + argument_bytes self.now.state.frames }
    {
        self.texts.neutral_len()
    }

    /// The neutral text outside all begun functions, a front of T-64's neutral string.
    pub fn base(&self) -> &[u8]
        ensures { result.now ≡ self.now.state.base }
    {
        self.texts.neutral().base()
    }

    /// How many functions are begun, by T-64's rules of scanning, and not ended. A machine keeps the number, so this
    /// takes the same time however many these are.
    pub fn depth(&self) -> usize
        ensures { result ≡ length self.now.state.frames }
    {
        self.texts.neutral().depth()
    }

    /// The begun function of this number, the outermost being number 0: its kind, and all its arguments, of which the
    /// last is being gathered. None past the innermost. It takes time for the marks of this
    /// function and of those inside it alone.
    pub fn frame(&self, i: usize) -> Option<(Kind, Args<'_>)>
        ensures { MatchOption result (length self.now.state.frames ≤ i)
            (λ r. IsFrame (slice_get (reverse self.now.state.frames) i) r.0 r.1) }
    {
        self.texts.neutral().frame(i)
    }

    /// The begun functions, one after another from the outermost on. A walk over all of them takes time for all marks
    /// together, whereas `frame` looks for each from the innermost on.
    pub fn begun_functions(&self) -> BegunFunctions<'_>
        ensures { result ≡ reverse self.now.state.frames }
    {
        self.texts.neutral().begun_functions()
    }

    /// The name of the function that the next step would perform; none if it would perform none. It takes no memory.
    pub fn at_call(&self) -> Option<&[u8]>
        ensures { MatchOption result (call_at self.now.state ≡ None) (λ name. call_at self.now.state ≡ Some name.now) }
    {
        let (_kind, arguments) = self.next_call()?;
        Some(arguments.get(0))
    }

    /// The forms by their names, the blocks, the names that have a place, those of them that are recent, and how many
    /// more blocks have a place.
    pub fn store(&self) -> &Store<A>
        ensures { result.now ≡ record {
          forms = self.now.state.forms;
          blocks = self.now.state.blocks;
          known = self.now.known;
          recent = self.now.recent;
          spare = self.now.spare;
        } }
    {
        &self.store
    }

    /// The byte that ends a text of the input: the meta character of T-64.
    pub fn meta(&self) -> u8
        ensures { result ≡ self.now.state.meta }
    {
        self.meta
    }

    /// Whether each call is printed: the trace of T-64, in this project's profile.
    pub fn trace(&self) -> bool
        ensures { result ≡ self.now.state.trace }
    {
        self.trace
    }

    /// How many bytes of the tape are read.
    pub fn position(&self) -> usize
        ensures { result ≡ self.now.state.position }
    {
        self.position
    }

    /// What is printed and not released yet.
    pub fn output(&self) -> &[u8]
        ensures { result.now ≡ self.now.state.output }
    {
        self.output.as_slice()
    }

    /// How wide numbers are: as the machine was made, and nothing changes it. Whatever state it shows, a machine has
    /// room for that, and knows the names of its forms, which are recent.
    pub fn width(&self) -> Width
        ensures width { result ≡ self.now.width }
        ensures room { HasRoom self.now self.now.state }
        ensures recent { KnowsAll self.now.recent self.now.state.forms }
    {
        self.recall_room();
        self.width
    }
}
