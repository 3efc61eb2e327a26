//! The machine: its parts, and how they are read as a state.
ghost use Rattle.std.specs.Prelude.{◌≡◌, ◌≤◌, length, IfOk, IsOkUnless};
ghost use Rattle.std.specs.FinSet as set;
ghost use Rattle.trac_rules.specs.Listing.{names_of};
ghost use Rattle.trac_rules.specs.State.{initial};
ghost use Rattle.trac_rules.specs.Session.{released, settled};

use std::alloc::{Allocator, Global};
use std::marker::Model;
use trac_forms::Store;
use trac_gap::{GapBuf, SlidingBuf, TwoEnds};
use trac_rules::byte;
use trac_rules::refusal::Refusal;
use trac_rules::width::Width;
use trac_text::{Mark, Texts};

/// A machine over lists with two ends, which hold its texts and marks. It is seen as the state that it shows, which is
/// always a proper one; how wide its numbers are, which nothing changes; how many bytes of texts, how many marks and
/// how many bytes of output it has room for without more memory; and the names under which it can put a form, and how
/// many blocks it can add, without more memory; and those of the names that are recent, which `sweep_aged` leaves.
#[derive(Drop)]
pub struct Core<E: TwoEnds<u8, A>, M: TwoEnds<Mark, A>, A: Allocator + Copy> {
    pub(crate) texts: Texts<E, M, A>,
    pub(crate) store: Store<A>,
    pub(crate) meta: u8,
    pub(crate) trace: bool,
    pub(crate) position: usize,
    pub(crate) output: SlidingBuf<u8, A>,
    pub(crate) width: Width,
}

/// The machine: its texts in one block of memory, with the gap between neutral and active text, and
/// its marks in another.
pub type Machine<A = Global> = Core<GapBuf<u8, A>, GapBuf<Mark, A>, A>;

impl<E: TwoEnds<u8, A>, M: TwoEnds<Mark, A>, A: Allocator + Copy> Model for Core<E, M, A> {
    ghost use Rattle.trac_forms.specs.Stored.{storage_in};
    ghost use Rattle.trac_step.specs.Layout.{Shown, shown_by, shown_code, IsMachine};

    ghost Value = { Shown };

    ghost coded = { shown_code };

    ghost view = { λ m. shown_by m.texts m.store m.meta m.trace m.position m.output m.width };

    ghost invariant = { λ m. IsMachine (storage_in m.store) m.output.items };
}

impl<E: TwoEnds<u8, A>, M: TwoEnds<Mark, A>, A: Allocator + Copy> Core<E, M, A> {
    /// A machine in the state in which a processor begins, with numbers of this width: it is about
    /// to run the idle program of T-64.
    /// Refused with `Memory` if the allocator refuses.
    pub fn new(alloc: A, width: Width) -> Result<Self, Refusal>
        ensures made { IfOk result (λ m. m.state ≡ initial) }
        ensures width { IfOk result (λ m. m.width ≡ width) }
        ensures err { IsOkUnless result Refusal.Memory }
    {
        Ok(Core {
            texts: Texts::new(alloc)?,
            store: Store::new(alloc),
            meta: byte::APOSTROPHE,
            trace: false,
            position: 0,
            output: SlidingBuf::new(alloc),
            width,
        })
    }

    /// Empties the output and begins to count the input anew: what is printed is released, and what is read is dropped.
    /// Names without a form are forgotten, and all others stay known. It takes no memory, and keeps the machine's room.
    pub fn settle(&mut self)
        ensures { self.new ≡ record self.old {
          state = settled self.old.state;
          known = set.from_list (names_of self.old.state.forms);
          recent = set.from_list (names_of self.old.state.forms);
        } }
    {
        let printed = self.output.len();
        let read = self.position;
        self.release(printed, read);
        self.store.sweep();
    }

    /// Forgets the names that are not recent, none of which has a form. Of the others those of forms alone are recent
    /// then. A name becomes recent when a form is put under it, and stays so until a sweep finds it without a form. It
    /// takes no memory, and time for the names that it forgets alone.
    pub fn sweep_aged(&mut self)
        ensures { self.new
            ≡ record self.old { known = self.old.recent; recent = set.from_list (names_of self.old.state.forms) } }
    {
        self.store.sweep_aged();
    }

    /// Releases so many bytes of the front of the output, which has to be that long, and takes so many bytes of the
    /// tape, which have to be read, as dropped. Names and rooms stay. It takes no memory.
    pub fn release(&mut self, output: usize, position: usize)
        requires printed { output ≤ length self.old.state.output }
        requires read { position ≤ self.old.state.position }
        ensures { self.new ≡ record self.old { state = released output position self.old.state } }
    {
        self.output.drop_front(output);
        self.position -= position;
    }
}
