//! What walks look for.
ghost use Rattle.std.specs.Prelude.{◌≡◌, bytes_eq, is_some, map, option_copied, false, Some, true};
ghost use Rattle.std.specs.List.{starts_with};
ghost use Rattle.trac_rules.specs.Goals.{frame_at, is_begun_with, is_form_as, is_idle_printing, is_idle_reading};
ghost use Rattle.trac_rules.specs.Goals.{is_same_form, is_same_item, next_call};
ghost use Rattle.trac_rules.specs.declared.item.Item.{Item};
ghost use Rattle.trac_rules.specs.State.{State};
ghost use Rattle.trac_session.specs.Goals.{goal_of};
ghost use Rattle.trac_session.specs.Runs.{IsQuiet};

use crate::doubts::ahead;
use std::alloc::{AllocError, Allocator, Global};
use trac_forms::{Form, Item};
use trac_gap::TwoEnds;
use trac_rules::width::Width;
use trac_step::{Args, Core, Kind, Mark};

/// What a walk looks for. Whether a state meets it is a definition (`trac_rules/specs/Goals.antt`).
pub enum Goal<'a, A: Allocator + Copy = Global> {
    /// The next step performs a call whose first arguments are these, its name first, each compared byte for byte. If
    /// none are given, any call.
    Call(&'a [&'a [u8]]),
    /// The next step performs a call, but not the `ps` or the `rs` of the idle program `#(ps,#(rs))`. A program's own
    /// `rs` that stands last in a text, with nothing gathered before it, cannot be told from that one. So it is passed
    /// over too.
    OwnCall,
    /// The next step performs the begun function of this number, the outermost being number 1: it stands at its end. If
    /// a text ends before its functions do, the idle program is loaded, and a later function that is begun so deep
    /// meets the goal.
    End(usize),
    /// Fewer than this many functions are begun. The outermost function is number 1. On the way back from inside
    /// function number N, `Shallower(N)` is first met at the state before that function was begun.
    Shallower(usize),
    /// At most so many bytes are left to scan.
    Rest(usize),
    /// The next step performs a call, and the form of this name is another one than this. There is one on one side
    /// alone, or the items or the place of the pointer differ. On the way back, with a copy of the form as it is now
    /// (`Form::copy`), this is the call that changed it last.
    OtherForm(&'a [u8], &'a Option<Form<A>>),
    /// At most so many bytes of the output are not released yet. The first of these is byte number 0. On the way back
    /// from where byte number `n` is printed, `Unprinted(n)` is met first at the call that prints it.
    Unprinted(usize),
    /// There is a doubt of the next step (`Session::doubts`), if numbers are of this width, which is that of the
    /// session.
    Doubtful(Width),
}

impl<'a, A: Allocator + Copy> Clone for Goal<'a, A> {
    ghost is_clone = { λ goal copy. copy ≡ goal };

    ghost is_infallible = { λ _. Unit {0} };

    // The whole is copied at once: a body that is derived takes each goal apart.
    fn clone(&self) -> Result<Goal<'a, A>, AllocError> {
        Ok(*self)
    }
}

impl<'a, A: Allocator + Copy> Copy for Goal<'a, A> {}

impl<'a, A: Allocator + Copy> Goal<'a, A> {
    // Whether the goal is met only if the next step performs a call or has a doubt.
    pub(crate) fn is_never_met_quietly(&self) -> bool
        ensures { result ≡ true → (s : State) → IsQuiet s → goal_of self.now s ≡ false }
    {
        match self {
            Goal::Call(_) | Goal::OwnCall | Goal::End(_) => true,
            Goal::OtherForm(..) | Goal::Doubtful(_) => true,
            Goal::Shallower(_) | Goal::Rest(_) | Goal::Unprinted(_) => false,
        }
    }
}

// Whether a machine shows a state that meets the goal. Here and below the machine may be of any representation. That
// the gap buffer is one is shown once, where a session passes its machine on, and not at each call.
pub(crate) fn is_met<E: TwoEnds<u8, A>, M: TwoEnds<Mark, A>, A: Allocator + Copy>(
    machine: &Core<E, M, A>,
    goal: &Goal<'_, A>,
) -> bool
    ensures { result ≡ goal_of goal.now machine.now.state }
{
    match goal {
        Goal::Call(wanted) => match machine.next_call() {
            Some((_, arguments)) => begin_with(&arguments, wanted),
            None => false,
        },
        Goal::OwnCall => is_calling(machine) && !(reads_idly(machine) || prints_idly(machine)),
        Goal::End(depth) => is_calling(machine) && machine.depth() == *depth,
        Goal::Shallower(count) => machine.depth() < *count,
        Goal::Rest(most) => machine.active().len() <= *most,
        Goal::OtherForm(name, form) => {
            is_calling(machine) && !are_alike(machine.store().get(name), form)
        }
        Goal::Unprinted(count) => machine.output().len() <= *count,
        Goal::Doubtful(width) => ahead(machine, *width).is_doubtful(),
    }
}

// Whether the next step performs a call.
fn is_calling<E: TwoEnds<u8, A>, M: TwoEnds<Mark, A>, A: Allocator + Copy>(
    machine: &Core<E, M, A>,
) -> bool
    ensures { result ≡ is_some (next_call machine.now.state) }
{
    machine.next_call().is_some()
}

// Whether arguments begin with these.
fn begin_with(arguments: &Args<'_>, wanted: &[&[u8]]) -> bool
    ensures { result ≡ starts_with bytes_eq arguments.now (map (λ text. text.now) wanted.now) }
{
    if arguments.count() < wanted.len() {
        return false;
    }
    for i in 0..wanted.len() {
        if arguments.get(i) != wanted[i] {
            return false;
        }
    }
    true
}

// Whether the begun function of this number is active, and its arguments begin with these.
fn has_begun<E: TwoEnds<u8, A>, M: TwoEnds<Mark, A>, A: Allocator + Copy>(
    machine: &Core<E, M, A>,
    number: usize,
    wanted: &[&[u8]],
) -> bool
    ensures { result ≡ is_begun_with (map (λ text. text.now) wanted.now) (frame_at number machine.now.state) }
{
    match machine.frame(number) {
        Some((kind, arguments)) => matches!(kind, Kind::Active) && begin_with(&arguments, wanted),
        None => false,
    }
}

// Whether the next step performs the `rs` of the idle program.
fn reads_idly<E: TwoEnds<u8, A>, M: TwoEnds<Mark, A>, A: Allocator + Copy>(
    machine: &Core<E, M, A>,
) -> bool
    ensures { result ≡ is_idle_reading machine.now.state }
{
    machine.active() == b"))".as_slice()
        && machine.depth() == 2
        && has_begun(machine, 0, &[b"ps", b""])
        && has_begun(machine, 1, &[b"rs"])
}

// Whether the next step performs the `ps` of the idle program.
fn prints_idly<E: TwoEnds<u8, A>, M: TwoEnds<Mark, A>, A: Allocator + Copy>(
    machine: &Core<E, M, A>,
) -> bool
    ensures { result ≡ is_idle_printing machine.now.state }
{
    machine.active() == b")".as_slice() && machine.depth() == 1 && has_begun(machine, 0, &[b"ps"])
}

// Whether there is a form on neither side, or the same one on both.
fn are_alike<A: Allocator + Copy>(form: Option<&Form<A>>, other: &Option<Form<A>>) -> bool
    ensures { result ≡ is_form_as (option_copied form.entry) other.now }
{
    match (form, other) {
        (None, None) => true,
        (Some(form), Some(other)) => has_same_items(form, other),
        _ => false,
    }
}

// Whether two forms have the same items and the same pointer.
fn has_same_items<A: Allocator + Copy>(form: &Form<A>, other: &Form<A>) -> bool
    ensures { result ≡ is_same_form form.now other.now }
{
    let len = form.len();
    if form.pointer() != other.pointer() || len != other.len() {
        return false;
    }
    for i in 0..len {
        if !is_same_place(form.item(i), other.item(i)) {
            return false;
        }
    }
    true
}

// Whether there is an item at each of two places, and they are the same.
fn is_same_place(item: Option<Item>, other: Option<Item>) -> bool
    ensures { (a b : Item) → item ≡ Some a → other ≡ Some b → result ≡ is_same_item a b }
{
    match (item, other) {
        (Some(item), Some(other)) => item == other,
        _ => false,
    }
}
