//! The way of one byte back to the byte of the files that it comes from.

use crate::texts::{read_number, text_from};
use std::alloc::{AllocError, Allocator};
use trac_follow::{Place, Source, follow};
use trac_lint_memory::{Post, Since, Span, Stand, Ways, number_of};
use trac_moves::{Walker, place_of};
use trac_places::Sources;
use trac_rules::doubt::Doubt;

// So many places of a track are kept.
const POST_LIMIT: usize = 65_536;

/// How a track goes on.
#[derive(Clone, Copy, Debug)]
pub(crate) enum Next {
    /// No further: it ended at the byte of the files of this number.
    Found(u64),
    /// From this step, for which another walker is to be taken.
    From(u64),
    /// It is not known.
    Lost,
}

/// A byte that is followed back, and where it was.
#[derive(Drop)]
pub(crate) struct Track<A: Allocator + Copy> {
    alloc: A,
    stand: Stand,
    // the form in which it stands, or stood last, and how many items that has
    name: Vec<u8, A>,
    name_number: u64,
    len: usize,
    // up to which step it is known to stand there
    to: u64,
    // where it was
    posts: Vec<Post, A>,
}

impl<A: Allocator + Copy> Track<A> {
    /// Of the byte at a place, in no form, of the state at which a walker stands. It takes no memory.
    pub(crate) fn new(alloc: A, walker: &Walker<A>, place: Place<'_>) -> Self {
        Track {
            alloc,
            stand: Stand::of(place),
            name: Vec::new(alloc),
            name_number: 0,
            len: 0,
            to: walker.step(),
            posts: Vec::new(alloc),
        }
    }

    /// Where it was.
    pub(crate) fn posts(&self) -> &[Post] {
        self.posts.as_slice()
    }

    /// Goes back with a walker as far as that keeps steps, until the byte is found, or another walker is to be taken:
    /// also if the byte is known to have stood there more than `near` steps before. The error is refused memory.
    pub(crate) fn go_back(
        &mut self,
        walker: &mut Walker<A>,
        sources: &Sources<'_>,
        ways: &mut Ways<A>,
        near: u64,
    ) -> Result<Next, AllocError> {
        // Each turn but the last goes back over a step at least of those that are kept.
        for _ in 0..=walker.steps_back() {
            let step = walker.step();
            let since = self.since(step, ways)?;
            let post = self.post(since.from);
            if let Some(number) = ways.number(post) {
                return Ok(Next::Found(number));
            }
            if since.from < walker.first_step() || step.saturating_sub(since.from) > near {
                return Ok(Next::From(since.from));
            }
            if since.from < step {
                walker.back(step - since.from);
                continue;
            }
            if let Some(next) = self.pass(walker, sources, post, since.most)? {
                return Ok(next);
            }
        }
        Ok(Next::Lost)
    }

    // Since which step the byte is known to stand where it is.
    fn since(&self, step: u64, ways: &mut Ways<A>) -> Result<Since, AllocError> {
        match self.stand {
            Stand::Form(_) => ways.since(
                self.name_number,
                Span {
                    from: step,
                    to: self.to.max(step),
                    len: self.len,
                },
            ),
            _ => Ok(Since {
                from: step,
                most: u64::MAX,
            }),
        }
    }

    // Where it stands, at this step.
    fn post(&self, step: u64) -> Post {
        let name = match self.stand {
            Stand::Form(_) | Stand::Held(_, _) => self.name_number,
            _ => 0,
        };
        Post {
            step,
            stand: self.stand,
            name,
        }
    }

    // Follows the byte from this place over so many steps at most. Says how the track goes on, unless it does with
    // this walker.
    fn pass(
        &mut self,
        walker: &mut Walker<A>,
        sources: &Sources<'_>,
        post: Post,
        most: u64,
    ) -> Result<Option<Next>, AllocError> {
        match leg_of(walker, self.stand.place(self.name.as_slice()), most)? {
            Leg::Here(stand) => return Ok(self.stay(walker, sources, stand)),
            Leg::On(stand) => self.stand = stand,
            Leg::OfForm(item) => {
                self.name = walker.argument(self.alloc, 1)?;
                self.name_number = number_of(self.name.as_slice());
                self.stand = Stand::Form(item);
            }
            Leg::Read(n) => return self.found(post, walker.input_number(n)),
            Leg::Idle => return self.found(post, text_from(sources.tape, read_number(walker))),
            Leg::Nothing => return Ok(Some(Next::Lost)),
        }
        self.remember(post)?;
        self.arrive(walker);
        Ok(None)
    }

    // The end of the track, at the byte of this number.
    fn found(&mut self, post: Post, number: u64) -> Result<Option<Next>, AllocError> {
        self.remember(post)?;
        Ok(Some(Next::Found(number)))
    }

    // It stands here, to where a walker has gone back.
    fn stay(&mut self, walker: &Walker<A>, sources: &Sources<'_>, stand: Stand) -> Option<Next> {
        let same = self.stand == stand && self.len == self.form_len(walker);
        self.stand = stand;
        if !same {
            self.arrive(walker);
        }
        match walker.step() {
            0 => Some(Next::Found(text_from(sources.tape, 0))),
            step if walker.steps_back() == 0 => Some(Next::From(step)),
            _ => None,
        }
    }

    // It is known of this step alone that it stands where it does.
    fn arrive(&mut self, walker: &Walker<A>) {
        self.to = walker.step();
        self.len = self.form_len(walker);
    }

    // How many items its form has; 0 if it is in none.
    fn form_len(&self, walker: &Walker<A>) -> usize {
        match self.stand {
            Stand::Form(_) => walker.form_len(self.name.as_slice()),
            _ => 0,
        }
    }

    // Keeps a place where it was, unless many are kept.
    fn remember(&mut self, post: Post) -> Result<(), AllocError> {
        if self.posts.len() < POST_LIMIT {
            self.posts.push(post)?;
        }
        Ok(())
    }
}

// How a byte was followed.
#[derive(Clone, Copy)]
enum Leg {
    // It stands here before all steps that were gone over.
    Here(Stand),
    // It stood here, and the call that comes next passed it on.
    On(Stand),
    // That call took it out of this item of the form that its argument 1 names.
    OfForm(usize),
    // The next step read it.
    Read(usize),
    // It is the idle program's own.
    Idle,
    // Nothing stands there.
    Nothing,
}

// Follows a byte over so many steps at most. Of one that a call made, the name of the call is followed on. The error is
// that memory was refused.
fn leg_of<A: Allocator + Copy>(
    walker: &mut Walker<A>,
    place: Place<'_>,
    most: u64,
) -> Result<Leg, AllocError> {
    match follow(&mut walker.window.session, place, most).source {
        Source::Here(there) => Ok(Leg::Here(Stand::of(there))),
        Source::Passed(there) => Ok(Leg::On(Stand::of(there))),
        Source::OfForm(item) => Ok(Leg::OfForm(item)),
        Source::Read(n) => Ok(Leg::Read(n)),
        Source::Made if walker.glance().performs => {
            Ok(Leg::On(Stand::of(place_of(walker, Doubt::NoPrimitive))))
        }
        Source::Made => Ok(Leg::Idle),
        Source::Nothing => Ok(Leg::Nothing),
        Source::Memory => Err(AllocError),
    }
}
