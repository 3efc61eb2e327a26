//! The exchange with an editor: requests from a reader, responses and events to a writer.

use crate::adapter::{Adapter, Turn, refuse_all};
use crate::outbox::Outbox;
use crate::programs::Programs;
use std::alloc::{AllocError, Allocator, Global};
use std::io::{Read, Write};
use trac_messages::{Incoming, Next, write_message};
use trac_streams::Ending;

/// How an exchange ended.
#[derive(Clone, Copy, Debug, PartialEq, Eq)]
pub enum Finish {
    /// The editor asked for the end.
    Asked,
    /// The messages ended.
    Unasked,
    /// The reader or the writer failed, or memory was refused for a message or a response.
    Failed(Ending),
}

/// Takes messages, and writes what is to be sent for each before it reads on, to the end of the exchange.
pub fn serve<R: Read, W: Write, P: Programs<A>, A: Allocator + Copy>(
    alloc: Global,
    adapter: &mut Adapter<'_, P, A>,
    input: &mut R,
    output: &mut W,
) -> Finish {
    let mut incoming = Incoming::new(alloc);
    let mut outbox = Outbox::new(alloc);
    let mut turn = Turn::GoesOn;
    for _turn in 0..u64::MAX {
        let next = if turn == Turn::Works {
            None
        } else {
            match incoming.next(input) {
                Ok(Next::End | Next::Cut) => return Finish::Unasked,
                Ok(next) => Some(next),
                Err(ending) => return Finish::Failed(ending),
            }
        };
        turn = match take(adapter, next, incoming.message(), &mut outbox) {
            Ok(turn) => turn,
            Err(AllocError) => return Finish::Failed(Ending::Memory),
        };
        if let Err(ending) = send(alloc, &mut outbox, output) {
            return Finish::Failed(ending);
        }
        if turn == Turn::Ends {
            return Finish::Asked;
        }
    }
    Finish::Unasked
}

// Takes what came next; if nothing did, goes on with a program that runs. The error is that memory was refused.
fn take<P: Programs<A>, A: Allocator + Copy>(
    adapter: &mut Adapter<'_, P, A>,
    next: Option<Next>,
    message: &[u8],
    outbox: &mut Outbox,
) -> Result<Turn, AllocError> {
    let why = match next {
        None => return adapter.work(outbox),
        Some(Next::Message) => return adapter.take(message, outbox),
        Some(Next::TooLong(_)) => "this message has more than 16777216 bytes",
        Some(_) => "this header has no Content-Length",
    };
    refuse_all(outbox, why)
}

// Sends what is to be sent.
fn send<W: Write>(alloc: Global, outbox: &mut Outbox, output: &mut W) -> Result<(), Ending> {
    for message in outbox.messages() {
        let Ok(text) = message.to_vec(alloc) else {
            return Err(Ending::Memory);
        };
        write_message(alloc, output, text.as_slice())?;
    }
    outbox.clear();
    Ok(())
}
