//! Runs a program in a session, goes back over steps, and follows a byte that was printed to where it was read.
#![tactic(auto)]

use trac_processor::{Place, Session, Source, Width, follow};

fn main(rt: HostRuntime) -> anyhow::Result<()> {
    let mut session = Session::new(rt.alloc(), 1_000, Width::W128)?;
    walk(&rt, &mut session)
}

fn walk(rt: &impl Print, session: &mut Session) -> anyhow::Result<()> {
    session.feed(b"#(ps,(Hello, world.))'")?;
    session.end();
    let run = session.forward(1_000);
    println!(rt; "{} steps forward, then {:?}", run.done, run.why)?;
    println!(rt; "printed: {}", str::from_utf8(session.pending())?)?;

    let back = session.back(10);
    println!(rt;
        "{} steps back: {} bytes printed",
        back.done,
        session.pending().len()
    )?;
    session.forward(back.done);

    // byte 7 of the output is the w
    let printed = follow(session, Place::Output(7), 1_000);
    println!(rt; "{} steps back it was printed", printed.steps)?;
    if let Source::Passed(argument) = printed.source {
        let read = follow(session, argument, 1_000);
        if let Source::Read(place) = read.source {
            println!(rt;
                "{} steps before that it was read, as byte {place}",
                read.steps
            )?;
        }
    }
    Ok(())
}
