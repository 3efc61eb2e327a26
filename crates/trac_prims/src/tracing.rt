//! The line that is printed for each call while the trace is on.
ghost use Rattle.std.specs.Prelude.{◌≡◌, ◌++◌, IsOkUnless, OnOk};
ghost use Rattle.std.specs.List.{join_with_byte};
ghost use Rattle.trac_rules.specs.Performing.{trace_line};

use std::alloc::Allocator;
use trac_rules::byte::{CLOSING, LINE_FEED, STAR};
use trac_rules::kind::Kind;
use trac_rules::refusal::Refusal;
use trac_text::Args;
use trac_text::front::beginning_of;

// Puts the line of a call by a function of this kind at the end of `out`, if the trace is on.
pub(crate) fn line_into<A: Allocator + Copy>(
    trace: bool,
    kind: Kind,
    args: &Args<'_>,
    out: &mut Vec<u8, A>,
) -> Result<(), Refusal>
    ensures ok { OnOk result (out.new.items ≡ out.old.items ++ trace_line trace kind args.now) }
    ensures err { IsOkUnless result Refusal.Memory }
{
    if !trace {
        return Ok(());
    }
    out.extend_from_slice(beginning_of(kind))?;
    join_into(args, out)?;
    out.push(CLOSING)?;
    out.push(LINE_FEED)?;
    Ok(())
}

// Puts all arguments at the end of `out`, with `*` between them.
fn join_into<A: Allocator + Copy>(args: &Args<'_>, out: &mut Vec<u8, A>) -> Result<(), Refusal>
    ensures ok { OnOk result (out.new.items ≡ out.old.items ++ join_with_byte STAR args.now) }
    ensures err { IsOkUnless result Refusal.Memory }
{
    out.extend_from_slice(args.get(0))?;
    for i in 1..args.count() {
        out.push(STAR)?;
        out.extend_from_slice(args.get(i))?;
    }
    Ok(())
}
