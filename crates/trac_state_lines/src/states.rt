//! The state of a machine, as lines.
ghost use Rattle.std.specs.Prelude.{◌≡◌, ◌++◌, reverse, IfOk, OnOk, None, Some, codes, option_map};
ghost use Rattle.std.specs.FinMap as finite;
ghost use Rattle.std.specs.List.{enumerate_from, flat_map};
ghost use Rattle.trac_state_lines.specs.StateLines.{arguments_line, block_lines, form_line, frame_line, lines_of_block};
ghost use Rattle.trac_state_lines.specs.StateLines.{machine_text, sharps, trace_line};
ghost use Rattle.trac_streams.specs.Escapes.{number_line};

use crate::form_lines::form_line_into;
use std::alloc::{AllocError, Allocator};
use trac_forms::{Block, Store};
use trac_gap::TwoEnds;
use trac_step::{Args, Core, Kind, Machine, Mark};
use trac_streams::{number_into, number_line_into, text_into, text_line_into};

/// All parts of a machine's state, and that there are so many records, as lines. The error is that memory was refused.
pub fn machine_lines<A: Allocator + Copy>(
    alloc: A,
    machine: &Machine<A>,
    records: usize,
) -> Result<Vec<u8, A>, AllocError>
    ensures { IfOk result
        (λ text. text.items ≡ machine_text machine.now.state ++ number_line (codes "journal") records) }
{
    let mut out = Vec::new(alloc);
    machine_into(machine, &mut out)?;
    number_line_into(b"journal", records as u64, &mut out)?;
    Ok(out)
}

// All parts of a machine's state, as lines. Here and below the machine may be of any representation: that the gap
// buffer is one is shown once, where a session's machine is passed on, and not at each call.
fn machine_into<E: TwoEnds<u8, A>, M: TwoEnds<Mark, A>, A: Allocator + Copy, B: Allocator>(
    machine: &Core<E, M, A>,
    out: &mut Vec<u8, B>,
) -> Result<(), AllocError>
    ensures { OnOk result (out.new.items ≡ out.old.items ++ machine_text machine.now.state) }
{
    text_line_into(b"active", machine.active(), out)?;
    text_line_into(b"base", machine.base(), out)?;
    frames_into(machine, out)?;
    forms_into(machine.store(), out)?;
    blocks_into(machine.store(), out)?;
    text_line_into(b"meta", &[machine.meta()], out)?;
    trace_into(machine.trace(), out)?;
    number_line_into(b"position", machine.position() as u64, out)?;
    text_line_into(b"output", machine.output(), out)
}

// The begun functions from the outermost on, each a line.
fn frames_into<E: TwoEnds<u8, A>, M: TwoEnds<Mark, A>, A: Allocator + Copy, B: Allocator>(
    machine: &Core<E, M, A>,
    out: &mut Vec<u8, B>,
) -> Result<(), AllocError>
    ensures { OnOk result (out.new.items ≡ out.old.items ++ flat_map frame_line (reverse machine.now.state.frames)) }
{
    for (kind, arguments) in machine.begun_functions() {
        frame_into(kind, &arguments, out)?;
    }
    Ok(())
}

// A begun function of this kind with these arguments, as a line.
fn frame_into<B: Allocator>(
    kind: Kind,
    arguments: &Args<'_>,
    out: &mut Vec<u8, B>,
) -> Result<(), AllocError>
    ensures { OnOk result (out.new.items ≡ out.old.items ++ arguments_line kind arguments.now) }
{
    out.extend_from_slice(b"call ")?;
    sharps_into(kind, out)?;
    out.extend_from_slice(b" ")?;
    for i in 0..arguments.count() {
        text_into(arguments.get(i), out)?;
    }
    out.extend_from_slice(b"\n")
}

// How the kind of a begun function is written.
fn sharps_into<B: Allocator>(kind: Kind, out: &mut Vec<u8, B>) -> Result<(), AllocError>
    ensures { OnOk result (out.new.items ≡ out.old.items ++ sharps kind) }
{
    match kind {
        Kind::Active => out.extend_from_slice(b"#"),
        Kind::Neutral => out.extend_from_slice(b"##"),
    }
}

// Whether each call is printed, as a line.
fn trace_into<B: Allocator>(trace: bool, out: &mut Vec<u8, B>) -> Result<(), AllocError>
    ensures { OnOk result (out.new.items ≡ out.old.items ++ trace_line trace) }
{
    if trace {
        out.extend_from_slice(b"trace on\n")
    } else {
        out.extend_from_slice(b"trace off\n")
    }
}

// The forms by their names, each a line.
fn forms_into<A: Allocator + Copy, B: Allocator>(
    store: &Store<A>,
    out: &mut Vec<u8, B>,
) -> Result<(), AllocError>
    ensures { OnOk result
        (out.new.items ≡ out.old.items ++ flat_map (form_line (codes "form")) (finite.entries store.now.forms)) }
{
    let Ok(names) = store.names() else {
        return Err(AllocError);
    };
    for name in &names {
        let Some(form) = store.get(name) else {
            unreachable!();
        };
        form_line_into(b"form", name, form, out)?;
    }
    Ok(())
}

// The blocks, each a line, and a line for each form that it holds.
fn blocks_into<A: Allocator + Copy, B: Allocator>(
    store: &Store<A>,
    out: &mut Vec<u8, B>,
) -> Result<(), AllocError>
    ensures { OnOk result (out.new.items ≡ out.old.items ++ flat_map block_lines (enumerate_from 0 store.now.blocks)) }
{
    for i in 0..store.block_count() {
        numbered_block_into(i, store.block(i), out)?;
    }
    Ok(())
}

// The block of this number, erased or not, as lines.
fn numbered_block_into<A: Allocator + Copy, B: Allocator>(
    i: usize,
    block: Option<&Block<A>>,
    out: &mut Vec<u8, B>,
) -> Result<(), AllocError>
    ensures { OnOk result
        (out.new.items ≡ out.old.items ++ lines_of_block i (option_map (λ b. b.now.held) block.entry)) }
{
    match block {
        Some(block) => block_into(i, block, out),
        None => erased_into(i, out),
    }
}

// An erased block of this number, as a line.
fn erased_into<B: Allocator>(i: usize, out: &mut Vec<u8, B>) -> Result<(), AllocError>
    ensures { OnOk result (out.new.items ≡ out.old.items ++ lines_of_block i None) }
{
    out.extend_from_slice(b"block ")?;
    number_into(i as u64, out)?;
    out.extend_from_slice(b" erased\n")
}

// A block of this number, as a line, and each form that it holds.
fn block_into<A: Allocator + Copy, B: Allocator>(
    i: usize,
    block: &Block<A>,
    out: &mut Vec<u8, B>,
) -> Result<(), AllocError>
    ensures { OnOk result (out.new.items ≡ out.old.items ++ lines_of_block i (Some block.now.held)) }
{
    number_line_into(b"block", i as u64, out)?;
    for place in 0..block.len() {
        let Some((name, form)) = block.get(place) else {
            unreachable!();
        };
        form_line_into(b"held", name, form, out)?;
    }
    Ok(())
}
