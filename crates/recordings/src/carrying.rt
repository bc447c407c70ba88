use crate::memory::Workspace;
use crate::pattern::record_of;
use crate::plan::{Item, Lent, Plan, Seen, Step};
use crate::{outline, show};
use calls::fault::Decline;
use channel::plain::Plain;
use recorder::closed::ClosedRecording;
use recorder::list::whole::record_all;
use recorder::list::{Asked, Call};
use recorder::open::OpenRecording;
use recorder::open::making::check;
use std::alloc::{AllocError, Global};
use std::io;
use tape::traits::Recordable;
use tape::window::Window;

/// A call with its bytes.
fn call_of(item: Item, bytes: &[u8]) -> Call<'_> {
    match item {
        Item::Record(count) => Call::Record(record_of(bytes, count)),
        Item::Mark(kind) => Call::Mark(kind),
        Item::Warn => Call::Warn,
    }
}

/// The calls of a plan as a list.
fn list_of<'a>(
    heap: Global,
    steps: &[Step],
    bytes: &'a [u8],
) -> Result<Vec<Asked<'a>>, AllocError> {
    steps
        .iter()
        .map(|step| Asked {
            call: call_of(step.item, bytes),
            answer: Ok(()),
        })
        .collect(heap)
}

/// Carries out a call with what is lent to it.
fn carry_out<T: Recordable>(
    open: &mut OpenRecording,
    tape: &mut Window<T>,
    call: Call,
    lent: Lent,
    workspace: &mut Workspace,
) -> Result<(), Decline> {
    tape.count = lent.tracks;
    let bench_size = lent.bench.min(workspace.bench.len());
    let buffer_size = lent.buffer.min(workspace.track.len());
    open.call(
        tape,
        &Plain,
        call,
        &mut workspace.bench[0..bench_size],
        &mut workspace.track[0..buffer_size],
    )
}

/// Carries out the calls of a plan one by one, and puts what came of each beside it.
fn carry_out_all<T: Recordable>(
    open: &mut OpenRecording,
    tape: &mut Window<T>,
    bytes: &[u8],
    steps: &mut [Step],
    workspace: &mut Workspace,
) {
    for step in steps.iter_mut() {
        workspace.fill();
        let call = call_of(step.item, bytes);
        let answer = carry_out(open, tape, call, step.lent, workspace);
        step.seen = Some(Seen {
            answer,
            bench: workspace.bench_holds(),
            track: workspace.track_holds(),
        });
    }
}

/// Makes a recording with single calls, and closes it with the memory that is left for that.
fn run_apart<T: Recordable>(
    tape: &mut Window<T>,
    bytes: &[u8],
    plan: &mut Plan,
    group: &mut [u8],
    workspace: &mut Workspace,
    last: &mut Workspace,
) -> ClosedRecording {
    let mut open = OpenRecording::make(tape, plan.settings, group);
    let steps = plan.steps.as_mut_slice();
    carry_out_all(&mut open, tape, bytes, steps, workspace);
    tape.count = plan.lent.tracks;
    open.close(
        tape,
        &Plain,
        last.bench.as_mut_slice(),
        last.track.as_mut_slice(),
    )
}

/// Makes the recording of a plan with single calls, prints what came of them, and tells how many groups were stored.
fn make_apart<T: Recordable>(
    rt: &impl Print,
    heap: Global,
    tape: &mut Window<T>,
    bytes: &[u8],
    plan: &mut Plan,
    group: &mut [u8],
    workspace: &mut Workspace,
) -> io::Result<u16> {
    let mut last = Workspace::new(heap, plan.lent.bench, plan.lent.buffer)?;
    let closed = run_apart(tape, bytes, plan, group, workspace, &mut last);
    show::print_steps(rt, plan.steps.as_slice())?;
    show::print_closed(rt, closed)?;
    show::print_memory(rt, &last, group)?;
    Ok(closed.groups)
}

/// Makes the recording of a plan as one list, prints what came of it, and tells how many groups were stored.
fn make_whole<T: Recordable>(
    rt: &impl Print,
    heap: Global,
    tape: &mut T,
    bytes: &[u8],
    plan: &Plan,
    group: &mut [u8],
    workspace: &mut Workspace,
) -> io::Result<u16> {
    let mut list = list_of(heap, plan.steps.as_slice(), bytes)?;
    let closed = record_all(
        tape,
        &Plain,
        plan.settings,
        list.as_mut_slice(),
        group,
        workspace.bench.as_mut_slice(),
        workspace.track.as_mut_slice(),
    );
    show::print_list(rt, list.as_slice())?;
    show::print_closed(rt, closed)?;
    show::print_memory(rt, workspace, group)?;
    Ok(closed.groups)
}

/// Makes the recording of a plan, and prints what came of it.
pub(crate) fn run<T: Recordable>(
    rt: &impl Print,
    heap: Global,
    tape: &mut Window<T>,
    bytes: &[u8],
    plan: &mut Plan,
    group: &mut [u8],
    workspace: &mut Workspace,
) -> io::Result<()> {
    let checked = check(tape, plan.settings, group);
    show::print_check(rt, checked, plan.unclear)?;
    // No closure in the plan: a word of a line chooses, and each way needs other memory.
    let groups = if plan.apart {
        make_apart(rt, heap, tape, bytes, plan, group, workspace)?
    } else {
        make_whole(rt, heap, tape, bytes, plan, group, workspace)?
    };
    tape.count = plan.tracks;
    outline::print_groups(rt, tape, plan, groups, group, workspace)
}
