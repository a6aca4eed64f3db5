//! Two callers, a resolver and a scanner at one table, each in a thread of its own.
ghost use Rattle.std.specs.Prelude.{◌≡◌, ℕ, ◌+◌, ◌*◌, ◌<◌, ◌≤◌, false, true, [], ◌∷◌, ◌++◌, IfOk, length};
ghost use Rattle.std.specs.Option.{option_to_list};
ghost use Rattle.pending_table.specs.DeskLogs.{blank_log};
ghost use Rattle.pending_table.specs.Elements.{EachAt};
ghost use Rattle.pending_table.specs.TableSeats.{IsDeskSeat, IsWindowSeat, log_of, site_at, window_log_of};
ghost use Rattle.pending_table.specs.WindowLogs.{blank_window};
ghost use Rattle.pending_table.specs.Words.{slot_of};

use crate::{
    Closed, Desk, DeskSeat, Look, Offered, SharedDesk, SharedTable, SharedWindow, Tag, Taken,
    Window, WindowSeat,
};
use std::alloc::{AllocError, Global};
use std::process::Abort;
use std::sync::Wait;
use std::sync::atomic::{AtomicBool, Ordering};
use std::test::Fail;
use std::thread::{Threads, join, yield_now};

/// How many ids each caller opens.
const CALLS: u64 = 10_000;

/// How many rounds a thread goes before it lets others run.
const ROUNDS: u64 = 256;

/// The first id of each call of a caller.
fn id_of(call: u64, caller: u32) -> u64
    requires { (call < 10000) × (caller < 2) }
    ensures id { result ≡ 32 * call + 16 * caller }
    ensures slot { slot_of 2 result ≡ caller }
{
    32 * call + 16 * u64::from(caller)
}

/// The scanner resolves every second call, and every fourth it races the resolver for.
fn is_due(call: u64) -> bool {
    call % 2 == 0
}

fn is_offered(call: u64) -> bool {
    call % 4 != 0
}

/// Waits until the open id is resolved.
fn wait_for<D: Desk<Tag>, W: Wait + Abort>(rt: &W, desk: &mut D) -> Taken<Tag>
    requires { (D.log desk.old).is_open ≡ true }
    ensures site { D.site desk.new ≡ D.site desk.old }
    ensures free { (D.log desk.new).is_open ≡ false }
    ensures last { (D.log desk.new).last ≡ (D.log desk.old).last }
{
    let mut round = 0u64;
    for _ in rt.forever() {
        match desk.look() {
            Look::Ready(given) => return given,
            Look::Pending => (),
            Look::Lost { number } => panic!(rt; "lost {number}"),
        }
        round = round.wrapping_add(1);
        if round % ROUNDS == 0 {
            yield_now();
        }
    }
    unreachable!()
}

/// Opens ids one after another, and counts those that were answered by a reply.
fn call_all<D: Desk<Tag>, W: Wait + Abort>(rt: &W, desk: &mut D, caller: u32) -> u64
    requires site { ((D.site desk.old).slots ≡ 2) × ((D.site desk.old).number ≡ caller) × (caller < 2) }
    requires fresh { ((D.log desk.old).is_open ≡ false) × ((D.log desk.old).last ≡ 0) }
    ensures site { D.site desk.new ≡ D.site desk.old }
    ensures free { (D.log desk.new).is_open ≡ false }
{
    let mut replies = 0u64;
    for call in 0..CALLS {
        let id = id_of(call, caller);
        let deadline = if is_due(call) { 1 } else { u64::MAX };
        desk.open(id, deadline);
        match wait_for(rt, desk) {
            Taken::Reply(tag) => {
                assert_eq!(rt; tag, Tag(id));
                replies = replies.wrapping_add(1);
            }
            Taken::Timeout { deadline, moment } => {
                assert!(rt; is_due(call) && deadline == 1 && moment == 1);
            }
            given => panic!(rt; "{given:?}"),
        }
    }
    replies
}

/// Answers the calls of both callers in turn, and counts the answers that were taken.
fn resolve_all<S: Window<Tag>, W: Wait>(rt: &W, window: &mut S) -> u64
    ensures site { S.site window.new ≡ S.site window.old }
{
    let mut taken = 0u64;
    for call in 0..CALLS {
        for caller in 0..2 {
            if !is_offered(call) {
                continue;
            }
            for _ in rt.forever() {
                let id = id_of(call, caller);
                if let Offered::Taken = window.offer(id, Taken::Reply(Tag(id))) {
                    taken = taken.wrapping_add(1);
                    break;
                }
                if is_due(call) {
                    break;
                }
                yield_now();
            }
        }
    }
    taken
}

/// Scans until it is stopped, always at the moment 1.
fn scan_all<S: Window<Tag>, W: Wait>(rt: &W, window: &mut S, stop: &AtomicBool)
    ensures site { S.site window.new ≡ S.site window.old }
{
    for _ in rt.forever() {
        if stop.load(Ordering::SeqCst) {
            return;
        }
        window.expire(1);
    }
    unreachable!()
}

/// The calls of one caller, at the desk that has this seat.
fn call_at<W: Wait + Abort>(
    rt: &W,
    table: &SharedTable<Tag>,
    seat: DeskSeat<Tag>,
    caller: u32,
) -> (DeskSeat<Tag>, u64)
    requires caller { ((site_at table.now caller).slots ≡ 2) × (caller < 2) }
    requires seat { IsDeskSeat (site_at table.now caller) seat × (log_of seat ≡ blank_log) }
    ensures seat { IsDeskSeat (site_at table.now caller) result.0 × ((log_of result.0).is_open ≡ false) }
{
    let mut desk = table.desk(seat);
    let replies = call_all(rt, &mut desk, caller);
    (desk.into_seat(), replies)
}

/// Both callers, beside one another.
fn call_both<W: Threads + Wait + Abort + Sync>(
    rt: &W,
    table: &SharedTable<Tag>,
    first: DeskSeat<Tag>,
    second: DeskSeat<Tag>,
) -> ((DeskSeat<Tag>, u64), (DeskSeat<Tag>, u64))
    requires slots { (site_at table.now 0).slots ≡ 2 }
    requires first { IsDeskSeat (site_at table.now 0) first × (log_of first ≡ blank_log) }
    requires second { IsDeskSeat (site_at table.now 1) second × (log_of second ≡ blank_log) }
    ensures first { IsDeskSeat (site_at table.now 0) result.0.0 × ((log_of result.0.0).is_open ≡ false) }
    ensures second { IsDeskSeat (site_at table.now 1) result.1.0 × ((log_of result.1.0).is_open ≡ false) }
{
    join(
        rt,
        move || -> (DeskSeat<Tag>, u64)
            requires { ((site_at table.now 0).slots ≡ 2) × IsDeskSeat (site_at table.now 0) first × (log_of first ≡ blank_log) }
            ensures { IsDeskSeat (site_at table.entry.now 0) result.0 × ((log_of result.0).is_open ≡ false) }
        { call_at(rt, table, first, 0) },
        move || -> (DeskSeat<Tag>, u64)
            requires { ((site_at table.now 1).slots ≡ 2) × IsDeskSeat (site_at table.now 1) second × (log_of second ≡ blank_log) }
            ensures { IsDeskSeat (site_at table.entry.now 1) result.0 × ((log_of result.0).is_open ≡ false) }
        { call_at(rt, table, second, 1) },
    )
}

/// The resolver and the scanner, beside one another.
fn resolve_both<W: Threads + Wait + Sync>(
    rt: &W,
    table: &SharedTable<Tag>,
    reader: WindowSeat<Tag>,
    scanner: WindowSeat<Tag>,
    stop: &AtomicBool,
) -> ((WindowSeat<Tag>, u64), WindowSeat<Tag>)
    requires reader { IsWindowSeat (site_at table.now 0) reader }
    requires scanner { IsWindowSeat (site_at table.now 2) scanner }
    ensures reader { IsWindowSeat (site_at table.now 0) result.0.0 }
    ensures scanner { IsWindowSeat (site_at table.now 2) result.1 }
{
    join(
        rt,
        move || -> (WindowSeat<Tag>, u64)
            requires { IsWindowSeat (site_at table.now 0) reader }
            ensures { IsWindowSeat (site_at table.entry.now 0) result.0 }
        {
            let mut window = table.window(reader);
            let taken = resolve_all(rt, &mut window);
            (window.into_seat(), taken)
        },
        move || -> WindowSeat<Tag>
            requires { IsWindowSeat (site_at table.now 2) scanner }
            ensures { IsWindowSeat (site_at table.entry.now 2) result }
        {
            let mut window = table.window(scanner);
            scan_all(rt, &mut window, stop);
            window.into_seat()
        },
    )
}

/// A row of seats.
fn row<T: Drop>(alloc: Global, first: T, second: T, third: Option<T>) -> Result<Vec<T>, AllocError>
    ensures { IfOk result (λ seats. seats.items ≡ first ∷ second ∷ option_to_list third) }
{
    let mut seats = Vec::with_capacity(alloc, 3)?;
    seats.push_reserved(first);
    seats.push_reserved(second);
    if let Some(third) = third {
        seats.push_reserved(third);
    }
    Ok(seats)
}

/// The last of some seats.
fn last_of<T>(seats: &mut Vec<T>) -> T
    requires { 0 < length seats.old.items }
    ensures { seats.old.items ≡ seats.new.items ++ result ∷ [] }
{
    let Some(last) = seats.pop() else {
        unreachable!()
    };
    last
}

/// All four, until the callers are done.
fn all_four<W: Threads + Wait + Abort + Sync>(
    rt: &W,
    table: &SharedTable<Tag>,
    desks: (DeskSeat<Tag>, DeskSeat<Tag>),
    windows: (WindowSeat<Tag>, WindowSeat<Tag>),
) -> (
    ((DeskSeat<Tag>, u64), (DeskSeat<Tag>, u64)),
    ((WindowSeat<Tag>, u64), WindowSeat<Tag>),
)
    requires slots { (site_at table.now 0).slots ≡ 2 }
    requires first { IsDeskSeat (site_at table.now 0) desks.0 × (log_of desks.0 ≡ blank_log) }
    requires second { IsDeskSeat (site_at table.now 1) desks.1 × (log_of desks.1 ≡ blank_log) }
    requires windows { IsWindowSeat (site_at table.now 0) windows.0 × IsWindowSeat (site_at table.now 2) windows.1 }
    ensures first { IsDeskSeat (site_at table.now 0) result.0.0.0 × ((log_of result.0.0.0).is_open ≡ false) }
    ensures second { IsDeskSeat (site_at table.now 1) result.0.1.0 × ((log_of result.0.1.0).is_open ≡ false) }
    ensures windows { IsWindowSeat (site_at table.now 0) result.1.0.0 × IsWindowSeat (site_at table.now 2) result.1.1 }
{
    let stop = AtomicBool::new(false);
    let flag = &stop;
    let (first, second) = desks;
    let (reader, scanner) = windows;
    join(
        rt,
        move || -> ((DeskSeat<Tag>, u64), (DeskSeat<Tag>, u64))
            requires { ((site_at table.now 0).slots ≡ 2) × (IsDeskSeat (site_at table.now 0) first × (log_of first ≡ blank_log))
                × IsDeskSeat (site_at table.now 1) second × (log_of second ≡ blank_log) }
            ensures { (IsDeskSeat (site_at table.entry.now 0) result.0.0 × ((log_of result.0.0).is_open ≡ false))
                × IsDeskSeat (site_at table.entry.now 1) result.1.0 × ((log_of result.1.0).is_open ≡ false) }
        {
            let both = call_both(rt, table, first, second);
            flag.store(true, Ordering::SeqCst);
            both
        },
        move || -> ((WindowSeat<Tag>, u64), WindowSeat<Tag>)
            requires { IsWindowSeat (site_at table.now 0) reader × IsWindowSeat (site_at table.now 2) scanner }
            ensures { IsWindowSeat (site_at table.entry.now 0) result.0.0 × IsWindowSeat (site_at table.entry.now 2) result.1 }
        { resolve_both(rt, table, reader, scanner, flag) },
    )
}

/// All four at a new table, which is closed once they are done: how many ids it counted, how many
/// replies the callers got, and how many the resolver gave.
fn play<W: Threads + Wait + Abort + Sync>(
    rt: &W,
    alloc: Global,
    table: SharedTable<Tag>,
    mut desks: Vec<DeskSeat<Tag>>,
    mut windows: Vec<WindowSeat<Tag>>,
) -> Result<(Closed, u64, u64), AllocError>
    requires slots { (site_at table 0).slots ≡ 2 }
    requires counts { (length desks.items ≡ 2) × (length windows.items ≡ 3) }
    requires desks { EachAt (λ slot seat. IsDeskSeat (site_at table slot) seat × (log_of seat ≡ blank_log)) desks.items }
    requires windows { EachAt (λ number seat. IsWindowSeat (site_at table number) seat × (window_log_of seat ≡ blank_window)) windows.items }
{
    let second = last_of(&mut desks);
    let first = last_of(&mut desks);
    let scanner = last_of(&mut windows);
    let writer = last_of(&mut windows);
    let reader = last_of(&mut windows);
    let (called, resolved) = all_four(rt, &table, (first, second), (reader, scanner));
    let ((first, some), (second, others)) = called;
    let ((reader, taken), scanner) = resolved;
    let desks = row(alloc, first, second, None)?;
    let windows = row(alloc, reader, writer, Some(scanner))?;
    let closed = table.close(desks, windows);
    Ok((closed, some.wrapping_add(others), taken))
}

/// A desk and a window leave their seats in another thread.
fn leave_there<'a, W: Threads>(
    rt: &W,
    desk: SharedDesk<'a, Tag>,
    window: SharedWindow<'a, Tag>,
) -> (DeskSeat<Tag>, WindowSeat<Tag>) {
    join(rt, move || (desk.into_seat(), window.into_seat()), || ()).0
}

#[test]
fn each_call_is_answered_once(rt: HostRuntime) -> Result<(), Fail> {
    let (table, desks, windows) = SharedTable::new(rt.alloc(), &(), 2)?;
    let (closed, replies, taken) = play(&rt, rt.alloc(), table, desks, windows)?;
    assert_eq!(rt; closed.opened(), 2 * CALLS);
    assert_eq!(rt; closed.settled(), 2 * CALLS);
    assert_eq!(rt; replies, taken);
    assert!(rt; replies >= CALLS);
    Ok(())
}
