ghost use Rattle.std.specs.Prelude.{◌≡◌, ◌+◌, ◌-◌, ◌≤◌, ◌<◌, length, All, true, false, IfOk};
ghost use Rattle.hist_lock.specs.Held.{held, IsShare};

use hist_lock::{HistLock, Pass, StandsFor, Turn};
use std::alloc::{AllocError, Global};
use std::sync::Wait;
use std::test::Fail;
use std::thread;
use std::thread::Threads;
use std::time::{Clock, Duration};

#[derive(Debug, Drop)]
struct Line {
    by: u32,
    number: u32,
}

/// Lines, each written by an author.
#[derive(Drop)]
struct Log {
    lines: Vec<Line>,
}

impl StandsFor for Log {
    ghost use Rattle.std.specs.Prelude.{Some};

    type Entry = Line;

    ghost entries = { λ log. log.lines.items };

    ghost author = { λ line. Some line.by };
}

/// One turn that writes a line. Says whether memory was there for it.
fn write_line<R: Wait>(rt: &R, lock: &HistLock<Log>, pass: &mut Pass<Log>, number: u32) -> bool
    requires { (pass.old.lock ≡ lock.now) × (pass.old.turn ≡ false) }
    ensures lock { (pass.new.lock ≡ pass.old.lock) × (pass.new.turn ≡ false) }
    ensures share { (pass.new.room ≡ pass.old.room) × (pass.new.numbers ≡ pass.old.numbers) }
{
    let mut turn = lock.take(rt, pass);
    let by = pass.author();
    if turn.value.lines.push(Line { by, number }).is_err() {
        lock.give(pass, turn);
        return false;
    }
    lock.give_with(pass, turn);
    true
}

/// So many lines, each in a turn of its own.
fn write_lines<R: Wait>(rt: &R, lock: &HistLock<Log>, mut pass: Pass<Log>, count: u32) -> Pass<Log>
    requires { (pass.lock ≡ lock.now) × (pass.turn ≡ false) }
    ensures lock { (result.lock ≡ lock.now) × (result.turn ≡ false) }
    ensures share { (result.room ≡ pass.room) × (result.numbers ≡ pass.numbers) }
{
    for number in 0..count {
        if !write_line(rt, lock, &mut pass, number) {
            break;
        }
    }
    pass
}

/// Passes beside the first, so many, split from it in one turn.
fn split_passes<R: Wait>(
    rt: &R,
    alloc: Global,
    lock: &HistLock<Log>,
    first: &mut Pass<Log>,
    count: u32,
) -> Result<Vec<Pass<Log>>, AllocError>
    requires { IsShare lock.now 65536 first.old × (first.old.room ≡ 65535) × (count ≤ 100) }
    ensures first { IfOk result (λ passes. IsShare lock.now (65536 - length passes.items) first.new) }
    ensures len { IfOk result (λ passes. length passes.items ≡ count) }
    ensures new { IfOk result (λ passes. All (IsShare lock.now 1) passes.items) }
{
    let mut passes = Vec::new(alloc);
    let mut turn = lock.take(rt, first);
    for _ in 0..count {
        let Ok(new) = lock.split(first, &mut turn) else {
            unreachable!()
        };
        passes.push(new)?;
    }
    lock.give(first, turn);
    Ok(passes)
}

/// Each pass writes so many lines, in a thread of its own where there is one.
fn write_side_by_side<R: Threads + Wait + Sync>(
    rt: &R,
    lock: &HistLock<Log>,
    passes: Vec<Pass<Log>>,
    count: u32,
) -> Result<Vec<Pass<Log>>, AllocError>
    requires { All (IsShare lock.now 1) passes.items }
    ensures each { IfOk result (λ done. All (IsShare lock.now 1) done.items) }
    ensures len { IfOk result (λ done. length done.items ≡ length passes.items) }
{
    thread::map_vec(
        rt,
        passes,
        &|pass: Pass<Log>| -> Pass<Log>
            requires { IsShare lock.now 1 pass }
            ensures { IsShare lock.entry.now 1 result }
        { write_lines(rt, lock, pass, count) },
    )
}

/// Joins all passes into the first.
fn join_passes(lock: &HistLock<Log>, first: &mut Pass<Log>, mut passes: Vec<Pass<Log>>)
    requires first { (length passes.items ≤ 65536) × IsShare lock.now (65536 - length passes.items) first.old }
    requires passes { All (IsShare lock.now 1) passes.items }
    ensures { IsShare lock.now 65536 first.new }
{
    while let Some(pass) = passes.pop() {
        lock.join(first, pass);
    }
}

/// The log that so many authors write side by side, so many lines each.
fn written<R: Threads + Wait + Sync>(
    rt: &R,
    alloc: Global,
    authors: u32,
    count: u32,
) -> Result<Log, AllocError>
    requires { (0 < authors) × (authors ≤ 100) }
{
    let log = Log {
        lines: Vec::new(alloc),
    };
    let (lock, mut first) = HistLock::new(alloc, log)?;
    let passes = split_passes(rt, alloc, &lock, &mut first, authors - 1)?;
    let mut first = write_lines(rt, &lock, first, count);
    let passes = write_side_by_side(rt, &lock, passes, count)?;
    join_passes(&lock, &mut first, passes);
    Ok(lock.close(first))
}

/// How many lines the author wrote, where their numbers count up from 0.
fn lines_of(log: &Log, author: u32) -> Option<u32> {
    let mut count: u32 = 0;
    for line in log.lines.iter() {
        if line.by == author {
            if line.number != count {
                return None;
            }
            count = count.wrapping_add(1);
        }
    }
    Some(count)
}

/// So many authors, and so many lines that each of them writes.
const AUTHORS: [(u32, u32); 4] = [(1, 3), (2, 100), (4, 100), (9, 20)];

/// Whether so many authors wrote so many lines each, in their order.
fn all_write<R: Threads + Wait + Sync>(
    rt: &R,
    alloc: Global,
    authors: u32,
    count: u32,
) -> Result<bool, AllocError>
    requires { (0 < authors) × (authors ≤ 100) }
{
    let log = written(rt, alloc, authors, count)?;
    let mut is_right = log.lines.len() as u64 == authors as u64 * count as u64;
    for author in 0..authors {
        is_right = is_right && lines_of(&log, author) == Some(count);
    }
    Ok(is_right)
}

#[test]
fn each_author_writes_its_lines_in_order(rt: HostRuntime) -> Result<(), Fail> {
    for (authors, count) in AUTHORS {
        let is_right = all_write(&rt, rt.alloc(), authors.clamp(1, 100), count)?;
        assert!(rt; is_right, "{authors} authors");
    }
    Ok(())
}

/// What a second author wrote, of which the first learns by a note before both end, and that author's number.
fn noted<R: Wait>(rt: &R, alloc: Global) -> Result<(u32, Log), AllocError>
    ensures { IfOk result (λ r. r.0 ≡ 1) }
{
    let log = Log {
        lines: Vec::new(alloc),
    };
    let (lock, mut first) = HistLock::new(alloc, log)?;
    let mut turn = lock.take(rt, &mut first);
    let mut second = lock.split(&mut first, &mut turn)?;
    lock.give(&mut first, turn);
    write_line(rt, &lock, &mut second, 7);
    let note = lock.note(&mut second)?;
    lock.meet(&mut first, note);
    let author = second.author();
    lock.join(&mut first, second);
    Ok((author, lock.close(first)))
}

/// Whether the log has this one line.
fn has_one_line(log: &Log, by: u32, number: u32) -> bool {
    match log.lines.as_slice() {
        [line] => line.by == by && line.number == number,
        _ => false,
    }
}

#[test]
fn a_note_is_met(rt: HostRuntime) -> Result<(), Fail> {
    let (author, log) = noted(&rt, rt.alloc())?;
    assert!(rt; author == 1);
    assert!(rt; has_one_line(&log, 1, 7));
    Ok(())
}

/// Gives the turn back after a while, in which whoever asks for the next one falls asleep.
fn give_late<R: Clock>(
    rt: &R,
    lock: &HistLock<Log>,
    mut pass: Pass<Log>,
    turn: Turn<Log>,
) -> Pass<Log>
    requires pass { (pass.lock ≡ lock.now) × (pass.turn ≡ true) × (pass.room + held pass ≡ 65535) }
    requires list { turn.value.lines.items ≡ pass.front }
    ensures { IsShare lock.now 65535 result }
{
    thread::sleep(rt, Duration::from_millis(100));
    lock.give(&mut pass, turn);
    pass
}

/// The log in which a second author writes a line, who has to ask for the turn while the first has it.
fn woken<R: Threads + Wait + Clock + Sync>(rt: &R, alloc: Global) -> Result<Log, AllocError> {
    let log = Log {
        lines: Vec::new(alloc),
    };
    let (lock, mut first) = HistLock::new(alloc, log)?;
    let mut turn = lock.take(rt, &mut first);
    let second = lock.split(&mut first, &mut turn)?;
    let (second, mut first) = thread::join(
        rt,
        || -> Pass<Log>
            requires { IsShare lock 1 second }
            ensures { IsShare lock 1 result }
        { write_lines(rt, &lock, second, 1) },
        || -> Pass<Log>
            requires pass { (first.lock ≡ lock) × (first.turn ≡ true) × (first.room + held first ≡ 65535) }
            requires list { turn.value.lines.items ≡ first.front }
            ensures { IsShare lock 65535 result }
        { give_late(rt, &lock, first, turn) },
    );
    lock.join(&mut first, second);
    Ok(lock.close(first))
}

#[test]
fn who_waits_for_the_turn_is_woken(rt: HostRuntime) -> Result<(), Fail> {
    for _ in 0..3 {
        let log = woken(&rt, rt.alloc())?;
        assert!(rt; has_one_line(&log, 1, 0));
    }
    Ok(())
}
