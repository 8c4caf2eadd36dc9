// All that the reads show of the state, as far as it has changed.
use super::show;
use exports::{dpc_calls, scheduler_calls, tags, thread_calls, timer_calls};
use std::io;

// What is read by position, or by a mutex's key.
#[derive(Clone, Copy)]
enum Table {
    Threads,
    Events,
    Timers,
    Dpcs,
    Queue,
    Owners,
    Waiters,
}

impl Table {
    fn name(self) -> &'static str {
        match self {
            Table::Threads => "thread",
            Table::Events => "event",
            Table::Timers => "timer",
            Table::Dpcs => "dpc",
            Table::Queue => "queued",
            Table::Owners => "owner",
            Table::Waiters => "waiters",
        }
    }

    // Where its answers stand in what has been shown, in answers.
    fn first(self) -> usize {
        match self {
            Table::Threads => 0,
            Table::Events => 256,
            Table::Timers => 384,
            Table::Dpcs => 512,
            Table::Queue => 640,
            Table::Owners => 768,
            Table::Waiters => 784,
        }
    }

    // How many positions are read at most.
    fn most(self) -> usize {
        match self {
            Table::Threads => 256,
            _ => 128,
        }
    }

    fn read(self, w: &[u64], argument: u64) -> [u64; 24] {
        let mut out = [0u64; 24];
        let number = match self {
            Table::Threads => thread_calls::scheduler_threads(w, argument, &mut out),
            Table::Events => scheduler_calls::scheduler_event_states(w, argument, &mut out),
            Table::Timers => timer_calls::scheduler_timers(w, argument, &mut out),
            Table::Dpcs => dpc_calls::scheduler_dpcs(w, argument, &mut out),
            Table::Queue => dpc_calls::scheduler_queued_dpcs(w, argument, &mut out),
            Table::Owners => scheduler_calls::scheduler_mutex_owner(w, argument, &mut out),
            Table::Waiters => scheduler_calls::scheduler_mutex_waiters(w, argument, &mut out),
        };
        show::refuse(&mut out, number);
        out
    }
}

// An object of a thread's wait, if there is one.
fn object(rt: &impl Print, w: &[u64], id: u64, position: u64) -> io::Result<bool> {
    let mut out = [0u64; 24];
    let number = thread_calls::scheduler_waited_object(w, id, position, &mut out);
    show::refuse(&mut out, number);
    if words::get(&out, 0) == tags::NONE {
        return Ok(false);
    }
    rt.write_all(b", ")?;
    show::answer(rt, &out)?;
    Ok(true)
}

fn objects(rt: &impl Print, w: &[u64], id: u64) -> io::Result<()> {
    for position in 0..65 {
        if !object(rt, w, id, position)? {
            return Ok(());
        }
    }
    Ok(())
}

// The answer about a position or a key, if it is news; behind a thread's the objects of its wait.
fn tell(
    rt: &impl Print,
    table: Table,
    i: usize,
    argument: u64,
    out: &[u64],
    w: &[u64],
    kept: &mut [u64],
) -> io::Result<()> {
    if show::is_news(kept, table.first().saturating_add(i), out) {
        show::title_of(rt, table.name(), argument)?;
        show::answer(rt, out)?;
        if let Table::Threads = table {
            objects(rt, w, words::get(out, 1))?;
        }
        show::end_line(rt)?;
    }
    Ok(())
}

// The answers of a table, up to the last.
fn positions(rt: &impl Print, table: Table, w: &[u64], kept: &mut [u64]) -> io::Result<()> {
    for i in 0..table.most() {
        let out = table.read(w, i as u64);
        if show::is_past(kept, table.first().saturating_add(i), &out) {
            return Ok(());
        }
        tell(rt, table, i, i as u64, &out, w, kept)?;
    }
    Ok(())
}

// Mutexes are read by key alone.
fn mutexes(rt: &impl Print, w: &[u64], count: usize, kept: &mut [u64]) -> io::Result<()> {
    for i in 0..count {
        let key = words::get_in(kept, show::KEYS_AT, i);
        let owner = Table::Owners.read(w, key);
        tell(rt, Table::Owners, i, key, &owner, w, kept)?;
        let waiters = Table::Waiters.read(w, key);
        tell(rt, Table::Waiters, i, key, &waiters, w, kept)?;
    }
    Ok(())
}

// What is read with no argument.
#[derive(Clone, Copy)]
enum Single {
    Current,
    PendingTimer,
    TimerInitializations,
    DpcInitializations,
    Active,
    Next,
    Policy,
    Counters,
}

impl Single {
    fn name(self) -> &'static str {
        match self {
            Single::Current => "current",
            Single::PendingTimer => "pending timer",
            Single::TimerInitializations => "timer initializations",
            Single::DpcInitializations => "dpc initializations",
            Single::Active => "active",
            Single::Next => "next",
            Single::Policy => "policy",
            Single::Counters => "counters",
        }
    }

    // Where its answer stands in what has been shown, in answers.
    fn place(self) -> usize {
        match self {
            Single::Current => 800,
            Single::PendingTimer => 801,
            Single::TimerInitializations => 802,
            Single::DpcInitializations => 803,
            Single::Active => 804,
            Single::Next => 805,
            Single::Policy => 806,
            Single::Counters => 807,
        }
    }

    fn read(self, w: &[u64]) -> [u64; 24] {
        let mut out = [0u64; 24];
        let number = match self {
            Single::Current => scheduler_calls::scheduler_current(w, &mut out),
            Single::PendingTimer => timer_calls::scheduler_pending_timer_dpc(w, &mut out),
            Single::TimerInitializations => {
                timer_calls::scheduler_timer_initializations(w, &mut out)
            }
            Single::DpcInitializations => dpc_calls::scheduler_dpc_initializations(w, &mut out),
            Single::Active => dpc_calls::scheduler_active_dpc(w, &mut out),
            Single::Next => dpc_calls::scheduler_next_dpc(w, &mut out),
            Single::Policy => dpc_calls::scheduler_dpc_policy(w, &mut out),
            Single::Counters => dpc_calls::scheduler_dpc_counters(w, &mut out),
        };
        show::refuse(&mut out, number);
        out
    }
}

fn tell_single(rt: &impl Print, what: Single, w: &[u64], kept: &mut [u64]) -> io::Result<()> {
    let out = what.read(w);
    if show::is_news(kept, what.place(), &out) {
        show::title(rt, what.name())?;
        show::answer(rt, &out)?;
        show::end_line(rt)?;
    }
    Ok(())
}

fn threads_and_objects(
    rt: &impl Print,
    w: &[u64],
    count: usize,
    kept: &mut [u64],
) -> io::Result<()> {
    tell_single(rt, Single::Current, w, kept)?;
    positions(rt, Table::Threads, w, kept)?;
    mutexes(rt, w, count, kept)?;
    positions(rt, Table::Events, w, kept)
}

fn timers_and_dpcs(rt: &impl Print, w: &[u64], kept: &mut [u64]) -> io::Result<()> {
    positions(rt, Table::Timers, w, kept)?;
    tell_single(rt, Single::PendingTimer, w, kept)?;
    tell_single(rt, Single::TimerInitializations, w, kept)?;
    positions(rt, Table::Dpcs, w, kept)?;
    tell_single(rt, Single::DpcInitializations, w, kept)
}

fn work(rt: &impl Print, w: &[u64], kept: &mut [u64]) -> io::Result<()> {
    positions(rt, Table::Queue, w, kept)?;
    tell_single(rt, Single::Active, w, kept)?;
    tell_single(rt, Single::Next, w, kept)?;
    tell_single(rt, Single::Policy, w, kept)?;
    tell_single(rt, Single::Counters, w, kept)
}

pub fn state(rt: &impl Print, w: &[u64], count: usize, kept: &mut [u64]) -> io::Result<()> {
    threads_and_objects(rt, w, count, kept)?;
    timers_and_dpcs(rt, w, kept)?;
    work(rt, w, kept)
}
