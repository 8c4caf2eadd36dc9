// The call that a line names, made with the line's numbers; what it returns. `harness/README.md` has the numbers of each.
use exports::{dpc_calls, image_calls, scheduler_calls, thread_calls, timer_calls};
use script_lex::lex::Words;

// What is returned where the line names no call, or a list is not there.
const UNREAD: u64 = 28;

// `clock_replay` has it too: of the crates that both use, `exports` and `words`, neither is for programs.
fn low(n: u64) -> u32 {
    (n & 0xffff_ffff) as u32
}

fn lowest(n: u64) -> u8 {
    (n & 0xff) as u8
}

// The number less than 0 by `n`, or `n`: the list has 1 or 0 for the sign, not a word.
fn signed(is_less: u64, n: u64) -> i64 {
    if 9_223_372_036_854_775_807 < n {
        return i64::MIN;
    }
    if is_less == 0 {
        return n as i64;
    }
    0 - (n as i64)
}

// The period is the fourth word behind the name.
fn period(line: &[u8]) -> i32 {
    let second = Words::of(line).rest().rest();
    second.rest().rest().signed().unwrap_or(0)
}

fn open(w: &mut [u64], out: &mut [u64], n: &[u64]) -> u64 {
    let most = w.len().min(words::get(n, 0) as usize);
    scheduler_calls::scheduler_open(
        &mut w[..most],
        words::get(n, 1),
        words::get(n, 2),
        words::get(n, 3),
        words::get(n, 4),
        out,
    )
}

// The numbers of a wait's list stand behind its four others.
fn wait(w: &mut [u64], out: &mut [u64], n: &[u64]) -> u64 {
    if n.len() < 4 {
        return UNREAD;
    }
    scheduler_calls::scheduler_wait(
        w,
        &n[4..],
        words::get(n, 0),
        words::get(n, 1),
        words::get(n, 2),
        lowest(words::get(n, 3)),
        out,
    )
}

fn dispatch(w: &mut [u64], waiting: &mut [u64], out: &mut [u64], n: &[u64]) -> u64 {
    let most = waiting.len().min(words::get(n, 0) as usize);
    scheduler_calls::scheduler_dispatch(w, &mut waiting[..most], out)
}

fn timer_image(w: &[u64], bytes: &mut [u8], out: &mut [u64], n: &[u64]) -> u64 {
    let most = bytes.len().min(words::get(n, 1) as usize);
    image_calls::scheduler_timer_image(w, words::get(n, 0), &mut bytes[..most], out)
}

fn dpc_image(w: &[u64], bytes: &mut [u8], out: &mut [u64], n: &[u64]) -> u64 {
    let most = bytes.len().min(words::get(n, 1) as usize);
    image_calls::scheduler_dpc_image(w, words::get(n, 0), &mut bytes[..most], out)
}

// A DPC queued and taken out again: what the removal returns.
fn insert_and_remove(w: &mut [u64], out: &mut [u64], n: &[u64]) -> u64 {
    let a = words::get(n, 0);
    let inserted = dpc_calls::scheduler_insert_queue_dpc(
        w,
        a,
        words::get(n, 1),
        words::get(n, 2),
        out,
    );
    if inserted != 0 {
        return inserted;
    }
    dpc_calls::scheduler_remove_queue_dpc(w, a, out)
}

// The name that a line begins with.
fn name_of(line: &[u8]) -> &[u8] {
    Words::of(line).first()
}

fn dpc_read(w: &[u64], out: &mut [u64], name: &[u8], n: &[u64]) -> u64 {
    let a = words::get(n, 0);
    match name {
        b"dpc" => dpc_calls::scheduler_dpc(w, a, out),
        b"dpcs" => dpc_calls::scheduler_dpcs(w, a, out),
        b"active_dpc" => dpc_calls::scheduler_active_dpc(w, out),
        b"next_dpc" => dpc_calls::scheduler_next_dpc(w, out),
        b"queued_dpcs" => dpc_calls::scheduler_queued_dpcs(w, a, out),
        b"dpc_policy" => dpc_calls::scheduler_dpc_policy(w, out),
        b"dpc_counters" => dpc_calls::scheduler_dpc_counters(w, out),
        b"dpc_initializations" => dpc_calls::scheduler_dpc_initializations(w, out),
        _ => UNREAD,
    }
}

fn timer_read(w: &[u64], out: &mut [u64], name: &[u8], n: &[u64]) -> u64 {
    let a = words::get(n, 0);
    let b = words::get(n, 1);
    match name {
        b"require_timer_release" => timer_calls::scheduler_require_timer_release(w, a, b, out),
        b"timer" => timer_calls::scheduler_timer(w, a, out),
        b"timers" => timer_calls::scheduler_timers(w, a, out),
        b"pending_timer_dpc" => timer_calls::scheduler_pending_timer_dpc(w, out),
        b"timer_initializations" => timer_calls::scheduler_timer_initializations(w, out),
        b"timer_read_overlap" => timer_calls::scheduler_timer_read_overlap(w, a, b, out),
        b"timer_metadata_overlap" => timer_calls::scheduler_timer_metadata_overlap(w, a, b, out),
        _ => dpc_read(w, out, name, n),
    }
}

fn object_read(w: &[u64], out: &mut [u64], name: &[u8], n: &[u64]) -> u64 {
    let a = words::get(n, 0);
    let b = words::get(n, 1);
    let c = words::get(n, 2);
    match name {
        b"words_needed" => scheduler_calls::scheduler_words_needed(a, b, c, out),
        b"current" => scheduler_calls::scheduler_current(w, out),
        b"thread" => thread_calls::scheduler_thread(w, a, out),
        b"threads" => thread_calls::scheduler_threads(w, a, out),
        b"waited_object" => thread_calls::scheduler_waited_object(w, a, b, out),
        b"mutex_owner" => scheduler_calls::scheduler_mutex_owner(w, a, out),
        b"mutex_waiters" => scheduler_calls::scheduler_mutex_waiters(w, a, out),
        b"event_state" => scheduler_calls::scheduler_event_state(w, a, out),
        b"event_states" => scheduler_calls::scheduler_event_states(w, a, out),
        b"require_event_release" => scheduler_calls::scheduler_require_event_release(
            w, a, b, c, out,
        ),
        _ => timer_read(w, out, name, n),
    }
}

fn timer_call(w: &mut [u64], out: &mut [u64], line: &[u8], name: &[u8], n: &[u64]) -> u64 {
    let a = words::get(n, 0);
    let b = words::get(n, 1);
    let c = words::get(n, 2);
    match name {
        b"initialize_timer" => timer_calls::scheduler_initialize_timer(
            w,
            a,
            b,
            c,
            words::get(n, 3),
            words::get(n, 4),
            words::get(n, 5),
            words::get(n, 6),
            out,
        ),
        b"set_timer" => timer_calls::scheduler_set_timer(
            w,
            a,
            b,
            c,
            period(line),
            words::get(n, 4),
            out,
        ),
        b"set_timer_signed" => timer_calls::scheduler_set_timer_signed(
            w,
            a,
            signed(b, c),
            period(line),
            words::get(n, 4),
            out,
        ),
        b"cancel_timer" => timer_calls::scheduler_cancel_timer(w, a, out),
        b"retire_timer_backing" => timer_calls::scheduler_retire_timer_backing(w, a, b, out),
        b"configure_dpc_dispatch" => dpc_calls::scheduler_configure_dpc_dispatch(w, a, b, out),
        b"initialize_dpc" => timer_calls::scheduler_initialize_dpc(
            w,
            a,
            b,
            c,
            words::get(n, 3),
            words::get(n, 4),
            words::get(n, 5),
            words::get(n, 6),
            words::get(n, 7),
            out,
        ),
        b"insert_queue_dpc" => dpc_calls::scheduler_insert_queue_dpc(w, a, b, c, out),
        b"remove_queue_dpc" => dpc_calls::scheduler_remove_queue_dpc(w, a, out),
        b"start_dpc" => dpc_calls::scheduler_start_dpc(w, a, out),
        b"returned_dpc" => dpc_calls::scheduler_returned_dpc(w, a, b, out),
        b"restored_dpc" => dpc_calls::scheduler_restored_dpc(w, a, b, out),
        _ => object_read(w, out, name, n),
    }
}

fn object_call(w: &mut [u64], out: &mut [u64], line: &[u8], name: &[u8], n: &[u64]) -> u64 {
    let a = words::get(n, 0);
    let b = words::get(n, 1);
    let c = words::get(n, 2);
    match name {
        b"initialize_mutex" => scheduler_calls::scheduler_initialize_mutex(w, a, out),
        b"adopt_mutex" => scheduler_calls::scheduler_adopt_mutex(w, a, b, c, out),
        b"release_mutex" => scheduler_calls::scheduler_release_mutex(w, a, out),
        b"initialize_event" => scheduler_calls::scheduler_initialize_event(w, a, b, c, out),
        b"set_event" => scheduler_calls::scheduler_set_event(w, a, out),
        b"reset_event" => scheduler_calls::scheduler_reset_event(w, a, out),
        b"retire_event_backing" => scheduler_calls::scheduler_retire_event_backing(w, a, b, c, out),
        _ => timer_call(w, out, line, name, n),
    }
}

// The call that a line names. Those that lend something beside `out` or take a list come first, then calls on threads, objects, timers and
// DPCs, then reads: one `match` of them all has more arms than the borrow checker takes.
pub fn call(
    w: &mut [u64],
    waiting: &mut [u64],
    bytes: &mut [u8],
    out: &mut [u64],
    line: &[u8],
    n: &[u64],
) -> u64 {
    let a = words::get(n, 0);
    let b = words::get(n, 1);
    let name = name_of(line);
    match name {
        b"open" => open(w, out, n),
        b"wait" => wait(w, out, n),
        b"dispatch" => dispatch(w, waiting, out, n),
        b"timer_image" => timer_image(w, bytes, out, n),
        b"dpc_image" => dpc_image(w, bytes, out, n),
        b"insert_and_remove" => insert_and_remove(w, out, n),
        b"create_thread" => scheduler_calls::scheduler_create_thread(w, a, out),
        b"priority" => scheduler_calls::scheduler_priority(w, a, b, out),
        b"yield_current" => scheduler_calls::scheduler_yield_current(w, out),
        b"terminate" => scheduler_calls::scheduler_terminate(w, low(a), out),
        b"delay_until" => scheduler_calls::scheduler_delay_until(w, a, lowest(b), out),
        b"advance_to" => scheduler_calls::scheduler_advance_to(w, a, out),
        _ => object_call(w, out, line, name, n),
    }
}
