// The commands of a script.
use arch::Architecture;
use images::TimerBacking;

#[derive(Clone, Copy)]
pub enum Command {
    Open(u64),
    Event {
        key: u64,
        manual: bool,
        signaled: bool,
    },
    Create(u64),
    // The kinds and keys stand in the lent list, `count` numbers.
    Wait {
        all: bool,
        deadline: Option<u64>,
        irql: u8,
        count: usize,
    },
    Dispatch,
    Set(u64),
    Yield,
    Current,
    RequireEventRelease {
        base: u64,
        size: u64,
        layout: u64,
    },
    RetireEventBacking {
        base: u64,
        size: u64,
        layout: u64,
    },
    MutexOwner(u64),
    AdoptMutex {
        key: u64,
        owner: Option<u64>,
    },
    MutexWaiters(u64),
    Priority {
        id: u64,
        priority: u64,
    },
    InitializeMutex(u64),
    DelayUntil {
        deadline: u64,
        irql: u8,
    },
    AdvanceTo(u64),
    ReleaseMutex(u64),
    ResetEvent(u64),
    Terminate(u32),
    TimerInitializations,
    DpcInitializations,
    TimerReadOverlap {
        address: u64,
        size: u64,
    },
    TimerMetadataOverlap {
        address: u64,
        size: u64,
    },
    InitializeTimer {
        address: u64,
        architecture: Architecture,
        backing: TimerBacking,
        manual: bool,
    },
    InitializeDpc {
        address: u64,
        architecture: Architecture,
        backing: TimerBacking,
        routine: u64,
        context: u64,
    },
    SetTimer {
        address: u64,
        due: u64,
        absolute: bool,
        period: i32,
        dpc: u64,
    },
    CancelTimer(u64),
    RequireTimerRelease {
        address: u64,
        size: u64,
    },
    RetireTimerBacking {
        address: u64,
        size: u64,
    },
    ConfigureDpcDispatch {
        first: u64,
        second: u64,
    },
    // The position in the queue.
    QueuedDpcs(u64),
    InsertQueueDpc {
        address: u64,
        first: u64,
        second: u64,
    },
    RemoveQueueDpc(u64),
    StartDpc(u64),
    ReturnedDpc {
        address: u64,
        sequence: u64,
    },
    RestoredDpc {
        address: u64,
        sequence: u64,
    },
    ClockNew {
        utc: u64,
        uptime: u64,
        offset: i32,
        mhz: u32,
    },
    ClockInstruction,
    ClockAdvanceMicroseconds(u64),
    ClockAdvance100ns(u64),
    ClockAdvanceMilliseconds(u32),
    ClockFlushCycles,
    ClockObserve,
    ClockQpc,
    ClockTick64,
    ClockTsc,
}
