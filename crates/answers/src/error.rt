// Why a call is refused, and the number that document 01's table has for it.
ghost use Rattle.std.specs.Prelude.{◌≡◌};

// A row of the table each, in its order. The clock's rows are `ClockError`'s, and 28 is a script's.
#[derive(Clone, Copy, Debug, PartialEq, Eq)]
pub enum SchedulerError {
    InvalidPriority,
    // No such thread, object or DPC.
    Unknown,
    NoCurrentThread,
    // The table, or the key is 0.
    Full,
    // The key is held by something of another kind.
    OtherKind,
    // Owned, inserted or waited on.
    InUse,
    InvalidList,
    // A listed mutex is the caller's own.
    OwnMutex,
    InvalidIrql,
    // Another owner, one that is not alive, or an exit while owning.
    NotOwner,
    Exited,
    TimeGoesBack,
    // A due time past 2^64 - 1.
    DueOverflow,
    // 65,536 initializations or acceptances.
    Lifetime,
    InvalidLocation,
    Overlap,
    NegativePeriod,
    // An inserted timer has the DPC.
    Named,
    Busy,
    // None, or it cannot be selected.
    Policy,
    // The queued work came from elsewhere.
    OtherOrigin,
    // Not the head of the queue, or another phase or sequence.
    OtherWork,
    // Memory that cannot be given back.
    NotReleasable,
    // A count at 2^64 - 1.
    CountOverflow,
    // Words out of form, a slice that is too short, or bad limits.
    OutOfForm,
}

impl SchedulerError {
    ghost use Rattle.answers.specs.Errors.{number};

    pub fn number(self) -> u64
        ensures { result ≡ number self }
    {
        match self {
            SchedulerError::InvalidPriority => 1,
            SchedulerError::Unknown => 2,
            SchedulerError::NoCurrentThread => 3,
            SchedulerError::Full => 4,
            SchedulerError::OtherKind => 5,
            SchedulerError::InUse => 6,
            SchedulerError::InvalidList => 7,
            SchedulerError::OwnMutex => 8,
            SchedulerError::InvalidIrql => 9,
            SchedulerError::NotOwner => 10,
            SchedulerError::Exited => 11,
            SchedulerError::TimeGoesBack => 12,
            SchedulerError::DueOverflow => 13,
            SchedulerError::Lifetime => 14,
            SchedulerError::InvalidLocation => 15,
            SchedulerError::Overlap => 16,
            SchedulerError::NegativePeriod => 17,
            SchedulerError::Named => 18,
            SchedulerError::Busy => 19,
            SchedulerError::Policy => 20,
            SchedulerError::OtherOrigin => 21,
            SchedulerError::OtherWork => 22,
            SchedulerError::NotReleasable => 23,
            SchedulerError::CountOverflow => 24,
            SchedulerError::OutOfForm => 27,
        }
    }
}
