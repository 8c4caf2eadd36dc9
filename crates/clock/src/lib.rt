// Deterministic guest time. Advancing guest time never waits on a host clock.
//
// `by_value` has every call as a function of values; the methods here change a lent clock in place.
#![tactic(auto)]

ghost use Rattle.std.specs.Prelude.{◌≡◌};
ghost use Rattle.clock.specs.Clock as spec;

pub mod by_value;

#[repr(C)]
#[derive(Clone, Copy, Debug, PartialEq, Eq)]
pub struct GuestClock {
    pub utc_filetime: u64,
    pub uptime_ms: u64,
    pub submillisecond_100ns: u32,
    pub utc_offset_minutes: i32,
    pub base_mhz: u32,
    pub pending_cycles: u64,
    pub until_flush: u16,
}

// Why a call is refused.
#[derive(Clone, Copy, Debug, PartialEq, Eq)]
pub enum ClockError {
    InvalidConfiguration,
    Overflow,
    OutOfForm,
}

impl From<ClockError> for u64 {
    ghost use Rattle.std.specs.Prelude.{◌≡◌};
    ghost use Rattle.clock.specs.Numbers.{error_number};

    ghost from_gives = { λ why number. number ≡ error_number why };

    fn from(why: ClockError) -> u64 {
        match why {
            ClockError::InvalidConfiguration => 25,
            ClockError::Overflow => 26,
            ClockError::OutOfForm => 27,
        }
    }
}

// An answer, and the clock after the call: a refused `instruction` changes it too.
#[derive(Clone, Copy, Debug, PartialEq, Eq)]
pub struct Outcome {
    pub answer: Result<(), ClockError>,
    pub clock: GuestClock,
}

impl GuestClock {
    // A call by value, in place.
    fn change<F: FnOnce(GuestClock) -> Outcome>(&mut self, call: F) -> Result<(), ClockError>
        requires { F.pre call self.old }
        ensures { F.post call self.old (record { answer = result; clock = self.new }) }
    {
        let after = call(*self);
        *self = after.clock;
        after.answer
    }

    pub fn instruction(&mut self) -> Result<(), ClockError>
        ensures { (result ≡ (spec.instruction self.old).answer) × (self.new ≡ (spec.instruction self.old).clock) }
    {
        self.change(by_value::instruction)
    }

    pub fn advance_100ns(&mut self, ticks: u64) -> Result<(), ClockError>
        ensures { (result ≡ (spec.advance100ns self.old ticks).answer) × (self.new ≡ (spec.advance100ns self.old ticks).clock) }
    {
        self.change(|c| by_value::advance_100ns(c, ticks))
    }

    pub fn advance_microseconds(&mut self, amount: u64) -> Result<(), ClockError>
        ensures { (result ≡ (spec.advance_microseconds self.old amount).answer) × (self.new ≡ (spec.advance_microseconds self.old amount).clock) }
    {
        self.change(|c| by_value::advance_microseconds(c, amount))
    }

    pub fn advance_milliseconds(&mut self, amount: u32) -> Result<(), ClockError>
        ensures { (result ≡ (spec.advance_milliseconds self.old amount).answer) × (self.new ≡ (spec.advance_milliseconds self.old amount).clock) }
    {
        self.change(|c| by_value::advance_milliseconds(c, amount))
    }

    pub fn flush_cycles(&mut self) -> Result<(), ClockError>
        ensures { (result ≡ (spec.flush_cycles self.old).answer) × (self.new ≡ (spec.flush_cycles self.old).clock) }
    {
        self.change(by_value::flush_cycles)
    }

    pub fn observe(&mut self) -> Result<(), ClockError>
        ensures { (result ≡ (spec.observe self.old).answer) × (self.new ≡ (spec.observe self.old).clock) }
    {
        self.change(by_value::observe)
    }

    pub fn qpc(&self) -> Result<u64, ClockError>
        ensures { result ≡ spec.qpc self.now }
    {
        by_value::qpc(*self)
    }

    pub fn tick64(&self) -> Result<u64, ClockError>
        ensures { result ≡ spec.tick64 self.now }
    {
        by_value::tick64(*self)
    }

    pub fn tsc(&self) -> Result<u64, ClockError>
        ensures { result ≡ spec.tsc self.now }
    {
        by_value::tsc(*self)
    }
}
