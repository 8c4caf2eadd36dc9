// Timers and DPCs as the guest's memory has them: where one may stand, and its bytes.
#![tactic(auto)]

pub mod field;

ghost use Rattle.std.specs.Prelude.{◌≡◌, ◌==◌, ◌≤◌, if◌then◌else◌};
ghost use Rattle.images.specs.Place.{
  architecture_number,
  architecture_of,
  backing_kind,
  backing_base,
  backing_size,
  backing_mapped,
  backing_of,
  is_short,
  timer_size,
  due_at,
  timer_dpc_at,
  dpc_size,
  routine_at,
  arguments_at,
  overlaps,
  ends_past,
  is_outside,
  location_refusal,
};
ghost use Rattle.images.specs.Field.{laid};
ghost use Rattle.images.specs.Image.{timer_head, timer_links, timer_times, timer_image, two_words, work_fields, phase_fields, dpc_image};

use arch::Architecture;

// What differs between the architectures: a timer's size and where its due time and its DPC stand, a DPC's size and where its
// routine and its arguments stand.
#[derive(Clone, Copy, Debug, PartialEq, Eq)]
pub struct Offsets {
    pub timer_size: u64,
    pub due: u64,
    pub timer_dpc: u64,
    pub dpc_size: u64,
    pub routine: u64,
    pub arguments: u64,
}

// A row for each architecture, x64 and x86.
const OFFSETS: [Offsets; 2] = [
    Offsets {
        timer_size: 64,
        due: 24,
        timer_dpc: 48,
        dpc_size: 64,
        routine: 24,
        arguments: 40,
    },
    Offsets {
        timer_size: 40,
        due: 16,
        timer_dpc: 32,
        dpc_size: 32,
        routine: 12,
        arguments: 20,
    },
];

// What opens every DPC's image.
pub const DPC_HEAD: [u8; 2] = *b"\x13\x01";

// The memory that a timer or a DPC stands in.
#[derive(Clone, Copy, Debug, PartialEq, Eq)]
pub enum TimerBacking {
    Image {
        base: u64,
        size: u64,
    },
    NonpagedPool {
        base: u64,
        requested: u64,
        mapped: u64,
    },
}

#[derive(Clone, Copy, Debug, PartialEq, Eq)]
pub struct Timer {
    pub address: u64,
    pub architecture: Architecture,
    pub backing: TimerBacking,
    pub manual_reset: bool,
    pub signaled: bool,
    pub inserted: bool,
    pub due: u64,
    pub period_ms: u64,
    pub dpc: u64,
    pub absolute: bool,
    pub arm_generation: u64,
    pub initialization: u64,
}

// Who put a DPC's work into the queue.
#[derive(Clone, Copy, Debug, PartialEq, Eq)]
pub enum DpcOrigin {
    Caller,
    Timer {
        address: u64,
        arm: u64,
        initialization: u64,
        deadline: u64,
        observed: u64,
        periodic: bool,
    },
}

#[derive(Clone, Copy, Debug, PartialEq, Eq)]
pub struct DpcWork {
    pub sequence: u64,
    pub first: u64,
    pub second: u64,
    pub origin: DpcOrigin,
}

#[derive(Clone, Copy, Debug, PartialEq, Eq)]
pub enum DpcPhase {
    Idle,
    Queued(DpcWork),
    Running(DpcWork),
    Returning(DpcWork),
}

#[derive(Clone, Copy, Debug, PartialEq, Eq)]
pub struct Dpc {
    pub address: u64,
    pub architecture: Architecture,
    pub backing: TimerBacking,
    pub routine: u64,
    pub context: u64,
    pub phase: DpcPhase,
}

// The number that stands for an architecture in the words.
pub fn architecture_number(a: Architecture) -> u64
    ensures { result ≡ architecture_number a }
{
    a as u64
}

// No From: a word may be any number, and the definition speaks of all of them.
pub fn architecture_of(n: u64) -> Architecture
    ensures { result ≡ architecture_of n }
{
    if n == 0 {
        Architecture::X64
    } else {
        Architecture::X86
    }
}

// What a backing is kept as: its kind (0 image, 1 pool), its base, its size (of a pool: the bytes asked for) and the bytes
// mapped (of an image: 0). One function for each: a record has its words apart, and is read and written word by word.
pub fn backing_kind(b: TimerBacking) -> u64
    ensures { result ≡ backing_kind b }
{
    match b {
        TimerBacking::Image { .. } => 0,
        TimerBacking::NonpagedPool { .. } => 1,
    }
}

pub fn backing_base(b: TimerBacking) -> u64
    ensures { result ≡ backing_base b }
{
    match b {
        TimerBacking::Image { base, .. } | TimerBacking::NonpagedPool { base, .. } => base,
    }
}

pub fn backing_size(b: TimerBacking) -> u64
    ensures { result ≡ backing_size b }
{
    match b {
        TimerBacking::Image { size, .. } => size,
        TimerBacking::NonpagedPool { requested, .. } => requested,
    }
}

pub fn backing_mapped(b: TimerBacking) -> u64
    ensures { result ≡ backing_mapped b }
{
    match b {
        TimerBacking::Image { .. } => 0,
        TimerBacking::NonpagedPool { mapped, .. } => mapped,
    }
}

pub fn backing_of(kind: u64, base: u64, size: u64, mapped: u64) -> TimerBacking
    ensures { result ≡ backing_of «kind» «base» «size» «mapped» }
{
    if kind == 0 {
        TimerBacking::Image { base, size }
    } else {
        TimerBacking::NonpagedPool {
            base,
            requested: size,
            mapped,
        }
    }
}

// A pool that more bytes are asked of than it has mapped.
pub fn is_short(b: TimerBacking) -> bool
    ensures { result ≡ is_short b }
{
    match b {
        TimerBacking::Image { .. } => false,
        TimerBacking::NonpagedPool {
            requested,
            mapped,
            ..
        } => mapped < requested,
    }
}

// The row of an architecture.
pub fn offsets_of(a: Architecture) -> Offsets
    ensures timer_size { result.timer_size ≡ timer_size a }
    ensures due { result.due ≡ due_at a }
    ensures timer_dpc { result.timer_dpc ≡ timer_dpc_at a }
    ensures dpc_size { result.dpc_size ≡ dpc_size a }
    ensures routine { result.routine ≡ routine_at a }
    ensures arguments { result.arguments ≡ arguments_at a }
{
    OFFSETS[a as usize]
}

pub fn timer_size(a: Architecture) -> u64
    ensures { result ≡ timer_size a }
{
    offsets_of(a).timer_size
}

pub fn dpc_size(a: Architecture) -> u64
    ensures { result ≡ dpc_size a }
{
    offsets_of(a).dpc_size
}

// The `n` bytes at `a` and the `m` bytes at `b` have a byte in common.
pub fn overlap(a: u64, n: u64, b: u64, m: u64) -> bool
    ensures { result ≡ overlaps «a» «n» «b» «m» }
{
    if n == 0 {
        return false;
    }
    if m == 0 {
        return false;
    }
    if a <= b {
        return b - a < n;
    }
    a - b < m
}

// An end that a guest's addresses do not reach.
pub fn ends_past(end: u64, a: Architecture) -> bool
    ensures { result ≡ ends_past end a }
{
    match a {
        Architecture::X64 => false,
        Architecture::X86 => 0x1_0000_0000 < end,
    }
}

// The bytes from `address` up to `end` do not all stand in that memory, or it has no end.
pub fn is_outside(address: u64, end: u64, b: TimerBacking) -> bool
    ensures { result ≡ is_outside «address» «end» b }
{
    let base = backing_base(b);
    let length = backing_size(b);
    if address < base {
        return true;
    }
    if u64::MAX - base < length {
        return true;
    }
    base + length < end
}

// Whether `size` bytes at `address` are a place for a timer or a DPC of that architecture in that memory.
#[tactic(auto, unfolding(crate::specs::Place::location_refusal))]
pub fn is_located(address: u64, size: u64, a: Architecture, b: TimerBacking) -> bool
    ensures { result ≡ (location_refusal «address» «size» a b == 0) }
{
    address != 0
        && size <= u64::MAX - address
        && !is_short(b)
        && address % a.width() == 0
        && !ends_past(address + size, a)
        && !is_outside(address, address + size, b)
}

// A function of its own, since what an `if` in an argument gives is not known at the calls after it.
fn pick(b: bool, yes: u64, no: u64) -> u64
    ensures { result ≡ (if b then yes else no) }
{
    if b { yes } else { no }
}

// The first eight bytes of a timer.
fn put_timer_head(out: &mut [u8], t: Timer)
    ensures { out.new ≡ laid (timer_head t) out.old }
{
    let a = t.architecture;
    field::put_number(out, 0, 1, pick(t.manual_reset, 8, 9));
    field::put_number(out, 1, 1, pick(t.absolute, 1, 0));
    field::put_number(out, 2, 1, timer_size(a) / 4);
    field::put_number(out, 3, 1, pick(t.inserted, 0x40, 0));
    field::put_number(out, 4, 4, pick(t.signaled, 1, 0));
}

// The two links of its list of waiters, which is empty in the image: each is the list's own address.
fn put_timer_links(out: &mut [u8], t: Timer)
    ensures { out.new ≡ laid (timer_links t) out.old }
{
    let a = t.architecture;
    let width = a.width() as usize;
    let list = t.address.wrapping_add(8);
    field::put_number(out, 8, width, list);
    field::put_number(out, 8 + width, width, list);
}

// Its due time, its DPC and, in its last four bytes, its period.
fn put_timer_times(out: &mut [u8], t: Timer)
    ensures { out.new ≡ laid (timer_times t) out.old }
{
    let a = t.architecture;
    let row = offsets_of(a);
    field::put_number(out, row.due as usize, 8, t.due);
    field::put_number(out, row.timer_dpc as usize, a.width() as usize, t.dpc);
    field::put_number(out, (row.timer_size - 4) as usize, 4, t.period_ms);
}

// A timer's bytes, at the start of `out`; nothing where it is too short for them.
pub fn timer_bytes(t: Timer, out: &mut [u8])
    ensures { out.new ≡ timer_image t out.old }
{
    let a = t.architecture;
    let size = timer_size(a) as usize;
    if out.len() < size {
        return;
    }
    field::clear(out, size);
    put_timer_head(out, t);
    put_timer_links(out, t);
    put_timer_times(out, t);
}

// Two numbers of the guest's width, one behind the other.
fn put_two(out: &mut [u8], a: Architecture, at: usize, first: u64, second: u64)
    requires { at ≤ 64 }
    ensures { out.new ≡ laid (two_words a at first second) out.old }
{
    let width = a.width() as usize;
    field::put_number(out, at, width, first);
    field::put_number(out, at + width, width, second);
}

// The arguments of a DPC's work.
fn put_work(out: &mut [u8], a: Architecture, w: DpcWork)
    ensures { out.new ≡ laid (work_fields a w) out.old }
{
    put_two(out, a, offsets_of(a).arguments as usize, w.first, w.second);
}

fn put_phase(out: &mut [u8], a: Architecture, p: DpcPhase)
    ensures { out.new ≡ laid (phase_fields a p) out.old }
{
    match p {
        DpcPhase::Idle => {}
        DpcPhase::Queued(w) | DpcPhase::Running(w) | DpcPhase::Returning(w) => put_work(out, a, w),
    }
}

// A DPC's bytes, at the start of `out`; nothing where it is too short for them.
pub fn dpc_bytes(d: Dpc, out: &mut [u8])
    ensures { out.new ≡ dpc_image d out.old }
{
    let a = d.architecture;
    let row = offsets_of(a);
    let size = row.dpc_size as usize;
    if out.len() < size {
        return;
    }
    field::clear(out, size);
    field::put_bytes(out, 0, &DPC_HEAD);
    put_two(out, a, row.routine as usize, d.routine, d.context);
    put_phase(out, a, d.phase);
}
