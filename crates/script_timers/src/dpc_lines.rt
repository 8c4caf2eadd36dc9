// The lines of the calls on DPCs.
#![tactic(auto, unfolding(script_lex::specs::Arguments::with_one, script_lex::specs::Arguments::with_two, script_lex::specs::Arguments::with_three))]

ghost use Rattle.std.specs.Prelude.{◌≡◌, Some};
ghost use Rattle.script_lex.specs.Left.{left};
ghost use Rattle.script_lex.specs.Arguments.{most, one_of, two_of, three_of, with_one, with_two, with_three};
ghost use Rattle.script_timers.specs.Dpc.{routine_behind, initialize_dpc_line, dpc_work_line, dpc_line};
ghost use Rattle.script_lex.specs.declared.command.Command.TheVariants as command;

use script_lex::command::Command;
use script_lex::lex::Words;
use script_lex::location::Location;

// Behind the location: the routine and the context.
#[tactic(auto, unfolding(crate::specs::Dpc::routine_behind, script_lex::specs::Arguments::with_two))]
fn read_routine(words: Words, place: Location) -> Option<Command>
    ensures { result ≡ routine_behind place.address place.architecture place.backing (left words.entry) }
{
    let (routine, context) = words.two_numbers(u64::MAX, u64::MAX)?;
    Some(Command::InitializeDpc {
        address: place.address,
        architecture: place.architecture,
        backing: place.backing,
        routine,
        context,
    })
}

#[tactic(auto, unfolding(crate::specs::Dpc::initialize_dpc_line, script_lex::specs::Location::with_location))]
fn read_initialize_dpc(words: Words) -> Option<Command>
    ensures { result ≡ initialize_dpc_line (left words.entry) }
{
    let place = words.location()?;
    read_routine(words.behind_location(), place)
}

fn read_configure_dpc_dispatch(words: Words) -> Option<Command>
    ensures { result ≡ with_two (λ a b. Some (command.ConfigureDpcDispatch a b)) (two_of most most (left words.entry)) }
{
    let (first, second) = words.two_numbers(u64::MAX, u64::MAX)?;
    Some(Command::ConfigureDpcDispatch { first, second })
}

fn read_queued_dpcs(words: Words) -> Option<Command>
    ensures { result ≡ with_one (λ n. Some (command.QueuedDpcs n)) (one_of most (left words.entry)) }
{
    words.only_number(u64::MAX).map(Command::QueuedDpcs)
}

fn read_insert_queue_dpc(words: Words) -> Option<Command>
    ensures { result ≡ with_three (λ a b c. Some (command.InsertQueueDpc a b c)) (three_of (left words.entry)) }
{
    let (address, first, second) = words.three_numbers()?;
    Some(Command::InsertQueueDpc {
        address,
        first,
        second,
    })
}

fn read_remove_queue_dpc(words: Words) -> Option<Command>
    ensures { result ≡ with_one (λ n. Some (command.RemoveQueueDpc n)) (one_of most (left words.entry)) }
{
    words.only_number(u64::MAX).map(Command::RemoveQueueDpc)
}

fn read_start_dpc(words: Words) -> Option<Command>
    ensures { result ≡ with_one (λ n. Some (command.StartDpc n)) (one_of most (left words.entry)) }
{
    words.only_number(u64::MAX).map(Command::StartDpc)
}

fn read_returned_dpc(words: Words) -> Option<Command>
    ensures { result ≡ with_two (λ a b. Some (command.ReturnedDpc a b)) (two_of most most (left words.entry)) }
{
    let (address, sequence) = words.two_numbers(u64::MAX, u64::MAX)?;
    Some(Command::ReturnedDpc { address, sequence })
}

fn read_restored_dpc(words: Words) -> Option<Command>
    ensures { result ≡ with_two (λ a b. Some (command.RestoredDpc a b)) (two_of most most (left words.entry)) }
{
    let (address, sequence) = words.two_numbers(u64::MAX, u64::MAX)?;
    Some(Command::RestoredDpc { address, sequence })
}

// The lines of the queue and of work.
#[tactic(auto, unfolding(crate::specs::Dpc::dpc_work_line))]
fn read_dpc_work(words: Words) -> Option<Command>
    ensures { result ≡ dpc_work_line (left words.entry) }
{
    let rest = words.rest();
    if words.is(b"insert_queue_dpc") {
        return read_insert_queue_dpc(rest);
    }
    if words.is(b"remove_queue_dpc") {
        return read_remove_queue_dpc(rest);
    }
    if words.is(b"start_dpc") {
        return read_start_dpc(rest);
    }
    if words.is(b"returned_dpc") {
        return read_returned_dpc(rest);
    }
    if words.is(b"restored_dpc") {
        return read_restored_dpc(rest);
    }
    None
}

#[tactic(auto, unfolding(crate::specs::Dpc::dpc_line))]
pub fn read_dpcs(words: Words) -> Option<Command>
    ensures { result ≡ dpc_line (left words.entry) }
{
    let rest = words.rest();
    if words.is(b"initialize_dpc") {
        return read_initialize_dpc(rest);
    }
    if words.is(b"dpc_initializations") {
        return rest.bare(Command::DpcInitializations);
    }
    if words.is(b"configure_dpc_dispatch") {
        return read_configure_dpc_dispatch(rest);
    }
    if words.is(b"queued_dpcs") {
        return read_queued_dpcs(rest);
    }
    read_dpc_work(words)
}
