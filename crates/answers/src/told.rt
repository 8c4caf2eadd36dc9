// What a call answers, as the one type of all answers: its own answer, or the number of its refusal.
ghost use Rattle.std.specs.Prelude.{◌≡◌};
ghost use Rattle.answers.specs.declared.Answer.TheVariants as answer;
ghost use Rattle.answers.specs.Errors.{number, Tells, TellsOrNone};

use super::error::SchedulerError;
use super::{Answer, ThreadId};

impl From<()> for Answer {
    ghost from_gives = { λ _ a. a ≡ answer.Done };

    fn from(_: ()) -> Answer {
        Answer::Done
    }
}

// A yes or no: what held before, whether work was put in or taken out, or whether bytes overlap.
impl From<bool> for Answer {
    ghost from_gives = { λ held a. a ≡ answer.Flag held };

    fn from(held: bool) -> Answer {
        Answer::Flag(held)
    }
}

impl From<u64> for Answer {
    ghost from_gives = { λ n a. a ≡ answer.Count n };

    fn from(n: u64) -> Answer {
        Answer::Count(n)
    }
}

impl From<ThreadId> for Answer {
    ghost from_gives = { λ id a. a ≡ answer.Thread id.0 };

    fn from(id: ThreadId) -> Answer {
        Answer::Thread(id.0)
    }
}

impl From<SchedulerError> for Answer {
    ghost from_gives = { λ e a. a ≡ answer.Refused (number e) };

    fn from(error: SchedulerError) -> Answer {
        Answer::Refused(error.number())
    }
}

// There may be none.
impl<T: Into<Answer>> From<Option<T>> for Answer {
    ghost from_gives = { TellsOrNone T.converts };

    fn from(there: Option<T>) -> Answer {
        match there {
            Some(x) => x.into(),
            None => Answer::None,
        }
    }
}

impl<T: Into<Answer>> From<Result<T, SchedulerError>> for Answer {
    ghost from_gives = { Tells T.converts };

    fn from(called: Result<T, SchedulerError>) -> Answer {
        match called {
            Ok(x) => x.into(),
            Err(error) => error.into(),
        }
    }
}
