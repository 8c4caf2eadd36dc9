// What a dispatch answers.
ghost use Rattle.std.specs.Prelude.{◌≡◌};
ghost use Rattle.dispatcher.specs.Dispatched.{answered};

use answers::Answer;

#[derive(Clone, Copy, Debug, PartialEq, Eq)]
pub enum Dispatch {
    // The thread of this number runs.
    Run(u64),
    // No thread can run before this time.
    AdvanceTo(u64),
    // This many threads wait, and no time ends a wait.
    Deadlocked(u64),
    Finished,
}

impl From<Dispatch> for Answer {
    ghost from_gives = { λ d a. a ≡ answered d };

    fn from(d: Dispatch) -> Answer {
        match d {
            Dispatch::Run(id) => Answer::Run(id),
            Dispatch::AdvanceTo(time) => Answer::AdvanceTo(time),
            Dispatch::Deadlocked(n) => Answer::Deadlocked(n),
            Dispatch::Finished => Answer::Finished,
        }
    }
}
