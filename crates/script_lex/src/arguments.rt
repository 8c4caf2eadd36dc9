// The arguments of a line, its words behind the name.
ghost use Rattle.std.specs.Prelude.{◌≡◌};
ghost use Rattle.script_lex.specs.Words.{first};
ghost use Rattle.script_lex.specs.Left.{left};
ghost use Rattle.script_lex.specs.Arguments.{flag_of, one_of, two_of, three_of, bare_line};

use super::command::Command;
use super::lex::Words;

impl Words<'_> {
    // The first argument, 0 or 1. Like `architecture` by its shape alone.
    #[tactic(auto, unfolding(crate::specs::Arguments::flag_of))]
    pub fn flag(self) -> Option<bool>
        ensures { result ≡ flag_of (first (left self.entry)) }
    {
        if self.is(b"0") {
            return Some(false);
        }
        if self.is(b"1") {
            return Some(true);
        }
        None
    }

    // The only argument.
    #[tactic(auto, unfolding(crate::specs::Arguments::one_of))]
    pub fn only_number(self, limit: u64) -> Option<u64>
        ensures { result ≡ one_of limit (left self.entry) }
    {
        if !self.rest().is_end() {
            return None;
        }
        self.number(limit)
    }

    #[tactic(auto, unfolding(crate::specs::Arguments::two_of, crate::specs::Arguments::join_two))]
    pub fn two_numbers(self, limit: u64, last: u64) -> Option<(u64, u64)>
        ensures { result ≡ two_of limit last (left self.entry) }
    {
        let a = self.number(limit)?;
        let b = self.rest().only_number(last)?;
        Some((a, b))
    }

    // Three numbers of 64 bits.
    #[tactic(auto, unfolding(crate::specs::Arguments::three_of, crate::specs::Arguments::join_three))]
    pub fn three_numbers(self) -> Option<(u64, u64, u64)>
        ensures { result ≡ three_of (left self.entry) }
    {
        let a = self.number(u64::MAX)?;
        let (b, c) = self.rest().two_numbers(u64::MAX, u64::MAX)?;
        Some((a, b, c))
    }

    // A command without arguments.
    #[tactic(auto, unfolding(crate::specs::Arguments::bare_line))]
    pub fn bare(self, command: Command) -> Option<Command>
        ensures { result ≡ bare_line command (left self.entry) }
    {
        if !self.is_end() {
            return None;
        }
        Some(command)
    }
}
