// Where a timer or a DPC stands: its address, its architecture and its backing.
ghost use Rattle.std.specs.Prelude.{◌≡◌};
ghost use Rattle.script_lex.specs.Words.{first};
ghost use Rattle.script_lex.specs.Left.{left};
ghost use Rattle.script_lex.specs.Location.{architecture_of, image_line, pool_line, backing_of, behind_backing, location_of, behind_location};

use super::lex::Words;
use arch::Architecture;
use images::TimerBacking;

#[derive(Clone, Copy)]
pub struct Location {
    pub address: u64,
    pub architecture: Architecture,
    pub backing: TimerBacking,
}

impl Words<'_> {
    // The architecture that the first word names.
    #[tactic(auto, unfolding(crate::specs::Location::architecture_of))]
    fn architecture(self) -> Option<Architecture>
        ensures { result ≡ architecture_of (first (left self.entry)) }
    {
        if self.is(b"x64") {
            return Some(Architecture::X64);
        }
        if self.is(b"x86") {
            return Some(Architecture::X86);
        }
        None
    }

    // Behind `image`: the base and the size.
    #[tactic(auto, unfolding(crate::specs::Location::image_line, crate::specs::Location::image_of))]
    fn image(self) -> Option<TimerBacking>
        ensures { result ≡ image_line (left self.entry) }
    {
        let base = self.number(u64::MAX)?;
        let size = self.rest().number(u64::MAX)?;
        Some(TimerBacking::Image { base, size })
    }

    // Behind `pool`: the base, the size asked for and the size mapped.
    #[tactic(auto, unfolding(crate::specs::Location::pool_line, crate::specs::Location::pool_of))]
    fn pool(self) -> Option<TimerBacking>
        ensures { result ≡ pool_line (left self.entry) }
    {
        let base = self.number(u64::MAX)?;
        let sizes = self.rest();
        let requested = sizes.number(u64::MAX)?;
        let mapped = sizes.rest().number(u64::MAX)?;
        Some(TimerBacking::NonpagedPool {
            base,
            requested,
            mapped,
        })
    }

    #[tactic(auto, unfolding(crate::specs::Location::backing_of))]
    fn backing(self) -> Option<TimerBacking>
        ensures { result ≡ backing_of (left self.entry) }
    {
        if self.is(b"image") {
            return self.rest().image();
        }
        if self.is(b"pool") {
            return self.rest().pool();
        }
        None
    }

    // The words behind a backing: an image has three words, else there are four.
    #[tactic(auto, unfolding(crate::specs::Location::behind_backing))]
    fn behind_backing(self) -> Self
        ensures { left result ≡ behind_backing (left self.entry) }
    {
        let end = self.rest().rest().rest();
        if self.is(b"image") {
            return end;
        }
        end.rest()
    }

    #[tactic(auto, unfolding(crate::specs::Location::location_of, crate::specs::Location::placed))]
    pub fn location(self) -> Option<Location>
        ensures { result ≡ location_of (left self.entry) }
    {
        let address = self.number(u64::MAX)?;
        let behind = self.rest();
        let architecture = behind.architecture()?;
        let backing = behind.rest().backing()?;
        Some(Location {
            address,
            architecture,
            backing,
        })
    }

    #[tactic(auto, unfolding(crate::specs::Location::behind_location))]
    pub fn behind_location(self) -> Self
        ensures { left result ≡ behind_location (left self.entry) }
    {
        self.rest().rest().behind_backing()
    }
}
