// The two architectures of a guest.
#![tactic(auto)]

ghost use Rattle.std.specs.Prelude.{◌≡◌};
ghost use Rattle.arch.specs.Width.{width_of};

#[derive(Clone, Copy, Debug, PartialEq, Eq)]
pub enum Architecture {
    X64,
    X86,
}

impl Architecture {
    // The bytes of a pointer.
    pub fn width(self) -> u64
        ensures { result ≡ width_of self }
    {
        match self {
            Architecture::X64 => 8,
            Architecture::X86 => 4,
        }
    }
}
