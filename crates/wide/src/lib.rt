// Arithmetic past 64 bits: exact products in two words, and their tenths. Not u128: document 01 asks for split words.
#![tactic(auto)]

ghost use Rattle.std.specs.Prelude.{◌≡◌, ◌+◌, ◌*◌, ◌/◌, ◌%◌, ◌^◌};

// The number hi * 2^64 + lo.
#[derive(Clone, Copy, Debug, PartialEq, Eq)]
pub struct Wide {
    pub hi: u64,
    pub lo: u64,
}

// The exact product, by columns of 32 bits with their carries.
pub fn product(a: u64, b: u64) -> Wide
    ensures { result.hi * 2 ^ 64 + result.lo ≡ a * b }
{
    let a0 = a % 0x1_0000_0000;
    let a1 = a / 0x1_0000_0000;
    let b0 = b % 0x1_0000_0000;
    let b1 = b / 0x1_0000_0000;
    let low = a0 * b0;
    let middle = a1 * b0 + low / 0x1_0000_0000;
    let next = middle % 0x1_0000_0000 + a0 * b1;
    Wide {
        hi: a1 * b1 + middle / 0x1_0000_0000 + next / 0x1_0000_0000,
        lo: (next % 0x1_0000_0000) * 0x1_0000_0000 + low % 0x1_0000_0000,
    }
}

// The quotient by 10, modulo 2^64: long division by digits of 32 bits. Only the last decimal digit of hi reaches it.
pub fn tenth(p: Wide) -> u64
    ensures { result ≡ (p.hi * 2 ^ 64 + p.lo) / 10 % 2 ^ 64 }
{
    let upper = (p.hi % 10) * 0x1_0000_0000 + p.lo / 0x1_0000_0000;
    let lower = (upper % 10) * 0x1_0000_0000 + p.lo % 0x1_0000_0000;
    (upper / 10) * 0x1_0000_0000 + lower / 10
}

// a * b / 10, modulo 2^64, with the product exact.
pub fn wrapping_mul_tenth(a: u64, b: u64) -> u64
    ensures { result ≡ a * b / 10 % 2 ^ 64 }
{
    tenth(product(a, b))
}
