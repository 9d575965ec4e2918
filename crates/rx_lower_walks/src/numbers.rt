//! Numbers of sites.

ghost use Rattle.std.specs.Prelude.{◌≡◌};
ghost use Rattle.rx_lower_walks.specs.Sums.{add};
ghost use Rattle.rx_lower_walks.specs.Emitted.{place};

/// The sum, or the greatest number.
pub fn add(a: u64, b: u64) -> u64
    ensures { result ≡ add a b }
{
    if a <= u64::MAX - b { a + b } else { u64::MAX }
}

/// The number after so many sites, 0 where there is none.
pub fn place(at: u32, count: u64) -> u32
    ensures { result ≡ place at count }
{
    let all = add(at as u64, count);
    if all < 4294967296 { all as u32 } else { 0 }
}
