//! The generator of numbers.
ghost use Rattle.std.specs.Prelude.{◌≡◌, ◌<◌, ◌≤◌, ◌%◌};
ghost use Rattle.soak_script.specs.Generated.{next_number, bits_at};

const FACTOR: u64 = 6_364_136_223_846_793_005;

const SUMMAND: u64 = 1_442_695_040_888_963_407;

/// The number after this one.
#[tactic(auto, unfolding(crate::specs::Generated::next_number))]
pub fn next_number(x: u64) -> u64
    ensures { result ≡ next_number x }
{
    x.wrapping_mul(FACTOR).wrapping_add(SUMMAND)
}

/// Four bits, from this place on.
pub fn bits_at(place: u32, x: u64) -> u32
    requires { place ≤ 60 }
    ensures value { result ≡ bits_at place x }
    ensures range { result < 16 }
{
    ((x >> place) % 16) as u32
}

/// The lowest two of four bits.
pub fn low_two(place: u32, x: u64) -> u32
    requires { place ≤ 60 }
    ensures value { result ≡ bits_at place x % 4 }
    ensures range { result < 4 }
{
    bits_at(place, x) % 4
}
