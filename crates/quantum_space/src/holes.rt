//! The search for a hole: a run of free quanta.
ghost use Rattle.std.specs.Prelude.{◌<◌, ◌≤◌, length, MatchOption};
ghost use Rattle.quantum_space.specs.Holes.{IsFirstHole, NoHoleWithin};

/// The first quantum between `from` and `end` that begins so many free quanta there; None exactly where there is none.
/// A free quantum has the byte 0. O(what it passes over).
pub fn first_hole(bytes: &[u8], len: usize, from: usize, end: usize) -> Option<usize>
    requires some { 0 < len }
    requires ordered { from ≤ end }
    requires within { end ≤ length bytes.now }
    ensures { MatchOption result (NoHoleWithin bytes.now len from end) (λ found. IsFirstHole bytes.now len from end found) }
{
    let mut begin = from;
    for at in from..end {
        if bytes[at] != 0 {
            begin = at + 1;
        } else if at - begin + 1 == len {
            return Some(begin);
        }
    }
    None
}
