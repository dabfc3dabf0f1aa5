//! What calls have to tell a collection.
ghost use Rattle.std.specs.Prelude.{◌≡◌, ◌⊎◌, ◌↔◌, IsTrue, IsFalse};
ghost use Rattle.write_barrier.specs.Barrier.{IsMarking, IsSettling};

use az_base::Mode;

/// How far a collection is.
#[derive(Clone, Copy)]
pub enum Phase {
    /// None is open.
    Idle,
    /// It has begun, and hasn't condemned yet.
    Marking(Mode),
    /// It has condemned, and hasn't reclaimed yet.
    Settling,
}

/// What a call has to do for a collection.
#[derive(Clone, Copy)]
pub struct Effect {
    /// The block that is stored into gets a card.
    pub remember: bool,
    /// The value is made known to the marker.
    pub enliven: bool,
}

/// A block is stored into a word of another one, or becomes the value of an association of it. `dest_old` and
/// `value_old` say which of both are old, and `value_condemned` whether the value is condemned. A null has no effect.
/// O(1).
pub fn on_store(phase: Phase, dest_old: bool, value_old: bool, value_condemned: bool) -> Effect
    ensures remember { IsTrue result.remember ↔ ((IsTrue dest_old × IsFalse value_old) ⊎ (IsSettling phase × IsTrue value_condemned)) }
    ensures enliven { IsTrue result.enliven ↔ IsMarking phase }
{
    let watched = is_settling(phase) && value_condemned;
    let enliven = is_marking(phase);
    Effect {
        remember: (dest_old && !value_old) || watched,
        enliven,
    }
}

/// A block escapes. What is enlivened is each escaped block that a word of it holds. O(1).
pub fn on_escape(phase: Phase) -> Effect
    ensures remember { IsFalse result.remember }
    ensures enliven { IsTrue result.enliven ↔ IsMarking phase }
{
    without_card(phase)
}

/// A block is put into a root. It is the one that is enlivened. O(1).
pub fn on_root(phase: Phase) -> Effect
    ensures remember { IsFalse result.remember }
    ensures enliven { IsTrue result.enliven ↔ IsMarking phase }
{
    without_card(phase)
}

/// A weak location is read. What is enlivened is the block that it shows. O(1).
pub fn on_weak_read(phase: Phase) -> Effect
    ensures remember { IsFalse result.remember }
    ensures enliven { IsTrue result.enliven ↔ IsMarking phase }
{
    without_card(phase)
}

// Enlivens while marking, and sets no card.
fn without_card(phase: Phase) -> Effect
    ensures remember { IsFalse result.remember }
    ensures enliven { IsTrue result.enliven ↔ IsMarking phase }
{
    Effect {
        remember: false,
        enliven: is_marking(phase),
    }
}

fn is_marking(phase: Phase) -> bool
    ensures { IsTrue result ↔ IsMarking phase }
{
    match phase {
        Phase::Marking(_) => true,
        Phase::Idle | Phase::Settling => false,
    }
}

fn is_settling(phase: Phase) -> bool
    ensures { IsTrue result ↔ IsSettling phase }
{
    match phase {
        Phase::Settling => true,
        Phase::Idle | Phase::Marking(_) => false,
    }
}
