//! Words that know where their blocks lie.
ghost use Rattle.std.specs.Prelude.{◌≡◌};
ghost use Rattle.quantum_space.specs.PlacedWords.{in_kind, known, knowing, unplaced, word_of};

use crate::spot::{Kind, Spot};
use az_base::{BlockId, Word};

/// A word as it is kept: a reference may know the first quantum of its block, by the block's kind. It takes 16 bytes, as
/// a `Word` does.
#[derive(Clone, Copy)]
pub enum PlacedWord {
    Null,
    /// A block that lies nobody knows where.
    Block(BlockId),
    /// A block that begins at this small quantum.
    InSmall(BlockId, u32),
    /// A block that begins at this medium quantum.
    InMedium(BlockId, u32),
    Number(u64),
}

/// A reference to the block at a quantum of a kind.
fn in_kind(kind: Kind, id: BlockId, at: u32) -> PlacedWord
    ensures { result ≡ in_kind kind id at }
{
    match kind {
        Kind::Small => PlacedWord::InSmall(id, at),
        Kind::Medium => PlacedWord::InMedium(id, at),
    }
}

impl PlacedWord {
    /// A word whose block lies nobody knows where. O(1).
    pub fn of(word: Word) -> PlacedWord
        ensures { result ≡ unplaced word }
    {
        match word {
            Word::Null => PlacedWord::Null,
            Word::Block(id) => PlacedWord::Block(id),
            Word::Number(number) => PlacedWord::Number(number),
        }
    }

    /// A reference to the block that begins at a quantum, which it then knows, unless the quantum's number is 2^32 or
    /// more. O(1).
    pub fn knowing(id: BlockId, spot: Spot) -> PlacedWord
        ensures { result ≡ knowing id spot }
    {
        if spot.at <= u32::MAX as usize {
            in_kind(spot.kind, id, spot.at as u32)
        } else {
            PlacedWord::Block(id)
        }
    }

    /// Where the block begins; None where the word refers to none, or where nobody knows. O(1).
    pub fn known(self) -> Option<Spot>
        ensures { result ≡ known self }
    {
        match self {
            PlacedWord::Null => None,
            PlacedWord::Block(_) => None,
            PlacedWord::InSmall(_, at) => Some(Spot {
                kind: Kind::Small,
                at: at as usize,
            }),
            PlacedWord::InMedium(_, at) => Some(Spot {
                kind: Kind::Medium,
                at: at as usize,
            }),
            PlacedWord::Number(_) => None,
        }
    }

    /// The word. O(1).
    pub fn word(self) -> Word
        ensures { result ≡ word_of self }
    {
        match self {
            PlacedWord::Null => Word::Null,
            PlacedWord::Block(id) => Word::Block(id),
            PlacedWord::InSmall(id, _) => Word::Block(id),
            PlacedWord::InMedium(id, _) => Word::Block(id),
            PlacedWord::Number(number) => Word::Number(number),
        }
    }
}
