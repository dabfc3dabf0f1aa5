//! What is written into the words of the blocks.
ghost use Rattle.std.specs.Prelude.{◌≡◌, Some};
ghost use Rattle.block_space.specs.Spaces.{HasBlockAt, HasWordAt, IsRight, reference, with_word_at};
ghost use Rattle.quantum_space.specs.PlacedWords.{unplaced};

use crate::space::Space;
use az_base::Word;
use quantum_space::{Kind, Place, PlacedWord};

impl Space {
    /// Changes a word of the block at a place, and nothing else. Where the block lies to which it refers is then not known.
    /// O(1).
    pub fn set(&mut self, p: Place, i: u32, word: Word)
        requires { HasWordAt self.old p i }
        ensures { self.new ≡ with_word_at self.old p i (unplaced word) }
    {
        self.set_placed(p, i, PlacedWord::of(word));
    }

    /// Makes a word of the block at a place refer to the block at another one, which it then knows, and changes nothing
    /// else. O(1).
    pub fn refer(&mut self, p: Place, i: u32, to: Place)
        requires word { HasWordAt self.old p i }
        requires block { HasBlockAt self.old to }
        ensures { self.new ≡ with_word_at self.old p i (reference self.old to) }
    {
        let word = self.reference(to);
        self.set_placed(p, i, word);
    }

    /// A reference to the block at a place.
    fn reference(&self, to: Place) -> PlacedWord
        requires { HasBlockAt self.now to }
        ensures value { result ≡ reference self.now to }
        ensures right { IsRight self.now.small.layouts self.now.medium.layouts self.now.small.ids self.now.medium.ids result }
    {
        let Some(spot) = self.spot(to) else {
            unreachable!()
        };
        let id = match spot.kind {
            Kind::Small => self.small.id(spot.at),
            Kind::Medium => self.medium.id(spot.at),
        };
        PlacedWord::knowing(id, spot)
    }

    fn set_placed(&mut self, p: Place, i: u32, word: PlacedWord)
        requires there { HasWordAt self.old p i }
        requires right { IsRight self.old.small.layouts self.old.medium.layouts self.old.small.ids self.old.medium.ids word }
        ensures { self.new ≡ with_word_at self.old p i word }
    {
        let Some(spot) = self.spot(p) else {
            unreachable!()
        };
        match spot.kind {
            Kind::Small => self.small.set_word(spot.at, i as usize, word),
            Kind::Medium => self.medium.set_word(spot.at, i as usize, word),
        }
    }
}
