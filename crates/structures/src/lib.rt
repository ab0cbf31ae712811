// The structures of a part, back to back, by their two words: what a loop over records or events goes through.
#![tactic(auto)]

ghost use Rattle.std.specs.Prelude.{◌≡◌, ◌+◌, ◌<◌, ◌^◌, length};
ghost use Rattle.structures.specs.Standing.{stands};

use record::FRONT;
use theory::Order;
use words::word_at;

/// A structure where it stands: its place, its kind word and its body.
#[derive(Clone, Copy)]
pub struct Structure<'a> {
    pub place: usize,
    pub word: u32,
    pub body: &'a [u8],
}

/// The structures at the front of a part, one behind the other, as long as their lengths lie within it. The part's first byte stands at `at`.
/// It isn't copied: a step on a copy would leave the sequence where it is.
#[derive(Drop)]
pub struct Sequence<'a> {
    pub rest: &'a [u8],
    pub at: usize,
    pub order: Order,
}

/// Whether a structure's two words stand at the front of a part, and its length lies within it.
#[tactic(auto, unfolding(crate::specs::Standing::stands))]
pub fn stands(part: &[u8], order: Order) -> bool
    ensures { result ≡ stands order part.now }
{
    if part.len() < FRONT {
        return false;
    }
    FRONT + word_at(part, 4, order) as usize <= part.len()
}

/// The structures of a part whose first byte stands at `at`.
pub fn structures<'a>(part: &'a [u8], at: usize, order: Order) -> Sequence<'a>
    requires { at + length part.now < 2 ^ 64 }
    ensures { (result.rest ≡ part.entry) × (result.at ≡ at) × (result.order ≡ order) }
{
    Sequence {
        rest: part,
        at,
        order,
    }
}

impl<'a> Iterator for Sequence<'a> {
    ghost use Rattle.std.specs.Iterator.{at_most};
    ghost use Rattle.structures.specs.Standing.{GivesStructure};

    type Item = Structure<'a>;

    ghost can_next = { λ s. s.at + length s.rest.now < 2 ^ 64 };

    ghost next_gives = { GivesStructure };

    ghost remaining = { λ s. at_most (length s.rest.now) };

    #[tactic(auto, unfolding(crate::specs::Standing::stands))]
    fn next(&mut self) -> Option<Structure<'a>> {
        if !stands(self.rest, self.order) {
            return None;
        }
        let size = FRONT + word_at(self.rest, 4, self.order) as usize;
        let structure = Structure {
            place: self.at,
            word: word_at(self.rest, 0, self.order),
            body: &self.rest[FRONT..size],
        };
        self.rest = &self.rest[size..];
        self.at += size;
        Some(structure)
    }
}
