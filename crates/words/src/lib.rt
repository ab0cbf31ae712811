// Words of a slice of bytes, as the note's files have them.
#![tactic(auto)]

ghost use Rattle.std.specs.Prelude.{◌≡◌, ◌+◌, ◌≤◌, length};
ghost use Rattle.note.specs.Words.{word};
ghost use Rattle.note.specs.Files.{order_of};

use theory::Order;

/// The order of a file's words, told by its first bytes. For now every file's have their lowest byte first.
#[tactic(auto, unfolding(note::specs::Files::order_of))]
pub fn order_of(file: &[u8]) -> Order
    ensures { result ≡ order_of file.now }
{
    Order::Little
}

/// The word at a place of the bytes, as they stand in a file of that order. That it stands there is asked, and no type says it: any place may be.
pub fn word_at(s: &[u8], at: usize, order: Order) -> u32
    requires { at + 4 ≤ length s.now }
    ensures { result ≡ word order at s.now }
{
    let bytes = [s[at], s[at + 1], s[at + 2], s[at + 3]];
    match order {
        Order::Little => u32::from_le_bytes(bytes),
        Order::Big => u32::from_be_bytes(bytes),
    }
}
