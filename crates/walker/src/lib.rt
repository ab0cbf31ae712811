// The walker: the lent file itself, and where a walk over it stands. Its fields are private, so a walker comes from opening a file and
// from stepping on, and from nothing else.
#![tactic(auto)]

ghost use Rattle.std.specs.Prelude.{◌≡◌};
ghost use Rattle.walk.specs.Steps.{step_of, opened_of};

use note::WalkerYield;
use walk::Spot;

/// A walker over a lent file. It isn't copied: `next` takes it and gives the one behind.
#[derive(Drop)]
pub struct Walker<'a> {
    file: &'a [u8],
    at: Spot,
}

/// Opens a file, which is checked once, and stands at the first yield. k steps from here the yield is `yield_at file k` (`walk_yields`).
pub fn open<'a>(file: &'a [u8]) -> Walker<'a>
    ensures { (result.file ≡ file.entry) × (result.at ≡ opened_of file.now) }
{
    Walker {
        file,
        at: walk::opened(file),
    }
}

/// What a walker yields: a row, the end, or the file's refusal.
pub fn yielded<'a>(w: Walker<'a>) -> WalkerYield
    ensures { result ≡ w.entry.at.last }
{
    w.at.last
}

/// The walker one step on.
pub fn next<'a>(w: Walker<'a>) -> Walker<'a>
    ensures { (result.file ≡ w.entry.file) × (result.at ≡ step_of w.entry.file.now w.entry.at) }
{
    Walker {
        file: w.file,
        at: walk::step(w.file, w.at),
    }
}
