// The listing program: reads a file from standard input and prints answer, count and place; then, of an accepted file, each row's number and
// six values. What it prints of the bytes that it read is proved to be the note's `listing_text` of them (`list`). Trusted is what no contract
// of a descriptor says: that reading gave the file's bytes, up to one more than the limit, and that all of the text was written.
#![tactic(auto)]

ghost use Rattle.std.specs.Prelude.{◌≡◌, ◌++◌, length, drop};
ghost use Rattle.io.specs.Counts.{IsPrefixLen};
ghost use Rattle.note.specs.Listing.{listing_text};

use dwejrasq::table;
use lines::put_table;
use note::{Fault, TableAnswer};

// The descriptor of standard input.
const STDIN: i32 = 0;

// The descriptor of standard output.
const STDOUT: i32 = 1;

const LISTING_LIMIT: usize = 16_384;

// The listing of a file, as text at the front of the lent output, whose rest stays; answers how many bytes it has. The output has room for the
// lines of any file up to the limit, which has at most 2,048 rows.
fn list(file: &[u8], out: &mut [u8; 178_239]) -> usize
    ensures value { result ≡ length (listing_text file.now) }
    ensures out_after { out.new ≡ listing_text file.now ++ drop result out.old }
    ensures prefix_len { IsPrefixLen result out.new }
{
    let mut rows = [0; 12_288];
    if file.len() > LISTING_LIMIT {
        let refused = TableAnswer {
            number: u32::from(Fault::TooLarge),
            count: 0,
            place: 0,
        };
        return put_table(out, refused, &rows);
    }
    let answer = table(file, &mut rows);
    put_table(out, answer, &rows)
}

// Input and output are `io`'s, by descriptor: std reads a limited input to its end only into a `Vec`, on the heap, and this program has none.
fn main() {
    let mut file = [0; 16_385];
    let mut text = [0; 178_239];
    let n = io::read_full(STDIN, &mut file);
    let size = list(&file[..n], &mut text);
    io::write_all(STDOUT, &text[..size]);
}
