// The walking program: walks a file from standard input, of up to 8,192 bytes, by a walker of struct and slice, and prints each yield
// until two behind the first that is no row: a row's number and six values, the end, or a refusal's number and place. Then it walks the
// file's first half, and no bytes at all.
#![tactic(auto)]

ghost use Rattle.std.specs.Prelude.{◌≡◌};
ghost use Rattle.note.specs.Answers.{given_yield};
ghost use Rattle.note.specs.Rows.{yield_at};
ghost use Rattle.walk.specs.Steps.{opened_of, steps_from};

use note::WalkerYield;

// The descriptors of standard input and output: std's reading and printing would assume more functions of C than `io` does.
const STDIN: i32 = 0;

const STDOUT: i32 = 1;

// A file of 8,192 bytes has at most 1,024 rows; three yields more.
const MOST_YIELDS: usize = 1_027;

// What a walker yields that was opened and moved on k times.
#[tactic(auto, using(walk::proofs::WalkLaws::steps_more), unfolding(walk::specs::Steps::steps_from))]
fn after_steps(file: &[u8], k: usize) -> WalkerYield
    ensures { result ≡ (steps_from file.now k (opened_of file.now)).last }
{
    let mut w = dwejrasq::open(file);
    for _ in 0..k {
        w = dwejrasq::next(w);
    }
    dwejrasq::yielded(w)
}

// The same, as the note has it: the table's row k, from 0, then the end, or each time the file's refusal.
fn yield_at(file: &[u8], k: usize) -> WalkerYield
    ensures { given_yield result ≡ yield_at file.now k }
{
    after_steps(file, k)
}

// A number and a blank: two lines, which a crate shared with `names` would outweigh.
fn print(n: u64) {
    io::print_decimal(STDOUT, n);
    io::write_all(STDOUT, b" ");
}

// The line of a yield; whether it is a row.
fn print_yield(given: WalkerYield, k: usize) -> bool {
    match given {
        WalkerYield::Row {
            kind,
            start,
            whole,
            parent,
            one,
            two,
        } => {
            print(k as u64);
            print(kind as u64);
            print(start as u64);
            print(whole as u64);
            print(parent as u64);
            print(one as u64);
            io::print_decimal(STDOUT, two as u64);
            io::write_all(STDOUT, b"\n");
            true
        }
        WalkerYield::End => {
            io::write_all(STDOUT, b"end\n");
            false
        }
        WalkerYield::Refused { number, place } => {
            io::write_all(STDOUT, b"refused ");
            print(number as u64);
            io::print_decimal(STDOUT, place as u64);
            io::write_all(STDOUT, b"\n");
            false
        }
    }
}

// The lines of a walk, up to three that are no rows.
fn print_walk(file: &[u8]) {
    let mut beyond = 0;
    for k in 0..MOST_YIELDS {
        if beyond >= 3 {
            return;
        }
        if !print_yield(yield_at(file, k), k + 1) {
            beyond += 1;
        }
    }
}

// The buffer is fixed: the programs here use no heap.
fn main() {
    let mut file = [0u8; 8_192];
    let n = io::read_full(STDIN, &mut file);
    print_walk(&file[..n]);
    print_walk(&file[..n / 2]);
    print_walk(&[]);
}
