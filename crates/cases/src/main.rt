// The cases program: reads a stream of cases from standard input and prints what Table answers for each. A case is two words (how
// many rows to lend, how many bytes the file has) and the file. Printed are answer, count and place; then, of an accepted file, each
// row's number and six values. A case that is cut short, or is larger than the buffer for files, ends the program.
#![tactic(auto)]

use lines::put_table;

// The descriptors of standard input and output: std's reading and printing would assume more functions of C than `io` does.
const STDIN: i32 = 0;

const STDOUT: i32 = 1;

// The most bytes of an answer's text: its first line, and the lines of as many rows as the buffer has.
const TEXT: usize = 5_631;

// The most cases of a stream.
const MOST_CASES: u32 = 65_536;

// Reads the next case and prints its answer; false where no whole case is there, or it does not fit.
fn answer_case(file: &mut [u8], rows: &mut [u32]) -> bool {
    let mut head = [0u8; 8];
    if io::read_full(STDIN, &mut head) < 8 {
        return false;
    }
    let [a, b, c, d, e, f, g, h] = head;
    let asked = u32::from_le_bytes([a, b, c, d]) as usize;
    let size = u32::from_le_bytes([e, f, g, h]) as usize;
    if file.len() < size {
        return false;
    }
    if io::read_full(STDIN, &mut file[..size]) < size {
        return false;
    }
    let capacity = asked.min(rows.len() / 6);
    let answer = dwejrasq::table(&file[..size], &mut rows[..6 * capacity]);
    let mut text = [0u8; TEXT];
    let made = put_table(&mut text, answer, rows);
    io::write_all(STDOUT, &text[..made]);
    true
}

// The buffers are fixed: the programs here use no heap.
fn main() {
    let mut file = [0u8; 131_072];
    let mut rows = [0u32; 384];
    for _ in 0..MOST_CASES {
        if !answer_case(&mut file, &mut rows) {
            return;
        }
    }
}
