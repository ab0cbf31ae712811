// The names program: prints the channel lists in full. For each listed channel of detector number 3: type, channel, analysis name,
// cold name, and the code that type, number and analysis name lead back to. It asks for more types and channels than are listed.
#![tactic(auto)]

use note::Name;

// The descriptor of standard output: std's printing would assume more functions of C than `io` does.
const STDOUT: i32 = 1;

const MOST_TYPE: u32 = 12;

const MOST_CHANNEL: u32 = 15;

const DETECTOR: u32 = 3;

// A number and a blank: two lines, which a crate shared with `walking` would outweigh.
fn print(n: u32) {
    io::print_decimal(STDOUT, n as u64);
    io::write_all(STDOUT, b" ");
}

// A name and a blank.
fn print_name(name: Name) {
    let bytes = name.bytes;
    let size = io::count(name.length as isize, &bytes);
    io::write_all(STDOUT, &bytes[..size]);
    io::write_all(STDOUT, b" ");
}

// The code that a type and an analysis name lead back to, and the line's end. A name's letters are cut here and above: a function that lends them
// would be as long.
fn print_code(detector_type: u32, name: Name) {
    let bytes = name.bytes;
    let size = io::count(name.length as isize, &bytes);
    match dwejrasq::code(detector_type, DETECTOR, &bytes[..size]) {
        Ok(code) => {
            io::print_decimal(STDOUT, code as u64);
        }
        Err(_) => {
            io::write_all(STDOUT, b"refused");
        }
    }
    io::write_all(STDOUT, b"\n");
}

// The line of a type's channel, where it is listed.
fn print_channel(detector_type: u32, channel: u32) {
    if detector_type > MOST_TYPE {
        return;
    }
    if channel > MOST_CHANNEL {
        return;
    }
    if let Ok(answer) = dwejrasq::channel(detector_type * 1_000_000 + DETECTOR * 1_000 + channel) {
        print(detector_type);
        print(channel);
        print_name(answer.analysis);
        print_name(answer.cold);
        print_code(detector_type, answer.analysis);
    }
}

fn main() {
    for detector_type in 0..=MOST_TYPE {
        for channel in 0..=MOST_CHANNEL {
            print_channel(detector_type, channel);
        }
    }
}
