// The visitor for C, in a library of its own: the walk's step, called in one place alone, is compiled into its loop.
#![tactic(auto)]

ghost use Rattle.std.specs.Prelude.{◌≡◌, length};
ghost use Rattle.note.specs.Visitor.{visit_answer, visit_buffer};

/// Visit: the number; rows from the number `first` on, from 0, their count and the place lent.
#[unsafe(no_mangle)]
pub extern "C" fn dwj_visit(
    file: &[u8],
    first: usize,
    rows: &mut [u32],
    count: &mut u64,
    place: &mut u64,
) -> u32
    ensures number { result ≡ (visit_answer file.now first (length rows.old)).number }
    ensures rows { rows.new ≡ visit_buffer file.now first rows.old }
    ensures count { count.new ≡ (visit_answer file.now first (length rows.old)).count }
    ensures place { place.new ≡ (visit_answer file.now first (length rows.old)).place }
{
    let answer = dwejrasq::visit(file, first, rows);
    *count = answer.count as u64;
    *place = answer.place as u64;
    answer.number
}
