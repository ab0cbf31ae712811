// Rewrite: the fields of an accepted file, read and written again through the writers, the header's writer and the closings' storing halves,
// from byte 0 on.
// The file is checked first and the output has room, so nothing refuses behind the first store, and places in the output are the file's.
#![tactic(auto)]

ghost use Rattle.std.specs.Prelude.{◌≡◌, length};
ghost use Rattle.note.specs.Faults.{res_of};
ghost use Rattle.note.specs.Writers.{closing_bytes, rewrite_next, rewrite_output};
ghost use Rattle.std.proofs.lemmas.List.Edits.{sets};
ghost use Rattle.demands.specs.Outputs.{HasRoom};
ghost use Rattle.rewriting.specs.Ready.{Begins, RecordsReady, ContainersReady, FileReady, Stands};

use closings::{begin_configuration, begin_event, write_header};
use containers::{CONFIGURATION, HEADER, check};
use copies::copy_record;
use fields::{category_of, class_of, event_type_of};
use note::{Fault, Refusal};
use record::{FILE_LIMIT, FRONT};
use structures::structures;
use theory::Order;
use words::{order_of, word_at};

// Writes again the records or entries that fill a part, whose first byte stands at the place in the file and in the output.
fn copy_records(part: &[u8], out: &mut [u8], place: usize, order: Order)
    requires { RecordsReady order place part.now (length out.old) }
    ensures { Stands part.now out.old place out.new }
{
    for record in structures(part, place, order) {
        copy_record(record.word, record.body, out, record.place, order);
    }
}

// Stores a container's two words in front of contents that end at `end`: a configuration's, or an event's from its class, category and type.
// The word is asked, and no `Container`: of an event the fields are handed on, since Rewrite writes from fields.
fn begin_container(out: &mut [u8], place: usize, end: usize, word: u32, order: Order)
    requires room { HasRoom (length out.old) place end }
    requires word { Begins word }
    ensures { out.new ≡ sets out.old place (closing_bytes order word place end) }
{
    if word == CONFIGURATION {
        begin_configuration(out, place, end, order);
        return;
    }
    let class = class_of(word);
    let category = category_of(word);
    let event_type = event_type_of(word);
    begin_event(out, place, end, class, category, event_type, order);
}

// Writes again the containers that fill a part, the configuration and the events: each one's two words, then its contents. So the output is stored
// from its first byte to its last.
fn copy_containers(part: &[u8], out: &mut [u8], place: usize, order: Order)
    requires { ContainersReady order place part.now (length out.old) }
    ensures { Stands part.now out.old place out.new }
{
    for container in structures(part, place, order) {
        let end = container.place + FRONT + container.body.len();
        begin_container(out, container.place, end, container.word, order);
        copy_records(container.body, out, container.place + FRONT, order);
    }
}

// Writes an accepted file again: its header, then its containers.
fn copy_file(file: &[u8], out: &mut [u8], order: Order)
    requires { FileReady order file.now (length out.old) }
    ensures { Stands file.now out.old 0 out.new }
{
    let [major, minor, ..] = word_at(file, 4, order).to_be_bytes();
    let _ = write_header(out, major, minor, order);
    copy_containers(&file[HEADER..], out, HEADER, order);
}

/// Rewrite: an accepted file's fields, read and written again from byte 0 on; answers the next place. Either buffer over the limit is 1, then comes
/// the file's refusal, then 13 where the output has too little room; a refusal changes no byte (FORMAT 9.5).
pub fn rewrite(file: &[u8], out: &mut [u8]) -> Result<usize, Refusal>
    ensures answer { res_of result ≡ rewrite_next file.now out.old }
    ensures output { out.new ≡ rewrite_output file.now out.old }
{
    if out.len() > FILE_LIMIT {
        return Err(Fault::TooLarge.at(0));
    }
    check(file)?;
    if out.len() < file.len() {
        return Err(Fault::NoRoom.at(0));
    }
    copy_file(file, out, order_of(file));
    Ok(file.len())
}
