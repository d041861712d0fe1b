// Reads records from standard input, each behind a byte with its length. Prints a line for each: the reader's
// number, the number that the writer gives for the fields that the reader hands back, and whether the writer's bytes are
// the same as the record's, zeros or others; or - for both where there are no fields.
#![tactic(auto)]

use feed::each_record;
use layout::Call;
use lists::zeros;
use record::{Reading, reader, writer};

// What the writer's bytes are, beside the record's.
fn print_bytes<P: Print>(rt: &P, bytes: &[u8], s: &[u8]) {
    let word: &[u8] = if zeros(bytes) {
        b"zeros"
    } else if s.starts_with(bytes) {
        b"same"
    } else {
        b"others"
    };
    let _ = rt.write_all(word);
}

// The writer's number and bytes for the fields of a reading, or -.
fn print_written<P: Print>(rt: &P, r: Reading, s: &[u8]) {
    let list = r.list;
    let Ok(head) = r.answer else {
        let _ = rt.write_all(b"- -");
        return;
    };
    let w = writer::write(Call { head, list });
    let _ = print!(rt; "{} ", w.number);
    print_bytes(rt, &w.bytes, s);
}

// Of a record that the reader refuses, the writer gets the fields as they stand there.
fn print_line<P: Print>(rt: &P, s: &[u8]) {
    let r = reader::read(s);
    match r.answer {
        Ok(_) => {
            let _ = rt.write_all(b"0 ");
            print_written(rt, r, s);
        }
        Err(number) => {
            let _ = print!(rt; "{number} ");
            print_written(rt, reader::open(s), s);
        }
    }
    let _ = rt.write_all(b"\n");
}

fn main(rt: HostRuntime) {
    each_record(&mut rt.stdin(), |_, s| print_line(&rt, s));
}
