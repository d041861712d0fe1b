// Reads records from standard input, each behind a byte with its length. Prints a line for each: the reader's
// number, and the number that the writer gives for the same fields, or - where the record has no fields.
#![tactic(auto)]

use feed::each_record;
use layout::Call;
use record::{reader, writer};

// The writer's number for the fields of a record, or -.
fn print_written<P: Print>(rt: &P, s: &[u8]) {
    let r = reader::open(s);
    let list = r.list;
    let Ok(head) = r.answer else {
        let _ = rt.write_all(b"-");
        return;
    };
    let number = writer::write(Call { head, list }).number;
    let _ = print!(rt; "{number}");
}

fn print_line<P: Print>(rt: &P, s: &[u8]) {
    let number = reader::read(s).answer.err().unwrap_or(0);
    let _ = print!(rt; "{number} ");
    print_written(rt, s);
    let _ = rt.write_all(b"\n");
}

fn main(rt: HostRuntime) {
    each_record(&mut rt.stdin(), |_, s| print_line(&rt, s));
}
