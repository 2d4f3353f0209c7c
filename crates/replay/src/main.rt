// The program: a listing on standard input, the report on standard output; or, with the argument --rewrite, the same listing in the format that
// is written, and a report only where it is refused.
//
// It tells by what it prints, and ends with status 0 all the same: where standard input can't be read there is no report, but a word on standard
// error. bin/replay takes that for exit 2.

#![tactic(auto)]

mod input;

use listing::program::{replay, rewrite};
use std::rt::Env;

// Whether the program's argument is that word.
fn to_rewrite<E: Env>(rt: &E) -> bool {
    let mut word = [0u8; 9];
    match rt.arg(1, &mut word) {
        Ok(9) => word == *b"--rewrite",
        _ => false,
    }
}

// What can't be written to standard error either is not said at all.
fn put<P: Print + Eprint>(rt: &P, bytes: &[u8]) {
    if rt.write_all(bytes).is_err() {
        let _ = rt.eprintln("can't write: a write to standard output failed");
    }
}

// Replays a listing that was read whole. Each output has a room of its own, so that a report, of 11,190 bytes at most, is spared the larger one.
fn print_report<P: Print + Eprint>(rt: &P, text: &[u8]) {
    let mut room = [0u8; 11190];
    let length = replay(text, &mut room).length;
    put(rt, &room[..length]);
}

// Writes it again; 114 bytes for the head, and 45 at most for each of 1,024 lines.
fn print_rewritten<P: Print + Eprint>(rt: &P, text: &[u8]) {
    let mut room = [0u8; 46194];
    let length = rewrite(text, &mut room).length;
    put(rt, &room[..length]);
}

fn main(rt: HostRuntime) {
    // One byte more than a listing may have, so that a longer one is seen to be longer and not cut.
    let mut text = [0u8; 65537];
    let Ok(length) = input::read_all(&mut rt.stdin(), &mut text) else {
        let _ = rt.eprintln("can't read: a read of standard input failed");
        return;
    };
    if to_rewrite(&rt) {
        print_rewritten(&rt, &text[..length]);
    } else {
        print_report(&rt, &text[..length]);
    }
}
