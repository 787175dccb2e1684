// Answers rows of calls, for tests that hold the compiled desk to another: a sheet neither waits, asks nor cancels. Each row of 128
// bytes on standard input is a call, and 40 bytes on standard output answer it.
#![tactic(auto)]

mod answers; // what a call says, and every slot after it
mod rows; // the call that a row is

use desk::Desk;
use std::io::{Read, Write};

// Nothing says that the input ends, so the loop counts its turns, up to a number that no run comes to.
fn main(rt: HostRuntime) {
    let mut from = rt.stdin();
    let mut to = rt.stdout();
    let mut d = Desk::new();
    for _ in 0..u64::MAX {
        let mut row = [0u8; 128];
        if from.read_exact(&mut row).is_err() {
            return;
        }
        let said = rows::call(d, row);
        d = said.desk;
        let out = answers::bytes_of(d, said.number, said.value);
        if to.write_all(&out).is_err() {
            return;
        }
    }
}
