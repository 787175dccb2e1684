// Plays the sequences of EN 300 231, Annex E, on the label desk, and prints what the desk says of each recorder at each
// logged time.
#![tactic(auto)]

mod events; // what the recorders are programmed with
mod line; // one line of print
mod numbers; // from the tables' numbers to seconds and labels
mod play; // labels into packets, packets into the desk
mod rows; // what each label channel carries, from the annex's tables

use events::SEQUENCES;

fn main(rt: HostRuntime) {
    let mut to = rt.stdout();
    for s in &SEQUENCES {
        play::play(&mut to, *s);
    }
}
