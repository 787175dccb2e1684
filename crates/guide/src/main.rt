// Prints a preview page's programmes: standard input in large pieces through `view`, and what it prints to standard output.
#![tactic(auto)]

ghost use Rattle.std.specs.Prelude.{◌≤◌, ◌≡◌, length};
ghost use Rattle.std.proofs.lemmas.List.Edits.{sets};
ghost use Rattle.view.specs.Reported.{end_told, longest};

use collected::Collected;

// What finds room is stored whole.
fn reported(page: Collected, out: &mut [u8]) -> usize
    requires { longest ≤ length out.old }
    ensures { (result ≡ length (end_told page)) × (out.new ≡ sets out.old 0 (end_told page)) }
{
    view::report(page, out)
}

// Reads up to the input's end, and no further than bytes decide something. A page whose end was not seen is not printed: it may
// be longer.
fn main(rt: HostRuntime) {
    let mut from = rt.stdin();
    let mut to = rt.stdout();
    let mut told = rt.stderr();
    let page = streams::collect(
        &mut from,
        &mut told,
        Collected::new(),
        b"guide: the input could not be read",
    );
    if let Some(page) = page {
        let mut out = [0u8; 65536];
        let n = reported(page, &mut out);
        streams::write(
            &mut to,
            &mut told,
            &out,
            n,
            b"guide: the output could not be written",
        );
    }
}
