// Lists a page's programmes: standard input in large pieces through `listing`, and what it prints to standard output.
#![tactic(auto)]

ghost use Rattle.std.specs.Prelude.{◌≤◌, ◌≡◌, length};
ghost use Rattle.std.proofs.lemmas.List.Edits.{sets};
ghost use Rattle.listing.specs.Pieces.{end_told, longest};

use listing::Collected;

// A listing that finds room is stored whole.
fn reported(page: Collected, out: &mut [u8]) -> usize
    requires { longest ≤ length out.old }
    ensures { (result ≡ length (end_told page)) × (out.new ≡ sets out.old 0 (end_told page)) }
{
    page.report(out)
}

// Reads up to the input's end, and no further than bytes decide something. A page whose end was not seen is not listed: cut after a
// packet, it would be another page.
fn main(rt: HostRuntime) {
    let mut from = rt.stdin();
    let mut to = rt.stdout();
    let mut told = rt.stderr();
    let page = streams::collect(
        &mut from,
        &mut told,
        Collected::new(),
        b"pages: the input could not be read",
    );
    if let Some(page) = page {
        let mut out = [0u8; 65536];
        let n = reported(page, &mut out);
        streams::write(
            &mut to,
            &mut told,
            &out,
            n,
            b"pages: the output could not be written",
        );
    }
}
