// The programmes so far: a page's first `count` places, and blanks after them.
ghost use Rattle.std.specs.Prelude.{◌+◌, ◌-◌, ◌<◌, ◌≤◌, cond, List, [], ◌≡◌, eqb, get_or, set};
ghost use Rattle.programmes.specs.Page.{blank, page_of};
ghost use Rattle.programmes.specs.declared.Programme.{Programme};
ghost use Rattle.sequence.specs.Sequence.{changed};

use programmes::{Page, Programme};
use sequence::Change;

// No page has more programmes (law `at_most_103`).
const MOST: usize = 103;

pub(crate) fn none() -> Page
    ensures { result ≡ page_of [] }
{
    Page {
        count: 0,
        programmes: [Programme::blank(); 103],
    }
}

// A page is large, and most groups leave it as it is: it is lent and not copied, and so are its places, for which `answer::put` would copy all.
// Past the last place there is none.
fn at(programmes: &[Programme; 103], i: usize) -> Programme
    ensures { result ≡ get_or programmes.now i blank }
{
    if i < MOST {
        return programmes[i];
    }
    Programme::blank()
}

// Past the last place nothing is put, which no page comes to.
fn put(programmes: &mut [Programme; 103], i: usize, q: Programme)
    ensures { programmes.new ≡ set programmes.old i q }
{
    if MOST <= i {
        return;
    }
    programmes[i] = q;
}

fn begun(page: &mut Page, q: Programme)
    requires { page.old.count < 1000 }
    ensures { page.new ≡ record { count = page.old.count + 1; programmes = set page.old.programmes page.old.count q } }
{
    put(&mut page.programmes, page.count, q);
    page.count += 1;
}

fn last(page: &Page) -> Programme
    ensures { result ≡ cond (eqb page.now.count 0) blank (get_or page.now.programmes (page.now.count - 1) blank) }
{
    if page.count == 0 {
        return Programme::blank();
    }
    at(&page.programmes, page.count - 1)
}

fn with_last(page: &mut Page, q: Programme)
    ensures { page.new ≡ cond (eqb page.old.count 0) page.old (record { count = page.old.count; programmes = set page.old.programmes (page.old.count - 1) q }) }
{
    if page.count == 0 {
        return;
    }
    put(&mut page.programmes, page.count - 1, q);
}

// What a group does to the programmes so far.
pub(crate) fn change(page: &mut Page, c: Change)
    requires { page.old.count < 1000 }
    ensures { (page.new.count ≤ page.old.count + 1) × ((qs : List Programme) → page.old ≡ page_of qs → page.new ≡ page_of (changed c qs)) }
{
    match c {
        Change::Nothing => {}
        Change::Begins(q) => begun(page, q),
        Change::Finishes(finish) => {
            let q = last(page);
            with_last(page, Programme { finish, ..q })
        }
        Change::InSeries(code) => {
            let q = last(page);
            let series = Some(code);
            with_last(page, Programme { series, ..q })
        }
    }
}
