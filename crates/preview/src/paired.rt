// The programmes as they are given: a page's first `count` places, and blanks after them.
ghost use Rattle.std.specs.Prelude.{◌≤◌, ◌≡◌, take};
ghost use Rattle.answer.specs.Lists.{filled};
ghost use Rattle.table.specs.Table.{most};
ghost use Rattle.preview.specs.Page.{programme_by, programmes_by};
ghost use Rattle.preview.specs.Taken.{blank};
ghost use Rattle.preview.specs.Rows.{page_by};

use crate::{Page, Programme};
use announced::{Announcement, Time};
use figures::Offset;
use originals::Original;
use table::Table;

fn blank() -> Programme
    ensures { result ≡ blank }
{
    Programme {
        row: 0,
        column: 0,
        start: Time { hour: 0, minute: 0 },
        finish: Time { hour: 0, minute: 0 },
        network: 0,
        day: 0,
        month: 0,
        year: 0,
        original: Time { hour: 0, minute: 0 },
        offset: Offset::Plus(0),
        pty: 0,
    }
}

// 'The k-th belongs to the k-th.'
fn programme_by(a: Announcement, o: Original) -> Programme
    ensures { result ≡ programme_by a o }
{
    Programme {
        row: a.row,
        column: a.column,
        start: a.start,
        finish: a.finish,
        network: o.network,
        day: o.day,
        month: o.month,
        year: o.year,
        original: Time {
            hour: o.hour,
            minute: o.minute,
        },
        offset: o.offset,
        pty: o.pty,
    }
}

fn programmes(n: usize, a: [Announcement; 24], o: [Original; 24]) -> [Programme; 24]
    requires { n ≤ 24 }
    ensures { result ≡ filled most blank (programmes_by (take n a) (take n o)) }
{
    let mut out = [blank(); 24];
    for i in 0..n {
        out[i] = programme_by(a[i], o[i]);
    }
    out
}

#[tactic(auto, unfolding(crate::specs::Rows::page_by))]
pub(crate) fn page_of(t: Table) -> Page
    requires { t.announcements.count ≤ 24 }
    ensures { result ≡ page_by t }
{
    let count = t.announcements.count;
    Page {
        count,
        programmes: programmes(count, t.announcements.places, t.originals.places),
    }
}
