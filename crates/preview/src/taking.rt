// A row taken one code at a time, and whether what was taken reads as programmes.
ghost use Rattle.std.specs.Prelude.{◌<◌, ◌≡◌, length, drop};
ghost use Rattle.rows.specs.Title.{begins_pair};
ghost use Rattle.preview.specs.Page.{row_of};
ghost use Rattle.preview.specs.Rows.{with_given_out, row_taken, may_read};

use figures::Found;
use rows::Row;
use table::Table;

// The last code of a row begins no pair.
fn pair_at(bytes: &[u8], r: usize, p: usize) -> bool
    requires { (length bytes.now ≡ 960) × (r < 24) × (p < 40) }
    ensures { result ≡ begins_pair (drop p (row_of bytes.now r)) }
{
    if p < 39 {
        let at = 40 * r + p;
        return codes::is_pair(bytes[at], bytes[at + 1]);
    }
    false
}

// A title's place is that of its text, behind the pair.
#[tactic(auto, unfolding(crate::specs::Rows::with_given_out))]
fn given_out(t: Table, row: u8, column: u8, titled: bool, text: bool, f: Found) -> Table
    requires { column < 40 }
    ensures { result ≡ with_given_out t row column titled text f }
{
    if titled {
        return t.titled(row, column + 2);
    }
    if text {
        return t;
    }
    t.format(f)
}

// Each code once, and then the row's end.
pub(crate) fn take_row(bytes: &[u8], r: usize, table: Table) -> Table
    requires { (length bytes.now ≡ 960) × (r < 24) }
    ensures { result ≡ row_taken r table (row_of bytes.now r) }
{
    let row = r as u8;
    let mut t = table;
    let mut x = Row::new();
    for p in 0..40 {
        let c = bytes[40 * r + p];
        let pair = pair_at(bytes, r, p);
        let found = x.found(codes::is_mark(c));
        let text = rows::is_text(found.value);
        let titled = x.titled(pair, text);
        // Most codes give nothing out, and then the table is not copied.
        if titled | (!text | (127 < c)) {
            t = given_out(t, row, x.column, titled, text, found).coded(c);
        }
        x = x.next(c, p as u8, pair, text);
    }
    let found = x.found(true);
    let text = rows::is_text(found.value);
    let titled = x.titled(true, text);
    given_out(t, row, x.column, titled, text, found)
}

// 'As many original times as programmes'; more than 24 are as many as 25, which no programmes are.
#[tactic(auto, unfolding(crate::specs::Rows::may_read))]
pub(crate) fn is_readable(t: Table) -> bool
    ensures { result ≡ may_read t }
{
    !t.wrong & (t.stage.ends() & (t.carried.ends() & (t.announcements.count == t.originals.count)))
}
