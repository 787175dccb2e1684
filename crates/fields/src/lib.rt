// A page's programmes as plain bytes, for callers in another language. None of the calls asks anything of its caller.
#![tactic(auto)]

ghost use Rattle.std.specs.Prelude.{◌≤◌, true, ◌∷◌, ◌≡◌, length, get_or};
ghost use Rattle.answer.specs.Answer.{number, after};
ghost use Rattle.fields.specs.Fields.{bytes_of, programmes_to, plain, page_into, page_from, packets_told, bytes_left, pil_from};
ghost use Rattle.fields.specs.Laws.{Laws};

use programmes::pil::pil_of;
use programmes::{Page, Programme};

mod programme; // one programme's sixteen bytes

// The answer where lent bytes are more or fewer than those asked for: no number of the paper.
const WRONG_ROOM: u8 = 255;

fn fill(page: Page, out: &mut [u8])
    requires { (length out.old ≡ 1649) × (page.count ≤ 103) }
    ensures { out.new ≡ page.count ∷ bytes_of page.programmes }
{
    out[0] = page.count as u8;
    for (i, q) in page.programmes.iter().enumerate() {
        programme::put(out, 1 + 16 * i, programme::bytes_of(*q));
    }
}

// The count, then 103 programmes of sixteen bytes. No refusal has the number 0.
pub fn read_into(page: &[u8], out: &mut [u8]) -> u8
    ensures value { (result ≡ number (page_into page.now out.old))
        × (out.new ≡ after out.old (page_into page.now out.old)) }
    ensures page_value { page.exit.now ≡ page.entry.now }
{
    if out.len() != 1649 {
        return WRONG_ROOM;
    }
    match preselection::read(page) {
        Ok(read) => {
            fill(read, out);
            0
        }
        Err(refusal) => refusal.number(),
    }
}

fn page_of(f: &[u8]) -> Page
    requires { length f.now ≡ 1650 }
    ensures { (result.count ≡ get_or f.now 1 0) × (result.programmes ≡ programmes_to f.now 103) }
{
    let mut programmes = [Programme::blank(); 103];
    for (i, q) in programmes.iter_mut().enumerate() {
        *q = programme::programme_at(f, 2 + 16 * i);
    }
    Page {
        count: f[1] as usize,
        programmes,
    }
}

// The magazine, the count, then 103 programmes of sixteen bytes.
pub fn write_from(fields: &[u8], buf: &mut [u8]) -> u16
    ensures value { (result ≡ plain 256 (packets_told (page_from fields.now buf.old)))
        × (buf.new ≡ after buf.old (bytes_left (page_from fields.now buf.old))) }
    ensures fields_value { fields.exit.now ≡ fields.entry.now }
{
    if fields.len() != 1650 {
        return WRONG_ROOM as u16 * 256;
    }
    let page = page_of(fields);
    match preselection::write(fields[0], page, buf) {
        Ok(packets) => packets as u16,
        Err(refusal) => refusal.number() as u16 * 256,
    }
}

// 2 ^ 20, which is wider than a PIL, where there is none.
pub fn pil_from(fields: &[u8]) -> u32
    ensures value { result ≡ plain 16777216 (pil_from fields.now) }
    ensures fields_value { fields.exit.now ≡ fields.entry.now }
{
    if fields.len() != 16 {
        return WRONG_ROOM as u32 * 16777216;
    }
    pil_of(programme::programme_at(fields, 0)).unwrap_or(1048576)
}

// The laws of these calls, as a promise of the crate.
pub fn lawful() -> bool
    ensures { (result ≡ true) × Laws }
{
    true
}
