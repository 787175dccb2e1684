// What tests and benchmarks in another language link: a few calls over numbers and bytes. None asks anything of its caller.
#![tactic(auto)]

ghost use Rattle.std.specs.Prelude.{true, ◌≡◌, length};
ghost use Rattle.answer.specs.Answer.{number, after};
ghost use Rattle.hamming.specs.Byte.{nibble_of, coding_of};
ghost use Rattle.label.specs.Pil.{service_of};
ghost use Rattle.calendar.specs.Calendar.{window_in};
ghost use Rattle.triplet.specs.Word.{word_of, triplet_of};
ghost use Rattle.triplet.specs.Word as word;
ghost use Rattle.fields.specs.Fields.{plain, page_into, page_from, packets_told, bytes_left, pil_from};
ghost use Rattle.viewed.specs.Viewed.{ReadInto};
ghost use Rattle.probe.specs.Laws.{Laws};
ghost use Rattle.probe.specs.Plain.{nibble_number, byte_or, received_bytes, label_of, read_into, write_from, service_number, window_or};
ghost use Rattle.probe.specs.Plain.{triplet_number};

use answer::{pair, triple};
use hamming::Nibble;
use label::pil::Service;
use label::{Label, Received};
use triplet::Triplet;

// The answer where the bytes lent for a label are more or fewer: no number of the paper.
const WRONG_ROOM: u8 = 255;

// The value of a clean byte, 32 more for a mended one, and 16 for a damaged one.
#[unsafe(no_mangle)]
pub extern "C" fn probe_decode(b: u8) -> u8
    ensures { result ≡ nibble_number (nibble_of b) }
{
    match hamming::decode(b) {
        Nibble::Damaged => 16,
        Nibble::Clean(v) => v,
        Nibble::Mended(v) => 32 + v,
    }
}

#[unsafe(no_mangle)]
pub extern "C" fn probe_encode(v: u8) -> u16
    ensures { result ≡ byte_or (coding_of v) }
{
    match hamming::encode(v) {
        None => 4096,
        Some(b) => u16::from(b),
    }
}

fn fill(r: Received, out: &mut [u8])
    requires { length out.old ≡ 14 }
    ensures { out.new ≡ received_bytes r }
{
    let l = r.label;
    out[0] = l.designation;
    out[1] = l.lci;
    out[2] = l.luf;
    out[3] = l.prf;
    out[4] = l.pcs;
    out[5] = l.mi;
    out[6] = l.spare;
    out[7] = (l.cni / 256 % 256) as u8;
    out[8] = (l.cni % 256) as u8;
    out[9] = (l.pil / 65536 % 256) as u8;
    out[10] = (l.pil / 256 % 256) as u8;
    out[11] = (l.pil % 256) as u8;
    out[12] = l.pty;
    out[13] = r.mended;
}

// Fourteen bytes are filled: the label's thirteen, and the count of mended bytes.
#[unsafe(no_mangle)]
pub extern "C" fn probe_read(bytes: &[u8], out: &mut [u8]) -> u8
    ensures value { (result ≡ number (read_into bytes.now out.old)) × (out.new ≡ after out.old (read_into bytes.now out.old)) }
    ensures bytes_value { bytes.exit.now ≡ bytes.entry.now }
{
    if out.len() != 14 {
        return WRONG_ROOM;
    }
    match reader::read(bytes) {
        Err(why) => why.number(),
        Ok(got) => {
            fill(got, out);
            0
        }
    }
}

fn label_of(f: &[u8]) -> Label
    requires { length f.now ≡ 13 }
    ensures { result ≡ label_of f.now }
{
    Label {
        designation: f[0],
        lci: f[1],
        luf: f[2],
        prf: f[3],
        pcs: f[4],
        mi: f[5],
        spare: f[6],
        cni: pair(f[7], f[8]),
        pil: triple(f[9], f[10], f[11]),
        pty: f[12],
    }
}

#[unsafe(no_mangle)]
pub extern "C" fn probe_write(fields: &[u8], buf: &mut [u8]) -> u8
    ensures value { (result ≡ number (write_from fields.now buf.old)) × (buf.new ≡ after buf.old (write_from fields.now buf.old)) }
    ensures fields_value { fields.exit.now ≡ fields.entry.now }
{
    if fields.len() != 13 {
        return WRONG_ROOM;
    }
    label::written_number(writer::write(label_of(fields), buf))
}

#[unsafe(no_mangle)]
pub extern "C" fn probe_service(pil: u32) -> u8
    ensures { result ≡ service_number (service_of pil) }
{
    match label::pil::service_of(pil) {
        Service::Programme => 0,
        Service::TimerControl => 1,
        Service::InhibitTerminate => 2,
        Service::Interruption => 3,
        Service::Continuation => 4,
        Service::NoSpecificValue => 5,
    }
}

// The window as two numbers of thirty-two bits, the opening first, or the refusal's number, which no window is.
#[unsafe(no_mangle)]
pub extern "C" fn probe_window(pil: u32, year: u8) -> u64
    ensures { result ≡ window_or (window_in pil year) }
{
    match calendar::window_of(pil, year) {
        None => 11,
        Some(w) => u64::from(w.opens) * 4294967296 + u64::from(w.closes),
    }
}

// The value of a clean word, 524288 more for a mended one, and 262144 for a damaged one.
#[unsafe(no_mangle)]
pub extern "C" fn probe_triplet(a: u8, b: u8, c: u8) -> u32
    ensures { result ≡ triplet_number (triplet_of (word_of a b c)) }
{
    let t = triplet::decode(a, b, c);
    match t {
        Triplet::Damaged => 262144,
        Triplet::Clean(v) => v,
        Triplet::Mended(v) => 524288 + v,
    }
}

#[unsafe(no_mangle)]
pub extern "C" fn probe_triplet_word(v: u32) -> u32
    ensures { result ≡ plain 16777216 (word.coding_of v) }
{
    match triplet::encode(v) {
        None => 318767104,
        Some(w) => w,
    }
}

#[unsafe(no_mangle)]
pub extern "C" fn probe_page_read(page: &[u8], out: &mut [u8]) -> u8
    ensures value { (result ≡ number (page_into page.now out.old))
        × (out.new ≡ after out.old (page_into page.now out.old)) }
    ensures page_value { page.exit.now ≡ page.entry.now }
{
    fields::read_into(page, out)
}

#[unsafe(no_mangle)]
pub extern "C" fn probe_page_write(fields: &[u8], buf: &mut [u8]) -> u16
    ensures value { (result ≡ plain 256 (packets_told (page_from fields.now buf.old)))
        × (buf.new ≡ after buf.old (bytes_left (page_from fields.now buf.old))) }
    ensures fields_value { fields.exit.now ≡ fields.entry.now }
{
    fields::write_from(fields, buf)
}

#[unsafe(no_mangle)]
pub extern "C" fn probe_pil(fields: &[u8]) -> u32
    ensures value { result ≡ plain 16777216 (pil_from fields.now) }
    ensures fields_value { fields.exit.now ≡ fields.entry.now }
{
    fields::pil_from(fields)
}

#[unsafe(no_mangle)]
pub extern "C" fn probe_preview(page: &[u8], out: &mut [u8]) -> u8
    ensures read_into { ReadInto page.now out.old result out.new }
    ensures page_value { page.exit.now ≡ page.entry.now }
{
    viewed::read_into(page, out)
}

// The laws of these calls, as a promise of the crate.
pub fn lawful() -> bool
    ensures { (result ≡ true) × Laws }
{
    true
}
