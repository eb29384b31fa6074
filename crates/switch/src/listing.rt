// The listing: every standing rule of a register as a line of decimal numbers.
ghost use Rattle.std.specs.Prelude.{◌≡◌, ◌+◌, ◌≤◌, ◌++◌, length, take, IfOk, MatchResult};
ghost use Rattle.arrayvec.specs.ArrayVec.{array_vec_len};
ghost use Rattle.rules.specs.Refusals.{first, refusal};
ghost use Rattle.switch.specs.Listings.{under, standing_of, standing, numbered, line, lines, trailer, listing, over, list_grounds, ReadBack};

use crate::decimals::digits_of;
use crate::register::Register;
use crate::tables::Tables;
use arrayvec::ArrayVec;
use itoa::Buffer;
use rules::refusal::Refusal;
use rules::rule::Rule;

// How many bytes some lines take, and how many lines they are.
#[derive(Clone, Copy)]
struct Extent {
    bytes: u32,
    count: u32,
}

// Writes the listing of the standing rules at the front of the buffer, and tells how many bytes it takes; what stands behind them stays. Refused
// where the buffer is too short, and then nothing is written. The whole text is measured first, so that a refusal comes before the first byte.
pub fn list(register: &Register, out: &mut [u8]) -> Result<usize, Refusal>
    ensures refused { refusal result ≡ first (list_grounds (length (listing register.now.width.bits register.now.weights)) (length out.old)) }
    ensures long { IfOk result (λ n. n ≡ length (listing register.now.width.bits register.now.weights)) }
    ensures bytes { MatchResult result (λ _. out.new ≡ over (listing register.now.width.bits register.now.weights) out.old) (λ _. out.new ≡ out.old) }
    ensures read { IfOk result (λ n. ReadBack register.now.width.bits register.now.weights (take n out.new)) }
    ensures most { length (listing register.now.width.bits register.now.weights) ≤ 36635 }
{
    let standing = register.standing();
    let extent = measure(standing);
    let last = trailer(extent);
    if out.len() < extent.bytes as usize + last.len() {
        return Err(Refusal::BufferTooShort);
    }
    let used = write_lines(out, standing);
    let rest = write(&mut out[used..], &last);
    Ok(used + rest)
}

// What the lines of all rules come to. One walk counts both, and makes no line for it.
fn measure(tables: Tables) -> Extent
    ensures bytes { result.bytes ≡ length (lines (standing tables.entry.width.bits tables.entry.weights.now)) }
    ensures count { result.count ≡ length (standing tables.entry.width.bits tables.entry.weights.now) }
    ensures few { result.bytes ≤ 36608 }
{
    let mut bytes = 0;
    let mut count = 0;
    for rule in tables.rules() {
        bytes += measure_line(rule.tag, rule.rule);
        count += 1;
    }
    Extent { bytes, count }
}

fn measure_line(tag: u32, rule: Rule) -> u32
    ensures value { result ≡ length (line (under tag rule)) }
    ensures small { result ≤ 44 }
{
    let server = u32::from(rule.server.number());
    digits_of(tag) + digits_of(rule.start) + digits_of(rule.length) + digits_of(server) + 4
}

// The lines of all services. Kept as a walk over the tags by a rule of the project: the writer of one service's lines is lent the free rest of the
// buffer, from its middle.
fn write_lines(out: &mut [u8], tables: Tables) -> usize
    requires { length (lines (standing tables.width.bits tables.weights.now)) ≤ length out.old }
    ensures value { result ≡ length (lines (standing tables.entry.width.bits tables.entry.weights.now)) }
    ensures bytes { out.new ≡ over (lines (standing tables.entry.width.bits tables.entry.weights.now)) out.old }
{
    let mut used = 0;
    for tag in 0..64 {
        used += write_service(&mut out[used..], tables, tag);
    }
    used
}

// The lines of one service, in table order.
fn write_service(out: &mut [u8], tables: Tables, tag: u32) -> usize
    requires { length (lines (standing_of tables.width.bits tables.weights.now tag)) ≤ length out.old }
    ensures value { result ≡ length (lines (standing_of tables.entry.width.bits tables.entry.weights.now tag)) }
    ensures bytes { out.new ≡ over (lines (standing_of tables.entry.width.bits tables.entry.weights.now tag)) out.old }
{
    let Some(table) = tables.table(tag) else {
        return 0;
    };
    // Kept as a count of the bytes in use: it says where the rest of the lent buffer begins.
    let mut used = 0;
    for rule in table {
        let line = line(tag, rule);
        used += write(&mut out[used..], &line);
    }
    used
}

// Writes a text at the front of the buffer, and tells its length.
fn write(out: &mut [u8], text: &[u8]) -> usize
    requires { length text.now ≤ length out.old }
    ensures value { result ≡ length text.now }
    ensures bytes { out.new ≡ over text.now out.old }
{
    out[..text.len()].copy_from_slice(text);
    text.len()
}

fn line(tag: u32, rule: Rule) -> ArrayVec<u8, 44>
    ensures { result.items ≡ line (under tag rule) }
{
    let mut text = ArrayVec::new();
    push_number(&mut text, tag, b' ');
    push_number(&mut text, rule.start, b' ');
    push_number(&mut text, rule.length, b' ');
    push_number(&mut text, u32::from(rule.server.number()), b'\n');
    text
}

// The way back to the first line, and how many lines there are.
fn trailer(extent: Extent) -> ArrayVec<u8, 27>
    ensures { result.items ≡ trailer extent.bytes extent.count }
{
    let mut text = ArrayVec::new();
    text.try_extend_from_slice(b"back ").unwrap();
    push_number(&mut text, extent.bytes, b' ');
    push_number(&mut text, extent.count, b'\n');
    text
}

// A number in at most ten digits, and the byte that ends it. It is no `write!`, since what that ensures does not say when it succeeds.
fn push_number<const N: usize>(text: &mut ArrayVec<u8, N>, n: u32, end: u8)
    requires { array_vec_len text.old + 11 ≤ N }
    ensures items { text.new.items ≡ text.old.items ++ numbered n end }
    ensures len { array_vec_len text.new ≤ array_vec_len text.old + 11 }
{
    let mut digits = Buffer::new();
    text.try_extend_from_slice(digits.format(n).as_bytes())
        .unwrap();
    text.push(end);
}
