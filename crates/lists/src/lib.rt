// Listing the answers of all places, one byte each, by the parts of a recovery: no copy of the whole is needed.
#![tactic(auto)]

ghost use Rattle.std.specs.Prelude.{◌≡◌, cond, ◌*◌, ◌^◌, ◌/◌, ◌%◌, ◌≤◌, ◌<◌, length};
ghost use Rattle.sets.specs.PlaceSets.{bit, has};
ghost use Rattle.answers.specs.Views.{size, accepted_in};
ghost use Rattle.answers.specs.Lists.{laid, listed_in, byte_by, joined};

use refusals::Refusal;
use rows::Rows;
use sets::PlaceSet;

// Eight digits of a number below 256, each as a byte of its own, the lowest first.
fn spread(digits: u64) -> u64
    requires { digits < 256 }
    ensures { result ≡ joined 8 (λ j. cond (bit digits j) 1 0) }
{
    let copies = digits * 0x0101_0101_0101_0101;
    let marks = copies & 0x8040_2010_0804_0201;
    ((marks + 0x7f7f_7f7f_7f7f_7f7f) >> 7) & 0x0101_0101_0101_0101
}

// Lays a word's 8 bytes into the front of a buffer, lowest first.
fn put_eight(out: &mut [u8], bytes: u64)
    requires { 8 ≤ length out.old }
    ensures { out.new ≡ laid 8 (λ j. bytes / 2 ^ (8 * j) % 256) out.old }
{
    out[..8].copy_from_slice(&bytes.to_le_bytes());
}

// Lays the bytes of n places of one word one by one, by the digits of two words. The number stays beside the buffer here and below:
// must-fail/lay_few_one_more lays one byte too many by it.
fn lay_few(out: &mut [u8], n: usize, last: u64, open: u64)
    requires { n ≤ length out.old }
    ensures { out.new ≡ laid n (byte_by (bit last) (bit «open»)) out.old }
{
    let mut l = last;
    let mut o = open;
    for i in 0..n {
        out[i] = (l % 2 + 2 * (o % 2)) as u8;
        l >>= 1;
        o >>= 1;
    }
}

// Lays the bytes of n places of one word, by the digits of two words: eight at a time, then those that are left.
fn lay_word(out: &mut [u8], n: usize, last: u64, open: u64)
    requires { n ≤ length out.old }
    ensures { out.new ≡ laid n (byte_by (bit last) (bit «open»)) out.old }
{
    let mut l = last;
    let mut o = open;
    for k in 0..n / 8 {
        let bytes = spread(l % 256) + 2 * spread(o % 256);
        put_eight(&mut out[8 * k..], bytes);
        l >>= 8;
        o >>= 8;
    }
    let laid = n / 8 * 8;
    lay_few(&mut out[laid..], n % 8, l, o);
}

// Lays the bytes of the first n places, by the last ones and the open ones.
fn lay(out: &mut [u8], n: usize, last: PlaceSet, open: PlaceSet)
    requires { (n ≤ 128) × (n ≤ length out.old) }
    ensures { out.new ≡ laid n (byte_by (has last) (has «open»)) out.old }
{
    if n <= 64 {
        lay_word(out, n, last.low, open.low);
        return;
    }
    lay_word(out, 64, last.low, open.low);
    lay_word(&mut out[64..], n - 64, last.high, open.high);
}

// Lists all places: 13, or one byte laid down for each. What is open is found for all at once.
pub fn list(
    rows: &Rows,
    returned: PlaceSet,
    full: PlaceSet,
    mourned: PlaceSet,
    earlier: PlaceSet,
    count: usize,
    out: &mut [u8],
) -> Result<(), Refusal>
    ensures value { result ≡ (listed_in (size count) (accepted_in count (has returned) (has full) rows.now) (has mourned) (has earlier) out.old).answer }
    ensures out_after { out.new ≡ (listed_in (size count) (accepted_in count (has returned) (has full) rows.now) (has mourned) (has earlier) out.old).buffer }
{
    let n = standings::size(count);
    if out.len() < n {
        return Err(Refusal::TooShort);
    }
    let open = undecided::open_places(rows, returned, full, mourned, earlier, count);
    let unmourned = standings::unmourned(mourned, count);
    let last = places::difference(unmourned, open);
    lay(out, n, last, open);
    Ok(())
}
