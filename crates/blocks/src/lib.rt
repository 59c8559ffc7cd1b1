// Blocks of eight bytes, each read and written as one number: when compiled, one load or one store.
#![tactic(auto)]

ghost use Rattle.std.specs.Prelude.{◌≡◌, ◌≤◌, length, take};
ghost use Rattle.meaning.specs.Basics.{written_over, digits_in_range};
ghost use Rattle.blocks.specs.Endian.{little_endian, bytes_of};
ghost use Rattle.blocks.specs.Places.{places_pass, disjoint, masks, mask_table};

// The eight bytes at the front as one number, the first of them its lowest byte.
pub fn eight(s: &[u8]) -> u64
    requires { 8 ≤ length s.now }
    ensures { result ≡ little_endian (take 8 s.now) }
{
    u64::from_le_bytes([s[0], s[1], s[2], s[3], s[4], s[5], s[6], s[7]])
}

// The bytes of a number over the eight at the front, its lowest byte first; the bytes behind them stay.
pub fn put_eight(s: &mut [u8], x: u64)
    requires { 8 ≤ length s.old }
    ensures { s.new ≡ written_over (bytes_of 8 x) s.old }
{
    s[..8].copy_from_slice(&x.to_le_bytes());
}

// The first sixteen bytes of one part over those of another.
pub fn copy_sixteen(to: &mut [u8], from: &[u8])
    requires { (16 ≤ length to.old) × (16 ≤ length from.now) }
    ensures { to.new ≡ written_over (take 16 from.now) to.old }
{
    let low = eight(from);
    let high = eight(&from[8..]);
    put_eight(to, low);
    put_eight(&mut to[8..], high);
}

// The bits that 32 digits may not have, and then those that 32 unused places may not have. A string of up to 32 places has
// its masks in the table in one piece, whatever its number of digits.
static MASKS: [[u8; 32]; 2] = [[0xf0; 32], [0xff; 32]];

fn masks() -> &'static [u8]
    ensures table { result.now ≡ mask_table }
    ensures len { length result.now ≡ 64 }
{
    MASKS.as_flattened()
}

// Whether none of the eight bytes at the front has a bit of its mask.
fn eight_pass(s: &[u8], masks: &[u8]) -> bool
    requires { (8 ≤ length s.now) × (8 ≤ length masks.now) }
    ensures { result ≡ disjoint (take 8 s.now) (take 8 masks.now) }
{
    eight(s) & eight(masks) == 0
}

// Whether the places are digits before place n and 0 from there on, a byte at a time.
fn few_pass(s: &[u8], n: usize) -> bool
    ensures { result ≡ places_pass n s.now }
{
    let digits = n.min(s.len());
    buffer::all_digits(&s[..digits]) && buffer::all_zero(&s[digits..])
}

// Whether the places of a digit string are digits before place n and 0 from there on. Their masks are the window of the
// table from 32 - n on, and a string that no window fits is tested a byte at a time. The last block ends where the places
// end, and so may begin with places that have passed.
fn places_pass(s: &[u8], n: usize) -> bool
    ensures { result ≡ places_pass n s.now }
{
    if s.len() < 8 || 32 < s.len() || 32 < n {
        return few_pass(s, n);
    }
    let window = &masks()[32 - n..];
    let last = s.len() - 8;
    for k in 0..last.div_ceil(8) {
        if !eight_pass(&s[8 * k..], &window[8 * k..]) {
            return false;
        }
    }
    eight_pass(&s[last..], &window[last..])
}

// Whether a digit string, its length byte and then its full width, has lo to hi digits and nothing behind them.
pub fn digits_in_range(s: &[u8], lo: usize, hi: usize) -> bool
    ensures { result ≡ digits_in_range lo hi s.now }
{
    let Some((&first, places)) = s.split_first() else {
        return false;
    };
    let n = usize::from(first);
    if n < lo || hi < n {
        return false;
    }
    places_pass(places, n)
}
