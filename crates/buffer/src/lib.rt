// Leaves on parts of byte slices. A caller lends the part, so that no function here knows an offset.
#![tactic(auto)]

ghost use Rattle.std.specs.Prelude.{◌≡◌, ◌++◌, [], ◌∷◌, ◌+◌, ◌*◌, ◌-◌, ◌<◌, ◌≤◌, length, take, drop};
ghost use Rattle.meaning.specs.Basics.{written_over, all, is_zero, is_digit, same_bytes};
ghost use Rattle.buffer.specs.Bytes.{Byte, Word, Quad, with_word};
ghost use Rattle.buffer.specs.Zeros.{zeros};
ghost use Rattle.buffer.specs.Slots.{slots, with_slots, insert_at, remove_at};

// A byte as a number to compute with.
pub fn wide(x: u8) -> usize
    ensures { Byte x result }
{
    usize::from(x)
}

// The bytes of `from` over the front of `to`; the bytes behind them stay.
pub fn copy(to: &mut [u8], from: &[u8])
    requires { length from.now ≤ length to.old }
    ensures { to.new ≡ written_over from.now to.old }
{
    to[..from.len()].copy_from_slice(from);
}

// All bytes 0.
pub fn clear(s: &mut [u8])
    ensures { s.new ≡ zeros (length s.old) }
{
    s.fill(0);
}

// The bytes of s, w places further up; the first w stay.
pub fn shift_up(s: &mut [u8], w: usize)
    requires { w ≤ length s.old }
    ensures { s.new ≡ take w s.old ++ take (length s.old - w) s.old }
{
    let n = s.len() - w;
    s.copy_within(..n, w);
}

// The bytes of s, w places further down; the last w stay.
pub fn shift_down(s: &mut [u8], w: usize)
    requires { w ≤ length s.old }
    ensures { s.new ≡ drop w s.old ++ drop (length s.old - w) s.old }
{
    s.copy_within(w.., 0);
}

// Puts x before the bytes of s, of which the last ones fall out.
pub fn push_front(s: &mut [u8], x: &[u8])
    requires { length x.now ≤ length s.old }
    ensures { s.new ≡ x.now ++ take (length s.old - length x.now) s.old }
{
    shift_up(s, x.len());
    copy(s, x);
}

// Takes the first w bytes of s out, and makes the last w bytes 0.
pub fn pop_front(s: &mut [u8], w: usize)
    requires { w ≤ length s.old }
    ensures { s.new ≡ drop w s.old ++ zeros w }
{
    shift_down(s, w);
    let kept = s.len() - w;
    clear(&mut s[kept..]);
}

// The two-byte number at `at`, high byte first.
pub fn word(b: &[u8], at: usize) -> usize
    requires { at + 1 < length b.now }
    ensures { Word b.now at result }
{
    usize::from(u16::from_be_bytes([b[at], b[at + 1]]))
}

// The four-byte number at `at`, high byte first.
pub fn quad(b: &[u8], at: usize) -> usize
    requires { at + 3 < length b.now }
    ensures { Quad b.now at result }
{
    u32::from_be_bytes([b[at], b[at + 1], b[at + 2], b[at + 3]]) as usize
}

// Stores v at `at` in two bytes.
pub fn put_word(b: &mut [u8], at: usize, v: usize)
    requires { (at + 1 < length b.old) × (v < 65536) }
    ensures { b.new ≡ with_word b.old at v }
{
    b[at..at + 2].copy_from_slice(&(v as u16).to_be_bytes());
}

// Whether every byte is 0.
pub fn all_zero(s: &[u8]) -> bool
    ensures { result ≡ all is_zero s.now }
{
    s.iter().all(|&b| b == 0)
}

// Whether every byte is a digit.
pub fn all_digits(s: &[u8]) -> bool
    ensures { result ≡ all is_digit s.now }
{
    s.iter().all(|&b| b <= 15)
}

// Whether two slices have the same bytes.
pub fn same_bytes(a: &[u8], b: &[u8]) -> bool
    ensures { result ≡ same_bytes a.now b.now }
{
    a == b
}

// Puts x into the first `count` slots of w bytes, before slot `place`.
pub fn insert_slot(area: &mut [u8], w: usize, count: usize, place: usize, x: &[u8])
    requires { (place ≤ count) × (w * (count + 1) ≤ length area.old) × (length x.now ≡ w) }
    ensures { area.new ≡ with_slots w (count + 1) (insert_at place x.now (slots w count area.old)) area.old }
{
    let a = w * place;
    let e = w * count + w;
    push_front(&mut area[a..e], x);
}

// Takes slot `place` out of the first `count` slots of w bytes; the slot that this frees is 0.
pub fn remove_slot(area: &mut [u8], w: usize, count: usize, place: usize)
    requires { (place < count) × (w * count ≤ length area.old) }
    ensures { area.new ≡ with_slots w count (remove_at place (slots w count area.old) ++ zeros w ∷ []) area.old }
{
    let a = w * place;
    let e = w * count;
    pop_front(&mut area[a..e], w);
}
