// The text of each line that a record writes, at the front of a lent buffer; the bytes behind it stay.
#![tactic(auto)]

ghost use Rattle.std.specs.Prelude.{◌≡◌, ◌++◌, [], ◌∷◌, map, ◌+◌, ◌≤◌, ◌<◌, length, take, T};
ghost use Rattle.meaning.specs.Basics.{all, is_digit, written_over};
ghost use Rattle.meaning.specs.Answers.{number_of_provisioned, count_of};
ghost use Rattle.meaning.specs.Records.{decimal, digit_text, prefix_text, length_text, no_line, accepted_line, number_line, refs_line, listed_line, end_line, line, signed_decimal};
ghost use Rattle.blocks.specs.Endian.{bytes_of};
ghost use Rattle.text.specs.Writes.{Writes, LONGEST, digits_or, listed_of, ListedIn, answer_in, NumberIn, head_text, Printable};

use blocks::{eight, put_eight};
use buffer::copy;
use meaning::refusals::ACCEPTED;
use meaning::{Answered, ListedRule, Refusal};

// The most bytes of a line.
pub const LONGEST_LINE: usize = 41;

// Where the outgoing digits of a number line stand: behind its head.
const DIGITS_AT: usize = 8;

// Where the grand loss stands: behind `total` and its space.
const TOTAL_AT: usize = 6;

const SPACE: u8 = b' ';

const NEWLINE: u8 = b'\n';

const WILDCARD: u8 = b'*';

const NO_DIGITS: u8 = b'-';

// NUMBERS

// A number in decimal: its last digit behind the others.
fn write_decimal(n: usize, out: &mut [u8]) -> usize
    requires { length (decimal n) ≤ length out.old }
    ensures { Writes (decimal n) out.old out.new result }
{
    if n < 10 {
        out[0] = b'0' + n as u8;
        return 1;
    }
    let end = write_decimal(n / 10, out);
    out[end] = b'0' + (n % 10) as u8;
    end + 1
}

// A number, and the space or the newline behind it.
fn write_number(n: usize, behind: u8, out: &mut [u8]) -> usize
    requires { length (decimal n) < length out.old }
    ensures { Writes (decimal n ++ behind ∷ []) out.old out.new result }
{
    let end = write_decimal(n, out);
    out[end] = behind;
    end + 1
}

// A line of a word, with its space, and a number.
fn write_counted(word: &[u8], n: usize, out: &mut [u8]) -> usize
    requires { (n < 65536) × (length word.now + 6 ≤ length out.old) }
    ensures { Writes (word.now ++ (decimal n ++ 10 ∷ [])) out.old out.new result }
{
    let at = word.len();
    copy(out, word);
    at + write_number(n, NEWLINE, &mut out[at..])
}

// DIGITS

#[tactic(auto, unfolding(meaning::specs::Records::digit_text))]
fn digit_text(d: u8) -> u8
    requires { d < 16 }
    ensures { result ≡ digit_text d }
{
    if d < 10 { b'0' + d } else { b'a' + (d - 10) }
}

// Eight digits, a byte each, as their text: a digit above 9 is a letter. No sum carries from one byte to the next.
fn text_of_eight(x: u64) -> u64
    requires { T (all is_digit (bytes_of 8 x)) }
    ensures { bytes_of 8 result ≡ map digit_text (bytes_of 8 x) }
{
    let letters = (x + 0x0606060606060606) / 16 & 0x0101010101010101;
    x + 0x3030303030303030 + letters * 39
}

// The eight digits at the front of one part as text at the front of another; the bytes behind stay.
fn write_eight(digits: &[u8], out: &mut [u8])
    requires { (8 ≤ length digits.now) × (8 ≤ length out.old) × T (all is_digit (take 8 digits.now)) }
    ensures { out.new ≡ written_over (map digit_text (take 8 digits.now)) out.old }
{
    put_eight(out, text_of_eight(eight(digits)));
}

// The digits, one by one, as text at the front of the buffer; the bytes behind stay.
fn few_to_text(digits: &[u8], out: &mut [u8])
    requires { T (all is_digit digits.now) × (length digits.now ≤ length out.old) }
    ensures { out.new ≡ written_over (map digit_text digits.now) out.old }
{
    for (i, d) in digits.iter().enumerate() {
        out[i] = digit_text(*d);
    }
}

// The same, eight at a time. The last eight may overlap what is written already, with the same text.
fn digits_to_text(digits: &[u8], out: &mut [u8])
    requires { T (all is_digit digits.now) × (length digits.now ≤ length out.old) }
    ensures { out.new ≡ written_over (map digit_text digits.now) out.old }
{
    if digits.len() < 8 {
        few_to_text(digits, out);
        return;
    }
    let last = digits.len() - 8;
    for i in (0..last).step_by(8) {
        write_eight(&digits[i..], &mut out[i..]);
    }
    write_eight(&digits[last..], &mut out[last..]);
}

// The digits, or a byte for none of them, and the byte behind.
fn write_digits(digits: &[u8], none: u8, behind: u8, out: &mut [u8]) -> usize
    requires { T (all is_digit digits.now) × (length digits.now < length out.old) × (2 ≤ length out.old) }
    ensures { Writes (digits_or none digits.now ++ behind ∷ []) out.old out.new result }
{
    let n = digits.len();
    if n == 0 {
        out[0] = none;
        out[1] = behind;
        return 2;
    }
    digits_to_text(digits, out);
    out[n] = behind;
    n + 1
}

// REFUSALS AND COUNTS

// A refusal.
#[tactic(auto, unfolding(meaning::specs::Records::no_line))]
pub fn no_line(refusal: u8, out: &mut [u8]) -> usize
    requires { LONGEST ≤ length out.old }
    ensures { Writes (no_line refusal) out.old out.new result }
{
    write_counted(b"no ", usize::from(refusal), out)
}

// What opening and provisioning answer.
pub fn accepted_line(answer: Result<(), Refusal>, out: &mut [u8]) -> usize
    requires { LONGEST ≤ length out.old }
    ensures { Writes (accepted_line (number_of_provisioned answer)) out.old out.new result }
{
    match answer {
        Ok(()) => {
            copy(out, b"ok\n");
            3
        }
        Err(refusal) => no_line(u8::from(refusal), out),
    }
}

// How many rules name a set.
pub fn refs_line(answer: Result<usize, Refusal>, out: &mut [u8]) -> usize
    requires { ((count_of answer).number < 65536) × (LONGEST ≤ length out.old) }
    ensures { Writes (refs_line (count_of answer)) out.old out.new result }
{
    match answer {
        Ok(n) => write_counted(b"refs ", n, out),
        Err(refusal) => no_line(u8::from(refusal), out),
    }
}

// How many rules a listing has.
#[tactic(auto, unfolding(meaning::specs::Records::end_line))]
pub fn end_line(count: usize, out: &mut [u8]) -> usize
    requires { (count < 65536) × (LONGEST ≤ length out.old) }
    ensures { Writes (end_line count) out.old out.new result }
{
    write_counted(b"end ", count, out)
}

// LISTED RULES

// A prefix or a wildcard, and the space behind it.
fn write_prefix(prefix: &[u8], out: &mut [u8]) -> usize
    requires { T (all is_digit prefix.now) × (length prefix.now + 2 ≤ length out.old) }
    ensures { Writes (prefix_text prefix.now ++ 32 ∷ []) out.old out.new result }
{
    write_digits(prefix, WILDCARD, SPACE, out)
}

// A length or a wildcard, and the space behind it.
fn write_length(len: u8, out: &mut [u8]) -> usize
    requires { 6 ≤ length out.old }
    ensures { Writes (length_text len ++ 32 ∷ []) out.old out.new result }
{
    if len == 0 {
        out[0] = WILDCARD;
        out[1] = SPACE;
        return 2;
    }
    write_number(usize::from(len), SPACE, out)
}

// The first half of a listed rule.
fn write_class_and_prefix(class: u8, prefix: &[u8], out: &mut [u8]) -> usize
    requires { T (all is_digit prefix.now) × (length prefix.now + 8 ≤ length out.old) }
    ensures { Writes ((decimal class ++ 32 ∷ []) ++ (prefix_text prefix.now ++ 32 ∷ [])) out.old out.new result }
{
    let at = write_number(usize::from(class), SPACE, out);
    at + write_prefix(prefix, &mut out[at..])
}

// The second half, with the newline.
fn write_length_and_set(len: u8, set: usize, out: &mut [u8]) -> usize
    requires { (set < 65536) × (12 ≤ length out.old) }
    ensures { Writes ((length_text len ++ 32 ∷ []) ++ (decimal set ++ 10 ∷ [])) out.old out.new result }
{
    let at = write_length(len, out);
    at + write_number(set, NEWLINE, &mut out[at..])
}

// A rule of the listing.
pub fn listed_line(rule: ListedRule, out: &mut [u8]) -> usize
    requires { ListedIn rule × (LONGEST ≤ length out.old) }
    ensures { Writes (listed_line (listed_of rule)) out.old out.new result }
{
    let digits = usize::from(rule.digits);
    let set = usize::from(rule.set.0);
    let at = write_class_and_prefix(rule.class, &rule.prefix[..digits], out);
    at + write_length_and_set(rule.length, set, &mut out[at..])
}

// NUMBER LINES

// Four numbers of one digit, each with the space behind it.
#[tactic(auto, unfolding(crate::specs::Writes::head_text))]
fn write_head(outcome: u8, class: u8, response: u8, count: u8, out: &mut [u8])
    requires { (outcome < 10) × (class < 10) × (response < 10) × (count < 10) × (8 ≤ length out.old) }
    ensures { Writes (head_text outcome class response count) out.old out.new 8 }
{
    out[0] = b'0' + outcome;
    out[1] = SPACE;
    out[2] = b'0' + class;
    out[3] = SPACE;
    out[4] = b'0' + response;
    out[5] = SPACE;
    out[6] = b'0' + count;
    out[7] = SPACE;
}

// The answer to a number, with its outgoing digits.
pub fn number_line(answer: Answered, digits: &[u8], out: &mut [u8]) -> usize
    requires { NumberIn answer digits.now × (LONGEST ≤ length out.old) }
    ensures { Writes (number_line (answer_in answer digits.now)) out.old out.new result }
{
    if answer.refusal != ACCEPTED {
        return no_line(answer.refusal, out);
    }
    write_head(
        answer.outcome,
        answer.class,
        answer.response,
        answer.count,
        out,
    );
    DIGITS_AT + write_digits(digits, NO_DIGITS, NEWLINE, &mut out[DIGITS_AT..])
}

// LOSSES

// A number with its sign, which only one below zero has, and the byte behind it.
fn write_signed(x: i64, behind: u8, out: &mut [u8]) -> usize
    requires { Printable x × (16 ≤ length out.old) }
    ensures { Writes (signed_decimal x ++ behind ∷ []) out.old out.new result }
{
    let n = x.unsigned_abs() as usize;
    if x < 0 {
        copy(out, b"-");
        return 1 + write_number(n, behind, &mut out[1..]);
    }
    write_number(n, behind, out)
}

// A district and its loss in whole cents.
pub fn loss_line(district: usize, cents: i64, out: &mut [u8]) -> usize
    requires { (district < 65536) × Printable cents × (LONGEST ≤ length out.old) }
    ensures { Writes (line (decimal district ∷ signed_decimal cents ∷ [])) out.old out.new result }
{
    let at = write_number(district, SPACE, out);
    at + write_signed(cents, NEWLINE, &mut out[at..])
}

// The grand loss in whole cents.
pub fn total_line(cents: i64, out: &mut [u8]) -> usize
    requires { Printable cents × (LONGEST ≤ length out.old) }
    ensures { Writes (line ((116 ∷ 111 ∷ 116 ∷ 97 ∷ 108 ∷ []) ∷ signed_decimal cents ∷ [])) out.old out.new result }
{
    copy(out, b"total ");
    TOTAL_AT + write_signed(cents, NEWLINE, &mut out[TOTAL_AT..])
}
