// Decimal numbers and ended lines, read from slices and written into them.
#![tactic(auto)]

ghost use Rattle.std.specs.Prelude.{◌≡◌, ◌+◌, ◌≤◌, ◌<◌, ◌==◌, length, position};
ghost use Rattle.text.specs.Decimal.{decimal, number, digits_after, leads_well, some_number};
ghost use Rattle.text.specs.Line.{up_to, keyed_size, number_line, some_size, some_line};
ghost use Rattle.text.specs.Put.{Room, Writes};

use lent::copy;

// The number of a line `key=number`, and how many bytes the line has with its end.
#[derive(Clone, Copy, Debug, PartialEq, Eq)]
pub struct KeyedNumber {
    pub value: u32,
    pub size: usize,
}

// ---- writing

// How many digits n has.
#[tactic(auto, using(crate::proofs::DecimalLaws::decimal_count, crate::proofs::DecimalLaws::decimal_one))]
pub fn decimal_length(n: u32) -> usize
    ensures { result ≡ length (decimal n) }
{
    match n.checked_ilog10() {
        Some(k) => k as usize + 1,
        None => 1,
    }
}

// A buffer that is written, and the place in it behind what was written.
#[derive(Drop)]
pub struct Writer<'a> {
    out: &'a mut [u8],
    at: usize,
}

impl<'a> Writer<'a> {
    pub fn new(out: &'a mut [u8]) -> Writer<'a>
        ensures same_buffer { result.out.ghost_name ≡ out.entry.ghost_name }
        ensures same_bytes { result.out.now ≡ out.old }
        ensures start { result.at ≡ 0 }
    {
        Writer { out, at: 0 }
    }

    // The same from a place on.
    pub fn from(out: &'a mut [u8], at: usize) -> Writer<'a>
        ensures same_buffer { result.out.ghost_name ≡ out.entry.ghost_name }
        ensures same_bytes { result.out.now ≡ out.old }
        ensures start { result.at ≡ at }
    {
        Writer { out, at }
    }

    // How many bytes were written.
    pub fn size(&self) -> usize
        ensures { result ≡ self.now.at }
    {
        self.at
    }

    pub fn bytes(&mut self, s: &[u8])
        requires { Room self.old s.now }
        ensures { Writes self.old s.now self.new }
    {
        let Writer { out, at } = self;
        let end = *at + s.len();
        copy(s, &mut out[*at..end]);
        *at = end;
    }

    // The digits of n.
    pub fn decimal(&mut self, n: u32)
        requires { Room self.old (decimal n) }
        ensures { Writes self.old (decimal n) self.new }
    {
        let Writer { out, at } = self;
        let many = decimal_length(n);
        digits(&mut out[*at..*at + many], n);
        *at += many;
    }
}

// The digits of n into as many bytes, the last digit first.
fn digits(part: &mut [u8], n: u32)
    requires { length part.old ≡ length (decimal n) }
    ensures { part.new ≡ decimal n }
{
    let mut m = n;
    for i in (0..part.len()).rev() {
        part[i] = b'0' + (m % 10) as u8;
        m /= 10;
    }
}

// ---- reading numbers

// The number whose text is the whole of s: 1 to 7 digits, no leading zero except 0 itself.
#[tactic(auto, using(crate::proofs::NumberLaws::number_tested))]
pub fn number_of(s: &[u8]) -> Option<u32>
    ensures { result ≡ some_number (number s.now) }
{
    match s.len() {
        1..=7 if leads_well(s) => digits_of(s),
        _ => None,
    }
}

// No leading zero, or 0 itself.
fn leads_well(s: &[u8]) -> bool
    requires { 0 < length s.now }
    ensures { result ≡ leads_well s.now }
{
    s.len() <= 1 || s[0] != b'0'
}

// Seven bytes and less: their number, None where one of them is no digit.
#[tactic(auto, using(crate::proofs::Reading::reading))]
fn digits_of(s: &[u8]) -> Option<u32>
    requires { length s.now ≤ 7 }
    ensures { result ≡ some_number (digits_after 0 s.now) }
{
    let mut n = 0;
    for &b in s {
        if !b.is_ascii_digit() {
            return None;
        }
        n = n * 10 + u32::from(b - b'0');
    }
    Some(n)
}

// ---- reading lines

// How many bytes stand before the first b.
pub fn up_to(s: &[u8], b: u8) -> usize
    ensures { result ≡ up_to b s.now }
{
    first(s, b).unwrap_or(s.len())
}

// Where the first b stands.
fn first(s: &[u8], b: u8) -> Option<usize>
    ensures { result ≡ position (λ x. x == b) s.now }
{
    s.iter().position(|&x| x == b)
}

// The size of the first line with its end; None where it is not ended or does not begin with the key.
pub fn keyed_size(s: &[u8], key: &[u8]) -> Option<usize>
    ensures { result ≡ some_size (keyed_size key.now s.now) }
{
    let n = first(s, b'\n')?;
    if s[..n].starts_with(key) {
        Some(n + 1)
    } else {
        None
    }
}

// The first line as a key and a number.
#[tactic(auto, using(crate::proofs::NumberLineLaws::lines))]
pub fn number_line(s: &[u8], key: &[u8]) -> Option<KeyedNumber>
    ensures { result ≡ some_line (number_line key.now s.now) }
{
    let size = keyed_size(s, key)?;
    let value = number_of(&s[key.len()..size - 1])?;
    Some(KeyedNumber { value, size })
}
