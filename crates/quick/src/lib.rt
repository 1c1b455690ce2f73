// The number in a field, read four columns at a time where it has the length that is usual in a row.
#![tactic(auto)]

ghost use Rattle.std.specs.Prelude.{◌≡◌, ℕ, Some, ◌+◌, ◌≤◌, length};
ghost use Rattle.field.specs.Field.{columns, field_at};
ghost use Rattle.quick.specs.Inner.{first_four, last_four, DigitsOf, BehindSpaces, ShortOf, HighOf};

// Four columns.
#[derive(Clone, Copy)]
struct Four {
    a: u8,
    b: u8,
    c: u8,
    d: u8,
}

// The four columns behind the first of the field at `at`.
fn first_four(s: &[u8], at: usize) -> Four
    requires { at + columns ≤ length s.now }
    ensures { result ≡ first_four s.now at }
{
    Four {
        a: s[at + 1],
        b: s[at + 2],
        c: s[at + 3],
        d: s[at + 4],
    }
}

// Its last four columns.
fn last_four(s: &[u8], at: usize) -> Four
    requires { at + columns ≤ length s.now }
    ensures { result ≡ last_four s.now at }
{
    Four {
        a: s[at + 5],
        b: s[at + 6],
        c: s[at + 7],
        d: s[at + 8],
    }
}

// The digit that a column holds.
fn digit(b: u8) -> u32
    requires { (48 ≤ b) × (b ≤ 57) }
    ensures { (b ≡ 48 + result) × (result ≤ 9) }
{
    u32::from(b - b'0')
}

// The number of four digits, if it is not below `least`. That all four are digits is asked first: a digit that is an Option of its own
// was slower.
fn four_digits(least: u32, a: u8, b: u8, c: u8, d: u8) -> Option<u32>
    ensures { (n : ℕ) → result ≡ Some n → DigitsOf least a b c d n }
{
    if !(a.is_ascii_digit() && b.is_ascii_digit() && c.is_ascii_digit() && d.is_ascii_digit()) {
        return None;
    }
    let n = 1_000 * digit(a) + 100 * digit(b) + 10 * digit(c) + digit(d);
    if least <= n { Some(n) } else { None }
}

// n, if it is not below `least` and both columns before it are spaces.
fn behind_spaces(a: u8, b: u8, least: u32, n: u32) -> Option<u32>
    ensures { (m : ℕ) → result ≡ Some m → BehindSpaces a b least n m }
{
    if a == b' ' && b == b' ' && least <= n {
        Some(n)
    } else {
        None
    }
}

// The number of one to four digits behind spaces, from its last digit on.
fn short_number(f: Four) -> Option<u32>
    ensures { (n : ℕ) → result ≡ Some n → ShortOf f n }
{
    if !f.d.is_ascii_digit() {
        return None;
    }
    let one = digit(f.d);
    if f.c == b' ' {
        return behind_spaces(f.a, f.b, 0, one);
    }
    if !f.c.is_ascii_digit() {
        return None;
    }
    let two = 10 * digit(f.c) + one;
    if f.b == b' ' {
        return behind_spaces(f.a, f.b, 10, two);
    }
    if !f.b.is_ascii_digit() {
        return None;
    }
    let three = 100 * digit(f.b) + two;
    if f.a == b' ' {
        return behind_spaces(f.a, f.a, 100, three);
    }
    if !f.a.is_ascii_digit() {
        return None;
    }
    let four = 1_000 * digit(f.a) + three;
    if 1_000 <= four { Some(four) } else { None }
}

// The number of one or two digits, from 1 on, in two columns.
fn high_number(c: u8, d: u8) -> Option<u32>
    ensures { (n : ℕ) → result ≡ Some n → HighOf c d n }
{
    if c != b' ' {
        return four_digits(10, b'0', b'0', c, d);
    }
    four_digits(1, b'0', b'0', b'0', d)
}

// The number in the field at `at`, quick where it has at most four digits. This function and the next have one caller each, so
// that the compiler puts them in its place: called, they gain little.
pub fn short_field(s: &[u8], at: usize) -> Option<u32>
    requires { at + columns ≤ length s.now }
    ensures { result ≡ field_at s.now at }
{
    let f = first_four(s, at);
    if s[at] == b' ' && f.a == b' ' && f.b == b' ' && f.c == b' ' && f.d == b' ' {
        if let Some(n) = short_number(last_four(s, at)) {
            return Some(n);
        }
    }
    field::read_field(s, at)
}

// The same, quick where the number has at most six digits.
pub fn long_field(s: &[u8], at: usize) -> Option<u32>
    requires { at + columns ≤ length s.now }
    ensures { result ≡ field_at s.now at }
{
    let f = first_four(s, at);
    if s[at] == b' ' && f.a == b' ' && f.b == b' ' {
        let l = last_four(s, at);
        if f.c == b' ' && f.d == b' ' {
            if let Some(n) = short_number(l) {
                return Some(n);
            }
        } else if let Some(high) = high_number(f.c, f.d) {
            if let Some(low) = four_digits(0, l.a, l.b, l.c, l.d) {
                return Some(10_000 * high + low);
            }
        }
    }
    field::read_field(s, at)
}
