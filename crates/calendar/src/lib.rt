// "Time is YYYYMMDDHHMMSS, date YYYYMMDD, years 1900–2099, Gregorian, 00–23, 00–59, 00–59."
#![tactic(auto, using(crate::proofs::Laws::day_is), unfolding(rules::specs::Value::leap, rules::specs::Value::days_in, rules::specs::Value::two, rules::specs::Value::clock_ok, rules::specs::Value::holds))]

ghost use Rattle.std.specs.Prelude.{◌≡◌, ◌+◌, ◌-◌, ◌<◌, ◌≤◌, length};
ghost use Rattle.rules.specs.Value as Val;

fn is_leap(year: u32) -> bool
    ensures { result ≡ Val.leap year }
{
    (year % 4 == 0) & ((year % 100 != 0) | (year % 400 == 0))
}

// How long a month is, in a leap year or another.
fn days_in(leap: bool, month: u32) -> u32
    ensures { result ≡ Val.days_in leap month }
{
    match month {
        2 => if leap { 29 } else { 28 },
        4 | 6 | 9 | 11 => 30,
        _ => 31,
    }
}

// The number of a digit; 0 below the digits.
fn digit_value(b: u8) -> u32
    ensures { (result ≡ b - 48) × (result < 256) }
{
    u32::from(b.saturating_sub(48))
}

// The number of the two digits at k.
fn two_digits(v: &[u8], k: usize) -> u32
    requires { k + 1 < length v.now }
    ensures { (result ≡ Val.two v.now k) × (result < 3000) }
{
    10 * digit_value(v[k]) + digit_value(v[k + 1])
}

// The day that YYYYMMDD names is in the calendar.
fn is_day(v: &[u8]) -> bool
    requires { 8 ≤ length v.now }
    ensures { result ≡ Val.day_ok v.now }
{
    let year = 100 * two_digits(v, 0) + two_digits(v, 2);
    let month = two_digits(v, 4);
    let day = two_digits(v, 6);
    let last = days_in(is_leap(year), month);
    ((1900 <= year) & (year <= 2099))
        & ((1 <= month) & (month <= 12))
        & ((1 <= day) & (day <= last))
}

// The HHMMSS that follow name a time of day.
fn is_clock(v: &[u8]) -> bool
    requires { 14 ≤ length v.now }
    ensures { result ≡ Val.clock_ok v.now }
{
    (two_digits(v, 8) <= 23) & (two_digits(v, 10) <= 59) & (two_digits(v, 12) <= 59)
}

pub fn is_date(v: &[u8]) -> bool
    ensures { result ≡ Val.holds Val.date v.now }
{
    plain_bytes::digits(v, 8) && is_day(v)
}

pub fn is_time(v: &[u8]) -> bool
    ensures { result ≡ Val.holds Val.time v.now }
{
    plain_bytes::digits(v, 14) && is_day(v) && is_clock(v)
}
