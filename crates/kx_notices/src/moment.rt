//! The date and the time of a moment, in UTC.
ghost use Rattle.std.specs.Prelude.{◌≡◌, ◌<◌, ◌≤◌, ◌^◌, sum};
ghost use Rattle.kx_notices.specs.Dates.{IsDateOf, IsMonthOf, IsYearOf, is_leap, months, year_days};

/// A date.
#[derive(Clone, Copy, Debug)]
pub(crate) struct Date {
    pub(crate) year: u64,
    pub(crate) month: u64,
    pub(crate) day: u64,
}

// A year from 1970 on, and how many days have passed in it.
#[derive(Clone, Copy)]
struct YearDay {
    year: u64,
    days: u64,
}

// A month of a year, and the day of it, both counted from 1.
#[derive(Clone, Copy)]
struct MonthDay {
    month: u64,
    day: u64,
}

fn is_leap(year: u64) -> bool
    ensures { result ≡ is_leap year }
{
    year % 4 == 0 && (year % 100 != 0 || year % 400 == 0)
}

fn year_days(year: u64) -> u64
    ensures { result ≡ year_days year }
{
    if is_leap(year) { 366 } else { 365 }
}

// The lengths of the months of a year.
fn months(leap: bool) -> [u64; 12]
    ensures { result ≡ months leap }
{
    let february = if leap { 29 } else { 28 };
    [31, february, 31, 30, 31, 30, 31, 31, 30, 31, 30, 31]
}

// The year of the day that is `days` days after 1970-01-01, and the days of it that have passed.
fn year_of(days: u64) -> YearDay
    requires { days < 2 ^ 62 }
    ensures { IsYearOf days result.year result.days }
{
    let mut years = 0;
    let mut left = days;
    while left >= year_days(1970 + years) {
        left -= year_days(1970 + years);
        years += 1;
    }
    YearDay {
        year: 1970 + years,
        days: left,
    }
}

// The month of the day that is `days` days after the first of a year, whose months have these
// lengths.
fn month_of(days: u64, lengths: &[u64]) -> MonthDay
    requires { days < sum lengths.now }
    ensures { IsMonthOf days lengths.now result.month result.day }
{
    let mut left = days;
    let mut month = 1;
    for length in lengths {
        if left < *length {
            return MonthDay {
                month,
                day: left + 1,
            };
        }
        left -= *length;
        month += 1;
    }
    unreachable!()
}

/// The date that is `days` days after 1970-01-01.
pub(crate) fn date_of(days: u64) -> Date
    requires { days < 2 ^ 62 }
    ensures date { IsDateOf days result }
    ensures month { result.month ≤ 12 }
    ensures day { result.day ≤ 31 }
{
    let year = year_of(days);
    let lengths = months(is_leap(year.year));
    let month = month_of(year.days, &lengths);
    Date {
        year: year.year,
        month: month.month,
        day: month.day,
    }
}
