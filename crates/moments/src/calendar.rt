//! The calendar: the characters of a moment, by the seconds since 1970 began in UTC.
ghost use Rattle.std.specs.Prelude.{◌≤◌};

/// How many seconds a day has.
const DAY: u64 = 86_400;

/// How many days the months have, where February has 28.
const MONTHS: [u64; 12] = [31, 28, 31, 30, 31, 30, 31, 31, 30, 31, 30, 31];

/// The last year that a moment can show.
const LAST_YEAR: u64 = 9_999;

/// A day of a year, both from 0.
#[derive(Clone, Copy)]
struct YearDay {
    year: u64,
    day: u64,
}

/// A date.
#[derive(Clone, Copy)]
struct Date {
    year: u64,
    month: u64,
    day: u64,
}

/// Whether a year has a 29th of February.
fn is_leap(year: u64) -> bool {
    year % 4 == 0 && (year % 100 != 0 || year % 400 == 0)
}

/// The year of a day, which is counted from the first of 1970. Days behind the last year are in it.
fn year_of(days: u64) -> YearDay {
    let mut day = days;
    for year in 1970..LAST_YEAR {
        let length = if is_leap(year) { 366 } else { 365 };
        if day < length {
            return YearDay { year, day };
        }
        day -= length;
    }
    YearDay {
        year: LAST_YEAR,
        day,
    }
}

/// The date of a day of a year. What is behind its last day is that.
fn date_of(at: YearDay) -> Date {
    let YearDay { year, mut day } = at;
    for (index, length) in MONTHS.iter().enumerate() {
        let length = if index == 1 && is_leap(year) {
            29
        } else {
            *length
        };
        if day < length {
            return Date {
                year,
                month: index as u64 + 1,
                day: day + 1,
            };
        }
        day -= length;
    }
    Date {
        year,
        month: 12,
        day: 31,
    }
}

/// The digit of a number at a unit.
fn digit(number: u64, unit: u64) -> u8
    requires { 1 ≤ unit }
{
    b'0' + (number / unit % 10) as u8
}

/// The characters of the moment so many seconds after 1970 began in UTC.
pub(crate) fn characters_at(seconds: u64) -> [u8; 20] {
    let Date { year, month, day } = date_of(year_of(seconds / DAY));
    let second = seconds % DAY;
    let (hour, minute) = (second / 3_600, second / 60 % 60);
    [
        digit(year, 1_000),
        digit(year, 100),
        digit(year, 10),
        digit(year, 1),
        b'-',
        digit(month, 10),
        digit(month, 1),
        b'-',
        digit(day, 10),
        digit(day, 1),
        b'T',
        digit(hour, 10),
        digit(hour, 1),
        b':',
        digit(minute, 10),
        digit(minute, 1),
        b':',
        digit(second % 60, 10),
        digit(second % 60, 1),
        b'Z',
    ]
}
