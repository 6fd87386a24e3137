// The calendar (document 02, (viii)): the days of 2000 to 2099 by the Gregorian calendar, numbered from 1 January 2000, which is day 0, to 36,524; from a date to its number, and back.
// Its other functions make the tests of a day and of a first and a last day, for whoever takes such numbers in. A refusal is 16, with zeros.
// It depends on `matching` alone: on the refusals, the answer with one number, its tables of refusals and its case analysis.
#![tactic(auto)]

mod dates;

ghost use Rattle.std.specs.Prelude.{◌≡◌, ◌-◌, ◌≤◌, ◌<◌};
ghost use Rattle.matching.specs.Results.{refused_by, answer};
ghost use Rattle.calendar.specs.Calendar.{is_leap, year_length, month_length, ymd, in_calendar, years_days, months_days, day_refusal, days_refusal, day_answer, date_answer, calendar_date};
ghost use Rattle.calendar.specs.Found.{YearAt, MonthAt};

pub use dates::Date;
use matching::Refusal;

// The number of 31 December 2099.
const LAST_DAY: u32 = 36524;

// The date of a day as C receives it: a refusal number (0 for none), and the year, the month and the day of the month.
#[repr(C)]
#[derive(Clone, Copy)]
pub struct CalendarDate {
    pub refusal: u32,
    pub year: u32,
    pub month: u32,
    pub day: u32,
}

impl From<Result<Date, Refusal>> for CalendarDate {
    ghost from_gives = { λ found r. r ≡ calendar_date found };

    fn from(found: Result<Date, Refusal>) -> CalendarDate {
        match found {
            Ok(date) => CalendarDate {
                refusal: 0,
                year: date.year,
                month: date.month,
                day: date.day,
            },
            Err(refusal) => CalendarDate {
                refusal: refusal.into(),
                year: 0,
                month: 0,
                day: 0,
            },
        }
    }
}

// A year or a month that a day lies in, and how many of its days are over.
#[derive(Clone, Copy)]
struct Within {
    number: u32,
    days: u32,
}

// Whether a year is a leap year.
#[tactic(auto, unfolding(crate::specs::Calendar::is_leap))]
fn is_leap(year: u32) -> bool
    ensures { result ≡ is_leap year }
{
    year % 4 == 0 && (year % 100 != 0 || year % 400 == 0)
}

// The days of a year.
#[tactic(auto, unfolding(crate::specs::Calendar::year_length))]
fn year_length(year: u32) -> u32
    ensures { result ≡ year_length year }
{
    if is_leap(year) { 366 } else { 365 }
}

// The days of a month in a year.
#[tactic(auto, unfolding(crate::specs::Calendar::month_length))]
fn month_length(year: u32, month: u32) -> u32
    ensures { result ≡ month_length year month }
{
    match month {
        2 if is_leap(year) => 29,
        2 => 28,
        4 | 6 | 9 | 11 => 30,
        _ => 31,
    }
}

// Whether there is such a date in the years 2000 to 2099.
#[tactic(auto, unfolding(crate::specs::Calendar::in_calendar))]
fn in_calendar(year: u32, month: u32, day: u32) -> bool
    ensures { result ≡ in_calendar (ymd year month day) }
{
    2000 <= year
        && year <= 2099
        && 1 <= month
        && month <= 12
        && 1 <= day
        && day <= month_length(year, month)
}

// The days of the years from 2000 before a year. The limit keeps the sum in its width.
// Years and months have a function each, here and in `year_at` and `month_at`: one with the length as a closure would need a contract over any lengths, and laws from it to both sums.
fn days_before_year(year: u32) -> u32
    requires { year ≤ 2099 }
    ensures { result ≡ years_days (year - 2000) }
{
    let mut days = 0;
    for y in 2000..year {
        days += year_length(y);
    }
    days
}

// The days of a year before a month of it.
fn days_before_month(year: u32, month: u32) -> u32
    requires { month ≤ 12 }
    ensures { result ≡ months_days year (month - 1) }
{
    let mut days = 0;
    for m in 1..month {
        days += month_length(year, m);
    }
    days
}

// The day of a date: its number; or 16, where there is no such date in the calendar.
#[tactic(auto, unfolding(crate::specs::Calendar::day_answer))]
pub fn day(year: u32, month: u32, day: u32) -> Result<u32, Refusal>
    ensures { answer result ≡ day_answer year month day }
{
    if !in_calendar(year, month, day) {
        return Err(Refusal::BadDate);
    }
    Ok(days_before_year(year) + days_before_month(year, month) + (day - 1))
}

// The year of a day, with the days of it that are over: the days of year after year are taken off.
fn year_at(day: u32) -> Within
    requires { day ≤ LAST_DAY }
    ensures { YearAt day result }
{
    let mut days = day;
    for year in 2000..2099 {
        let length = year_length(year);
        if days < length {
            return Within { number: year, days };
        }
        days -= length;
    }
    Within { number: 2099, days }
}

// The month of a day of a year, with the days of it that are over: the days of month after month are taken off.
fn month_at(year: u32, day: u32) -> Within
    requires { day < year_length year }
    ensures { MonthAt year day result }
{
    let mut days = day;
    for month in 1..12 {
        let length = month_length(year, month);
        if days < length {
            return Within {
                number: month,
                days,
            };
        }
        days -= length;
    }
    Within { number: 12, days }
}

// The date of a day; or 16, where the day is above the last.
#[tactic(auto, using(crate::proofs::Inverse::date_refused))]
pub fn date(day: u32) -> Result<Date, Refusal>
    ensures { calendar_date result ≡ date_answer day }
{
    day_refused(day)?;
    let year = year_at(day);
    let month = month_at(year.number, year.days);
    Ok(Date {
        year: year.number,
        month: month.number,
        day: month.days + 1,
    })
}

// The test of a day: it is in the calendar.
#[tactic(auto, unfolding(crate::specs::Calendar::day_refusal, matching::specs::Refusals::first_met))]
pub fn day_refused(day: u32) -> Result<(), Refusal>
    ensures { refused_by result ≡ day_refusal day }
{
    if LAST_DAY < day {
        return Err(Refusal::BadDate);
    }
    Ok(())
}

// The tests of a first and a last day: both are in the calendar, and the last is not before the first.
#[tactic(auto, unfolding(crate::specs::Calendar::day_refusal, crate::specs::Calendar::days_refusal, matching::specs::Refusals::first_met))]
pub fn days_refused(first: u32, last: u32) -> Result<(), Refusal>
    ensures { refused_by result ≡ days_refusal first last }
{
    day_refused(first)?;
    day_refused(last)?;
    if last < first {
        return Err(Refusal::BadDate);
    }
    Ok(())
}
