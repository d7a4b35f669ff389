// The calendar: the lengths of months, and the days to a date.
ghost use Rattle.std.specs.Prelude.{◌≡◌, ◌≤◌};
ghost use Rattle.rfc3339.specs.Calendar.{is_leap, month_length, days_to};
ghost use Rattle.rfc3339.specs.Helpers.{CivilDate};

// The lengths of the months, January to December: of a common year, and of a leap year. Document 01 names this form.
pub const MONTH_LENGTHS: [[u8; 12]; 2] = [
    [31, 28, 31, 30, 31, 30, 31, 31, 30, 31, 30, 31],
    [31, 29, 31, 30, 31, 30, 31, 31, 30, 31, 30, 31],
];

// Whether a year is a leap year.
#[tactic(auto, unfolding(crate::specs::Calendar::is_leap))]
fn is_leap(year: usize) -> bool
    ensures { result ≡ is_leap year }
{
    (year % 4 == 0) & ((year % 100 != 0) | (year % 400 == 0))
}

// The length of a month.
#[tactic(auto, using(crate::proofs::Days::row_is, crate::proofs::Days::row_le), unfolding(crate::specs::Calendar::month_length))]
pub fn days_in_month(year: usize, month: usize) -> usize
    requires { (1 ≤ month) × (month ≤ 12) }
    ensures days { result ≡ month_length year month }
    ensures at_most { result ≤ 31 }
{
    usize::from(MONTH_LENGTHS[usize::from(is_leap(year))][month - 1])
}

// The days from 0000-01-01 to a date. Years begin in March here, so that the leap day is the last, and 400 years are 146,097 days; they are
// counted from March of the year -400 on, 146,037 days before 0000-01-01.
#[tactic(auto, using(crate::proofs::Days::civil_days_lem))]
pub fn days_from_civil(y: usize, m: usize, d: usize) -> usize
    requires { CivilDate y m d }
    ensures { result ≡ days_to y m d }
{
    let late = 2 < m;
    let year = y + 399 + usize::from(late);
    let month = (m + 9) % 12;
    365 * year + year / 4 - year / 100 + year / 400 + (153 * month + 2) / 5 + d - 146038
}
