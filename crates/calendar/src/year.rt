// Leap years, and the days of years.
ghost use Rattle.std.specs.Prelude.{◌≡◌, if◌then◌else◌, Some, None};
ghost use Rattle.calendar.specs.Years.{days_before_year, in_table, leap_year};

const FIRST_YEAR: u16 = 1900;

pub(crate) const LAST_YEAR: u16 = 2099;

// The days before each year from 1900 to 2099, counted from 1 January 1900.
pub const DAYS_BEFORE_YEAR: [u32; 200] = [
    0, 365, 730, 1095, 1460, 1826, 2191, 2556, 2921, 3287, 3652, 4017, 4382, 4748, 5113, 5478,
    5843, 6209, 6574, 6939, 7304, 7670, 8035, 8400, 8765, 9131, 9496, 9861, 10226, 10592, 10957,
    11322, 11687, 12053, 12418, 12783, 13148, 13514, 13879, 14244, 14609, 14975, 15340, 15705,
    16070, 16436, 16801, 17166, 17531, 17897, 18262, 18627, 18992, 19358, 19723, 20088, 20453,
    20819, 21184, 21549, 21914, 22280, 22645, 23010, 23375, 23741, 24106, 24471, 24836, 25202,
    25567, 25932, 26297, 26663, 27028, 27393, 27758, 28124, 28489, 28854, 29219, 29585, 29950,
    30315, 30680, 31046, 31411, 31776, 32141, 32507, 32872, 33237, 33602, 33968, 34333, 34698,
    35063, 35429, 35794, 36159, 36524, 36890, 37255, 37620, 37985, 38351, 38716, 39081, 39446,
    39812, 40177, 40542, 40907, 41273, 41638, 42003, 42368, 42734, 43099, 43464, 43829, 44195,
    44560, 44925, 45290, 45656, 46021, 46386, 46751, 47117, 47482, 47847, 48212, 48578, 48943,
    49308, 49673, 50039, 50404, 50769, 51134, 51500, 51865, 52230, 52595, 52961, 53326, 53691,
    54056, 54422, 54787, 55152, 55517, 55883, 56248, 56613, 56978, 57344, 57709, 58074, 58439,
    58805, 59170, 59535, 59900, 60266, 60631, 60996, 61361, 61727, 62092, 62457, 62822, 63188,
    63553, 63918, 64283, 64649, 65014, 65379, 65744, 66110, 66475, 66840, 67205, 67571, 67936,
    68301, 68666, 69032, 69397, 69762, 70127, 70493, 70858, 71223, 71588, 71954, 72319, 72684,
];

// A year that 4 divides is a leap year, but the first of a century only where 400 divides it.
pub(crate) fn is_leap(year: u16) -> bool
    ensures { result ≡ leap_year year }
{
    if year % 100 == 0 {
        year % 400 == 0
    } else {
        year % 4 == 0
    }
}

// The days from 1 January 1900 to 1 January of a year; nothing for a year that the table does not hold.
pub fn days_before_year(year: u16) -> Option<u32>
    ensures { result ≡ (if in_table year then Some (days_before_year year) else None) }
{
    let place = year.checked_sub(FIRST_YEAR)?;
    DAYS_BEFORE_YEAR.get(usize::from(place)).copied()
}
