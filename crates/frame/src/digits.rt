// Numbers below 16 as the hexadecimal digits of one number, counted from the lowest, which is 0: of ten subframes subframe n has digit n. A
// lookup is a shift.
ghost use Rattle.std.specs.Prelude.{◌≡◌};
ghost use Rattle.frame.specs.Coded.{digit_at};

// A number of 64 bits has 16 digits, and 0 after them.
pub fn digit_at(digits: u64, n: u16) -> u16
    ensures { result ≡ digit_at digits n }
{
    if 15 < n {
        return 0;
    }
    ((digits >> (4 * n)) % 16) as u16
}
