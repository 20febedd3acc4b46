ghost use Rattle.std.specs.Prelude.{◌≡◌, ◌≤◌, max, FitsSigned};
ghost use Rattle.std.specs.Int.{w32};
ghost use Rattle.integers.specs.Nearest.{nearest, residue as residue_at};
ghost use Rattle.finders.specs.Rounding.{Division, NoNearer, TowardsZero, other_way};

// The whole number that a reading was rounded to, and what that leaves of the reading.
#[derive(Clone, Copy)]
pub struct Rounded {
    pub number: i32,
    pub residue: i32,
}

// The quotient, cut off towards zero, and the remainder.
fn divide(reading: i32, step: u32) -> (i64, i64)
    requires { 1 ≤ step }
    ensures { Division step reading result.0 result.1 }
{
    let reading = i64::from(reading);
    let step = i64::from(step);
    (reading / step, reading % step)
}

// The whole number nearest to reading ÷ step, a tie towards zero. A step of 0 counts as 1.
pub fn round(reading: i32, step: u32) -> Rounded
    ensures is_the_nearest_number { result.number ≡ nearest (max step 1) reading }
    ensures leaves_the_residue { result.residue ≡ residue_at (max step 1) reading result.number }
    ensures no_number_is_nearer { NoNearer (max step 1) reading result.number }
    ensures a_tie_goes_towards_zero { TowardsZero (max step 1) reading result.number }
{
    let step = step.max(1);
    let (number, residue) = divide(reading, step);
    let step = i64::from(step);
    if 2 * residue > step {
        Rounded::of(number + 1, residue - step)
    } else if 2 * residue < -step {
        Rounded::of(number - 1, residue + step)
    } else {
        Rounded::of(number, residue)
    }
}

// What a number leaves of a reading.
pub fn residue_of(reading: i32, step: u32, number: i32) -> i64
    ensures is_what_the_number_leaves { result ≡ residue_at step reading number }
{
    i64::from(reading) - i64::from(step) * i64::from(number)
}

impl Rounded {
    // Both of 64 bits, where they fit 32: each `as` is proved to keep its value.
    fn of(number: i64, residue: i64) -> Rounded
        requires number_fits { FitsSigned w32 number }
        requires residue_fits { FitsSigned w32 residue }
        ensures number { result.number ≡ number }
        ensures residue { result.residue ≡ residue }
    {
        Rounded {
            number: number as i32,
            residue: residue as i32,
        }
    }

    // The number on the other side of the reading; for residue zero the next away from zero, and from 0 it is 1.
    pub fn other_way(self) -> i64
        ensures is_the_other_way { result ≡ other_way self.residue self.number }
    {
        let number = i64::from(self.number);
        if self.residue > 0 || (self.residue == 0 && self.number >= 0) {
            number + 1
        } else {
            number - 1
        }
    }
}
