ghost use Rattle.std.specs.Prelude.{◌≡◌};
ghost use Rattle.codes.specs.Codes.{shape, code_shape};

use finders::checks::check_width;
use finders::refusals::Refusal;
use finders::words::{MOST_GAIN, WordShape};

// The shape of a code of so many cells, with the widest limit.
pub(super) fn shape(width: usize) -> WordShape
    ensures { result ≡ shape width }
{
    WordShape {
        width,
        gain_limit: MOST_GAIN,
    }
}

// That shape, or the refusal of so many cells.
pub(super) fn shape_of(width: usize) -> Result<WordShape, Refusal>
    ensures { result ≡ code_shape width }
{
    check_width(width)?;
    Ok(shape(width))
}
