// The row of a polynomial that serves an argument.
ghost use Rattle.std.specs.Prelude.{◌≡◌};
ghost use Rattle.erfc.specs.Rows.{first_not_below, fast_row, accurate_row};

use std::num::f64_from_bits_with_nan;

// A row serves 1/x up to its threshold. Rows and thresholds are tables of their own, as in the Rust.
static THRESHOLD: [u64; 6] = [
    0x3fbd500000000000,
    0x3fc59da6ca291ba6,
    0x3fcbc00000000000,
    0x3fd0c00000000000,
    0x3fd3800000000000,
    0x3fd6300000000000,
];

static THRESHOLD_ACCURATE: [u64; 10] = [
    0x3fb4500000000000,
    0x3fbe000000000000,
    0x3fc3f00000000000,
    0x3fc9500000000000,
    0x3fcf500000000000,
    0x3fd3100000000000,
    0x3fd7100000000000,
    0x3fdbc00000000000,
    0x3fe0b00000000000,
    0x3fe3000000000000,
];

// The first row whose threshold is at least yh.
fn first_row(thresholds: &[u64], yh: f64) -> usize
    ensures { result ≡ first_not_below thresholds.now yh }
{
    thresholds
        .iter()
        .take_while(|t| yh > f64_from_bits_with_nan(**t))
        .count()
}

// Two functions over one search: no contract can name a table in the code, so each states which list its table is.
pub fn fast_row(yh: f64) -> usize
    ensures { result ≡ fast_row yh }
{
    first_row(&THRESHOLD, yh)
}

pub fn accurate_row(yh: f64) -> usize
    ensures { result ≡ accurate_row yh }
{
    first_row(&THRESHOLD_ACCURATE, yh)
}
