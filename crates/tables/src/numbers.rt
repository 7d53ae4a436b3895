// Numbers that are stored as bits.
ghost use Rattle.std.specs.Prelude.{◌≡◌, ℕ, ◌^◌, ◌<◌, true, [], length, map, get_or, from_bits, Float};
ghost use Rattle.std.specs.List.{list_all};
ghost use Rattle.std.specs.Float.{binary64};
ghost use Rattle.tables.specs.Finite.{is_finite};

// A list of numbers, as a row of a polynomial's table.
pub trait Numbers {
    // How many there are.
    ghost count: { Self → ℕ };

    ghost numbers: { Self → ℕ → Float };

    // How many of the single coefficients a loop adds to pairs.
    ghost turns: { Self → ℕ };

    // Number n.
    fn number(&self, n: usize) -> f64
        requires { n < count self.now }
        ensures { result ≡ numbers self.now n };

    fn turns(&self) -> usize
        ensures { result ≡ turns self.now };

    // A place is a usize.
    ghost fits: { (x : Self) → count x < 2 ^ 64 };
}

// One row of a polynomial's table, with the count of its loop over pairs. In the fast rows the count stands here because one that the compiler knows makes it unroll the loop; the accurate rows have it so that both tables have one type.
#[derive(Clone, Copy)]
pub struct Row<const N: usize> {
    pub p: [u64; N],
    pub turns: usize,
}

// The number with the bits at place n. That the entries are finite is asked of the table here, in `number_in` and in exp's `entry`: the kit refuses a static of a struct with a ghost field.
#[tactic(auto, using(crate::proofs::Finite::no_nan_at))]
pub(crate) fn number_at(bits: &[u64], n: usize) -> f64
    requires n_in { n < length bits.now }
    requires finite { list_all is_finite bits.now ≡ true }
    ensures { result ≡ from_bits binary64 (get_or bits.now n 0) }
{
    f64::from_bits(bits[n])
}

// Number n of a row.
pub(crate) fn number_in<const N: usize>(rows: &[Row<N>], row: usize, n: usize) -> f64
    requires row_in { row < length rows.now }
    requires n_in { n < N }
    requires finite { list_all (list_all is_finite) (map (λ r. r.p) rows.now) ≡ true }
    ensures { result ≡ from_bits binary64 (get_or (get_or (map (λ r. r.p) rows.now) row []) n 0) }
{
    number_at(&rows[row].p, n)
}

pub(crate) fn turns_in<const N: usize>(rows: &[Row<N>], row: usize) -> usize
    requires { row < length rows.now }
    ensures { result ≡ get_or (map (λ r. r.turns) rows.now) row 0 }
{
    rows[row].turns
}
