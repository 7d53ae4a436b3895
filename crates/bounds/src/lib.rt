// Theorems on the steps over every arithmetic, each the contract of a function that does nothing.
#![tactic(auto)]

ghost use Rattle.bounds.specs.Promises.{OfXAlone, RowsAndMultiplesWithin, PositiveArguments, NearReciprocals, NearExponentials, NearAccurateExponentials, NearPolynomials, Brackets, NearestAnswers, AccurateAnswers, TailAnswers};

use double_double::arithmetic::Arithmetic;

// Row and multiple of both steps are functions of x alone.
pub fn row_and_k_are_x_alone<A: Arithmetic>(_arith: &A)
    ensures { OfXAlone A.Arithmetic.ops }
{}

// Row and multiple of both steps are within their bounds.
pub fn rows_and_multiples_are_within()
    ensures { RowsAndMultiplesWithin }
{}

// A tail argument is above zero.
pub fn tail_arguments_are_positive()
    ensures { PositiveArguments }
{}

// The pair for 1/x is within 2^-104 of it, and its square within 2^-98, relatively.
pub fn reciprocals_are_near<A: Arithmetic>(_arith: &A)
    ensures { NearReciprocals A.Arithmetic.ops }
{}

// The fast exponential is relatively within 2^-71 of E(x).
pub fn exponentials_are_near<A: Arithmetic>(_arith: &A)
    ensures { NearExponentials A.Arithmetic.ops }
{}

// The accurate exponential is relatively within 2^-88 of S(w).
pub fn accurate_exponentials_are_near<A: Arithmetic>(_arith: &A)
    ensures { NearAccurateExponentials A.Arithmetic.ops }
{}

// The fast polynomial of every row is within 23 / 2^73 of the exact one, the accurate polynomial of every row within 2^-90.
pub fn polynomials_are_near<A: Arithmetic>(_arith: &A)
    ensures { NearPolynomials A.Arithmetic.ops }
{}

// F(x) lies between the ends of the rounding test.
pub fn ends_hold_the_formula<A: Arithmetic>(_arith: &A)
    ensures { Brackets A.Arithmetic.ops }
{}

// A fast answer is the f64 nearest to F(x).
pub fn fast_answers_are_nearest<A: Arithmetic>(_arith: &A)
    ensures { NearestAnswers A.Arithmetic.ops }
{}

// The accurate step's pair is relatively within 2^-85 of G(x) / 2^K, and the scaled answer less than one unit from G(x).
pub fn accurate_answers_are_within_a_unit<A: Arithmetic>(_arith: &A)
    ensures { AccurateAnswers A.Arithmetic.ops }
{}

// Every tail argument is answered, by the f64 nearest to F(x) or by one less than a unit from G(x); the listed one by its own.
pub fn tail_answers_stand<A: Arithmetic>(_arith: &A)
    ensures { TailAnswers A.Arithmetic.ops }
{}
