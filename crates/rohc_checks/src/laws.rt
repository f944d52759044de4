//! Laws of the checks. Each is the contract of an empty function.

ghost use Rattle.std.specs.Prelude.{◌≡◌, ℕ, ◌++◌, Bool, List};
ghost use Rattle.rohc_checks.specs.Division.{check, HasDegree, poly3, poly7, poly8};

/// A text may be checked in two parts, by any polynomial: the check of the first part is the
/// register from which the second starts.
pub fn two_parts()
    ensures { (poly : List Bool) (reg : ℕ) (a b : List ℕ)
        → check poly (check poly reg a) b ≡ check poly reg (a ++ b) }
{}

/// The polynomials of the three checks have degree 3, 7 and 8, and their highest coefficient is 1
/// (RFC 3095 5.9).
pub fn degrees()
    ensures three { HasDegree 3 poly3 }
    ensures seven { HasDegree 7 poly7 }
    ensures eight { HasDegree 8 poly8 }
{}
