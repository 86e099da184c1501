//! Equality that means the same value.
ghost use Rattle.std.specs.Prelude.{◌≡◌, ◌↔◌, IsTrue};
ghost use Rattle.std.specs.Bool.{Decides};

/// A type whose `==` is true exactly where both are the same value.
pub trait Exact: PartialEq {
    ghost exact: { (x y : Self) → Decides (Self.eq x y) (x ≡ y) };
}

/// Whether two values are the same.
pub fn is_same<T: Exact>(x: &T, y: &T) -> bool
    ensures { IsTrue result ↔ (x.now ≡ y.now) }
{
    *x == *y
}

impl Exact for i64 {
    ghost use Rattle.std.proofs.lemmas.Bool.Decides.{Decides-int_eq};

    ghost exact = { Decides-int_eq };
}

impl Exact for u16 {
    ghost use Rattle.std.proofs.lemmas.Bool.Decides.{Decides-eqb};

    ghost exact = { Decides-eqb };
}

impl Exact for u64 {
    ghost use Rattle.std.proofs.lemmas.Bool.Decides.{Decides-eqb};

    ghost exact = { Decides-eqb };
}
