ghost use Rattle.std.specs.Prelude.{◌≡◌, Bool, true, false};

// A total order: of two unequal values just one is less, none is less than itself, and less carries over.
// Beside `Ord`, since that lets unequal values compare equal, and leaves what is less to the type; here a definition says it.
pub trait TotalOrder: Copy {
    ghost less: { Self → Self → Bool };

    fn is_less(&self, other: &Self) -> bool
        ensures { result ≡ less self.now other.now };

    ghost irreflexive: { (x : Self) → less x x ≡ false };

    ghost transitive: { (x y z : Self) → less x y ≡ true → less y z ≡ true → less x z ≡ true };

    ghost total: { (x y : Self) → less x y ≡ false → less y x ≡ false → x ≡ y };
}
