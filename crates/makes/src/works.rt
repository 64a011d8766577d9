// A register in use, of whatever make.
ghost use Rattle.std.specs.Prelude.{◌≡◌, ◌<◌, true, [], ◌∷◌};

use duties::Duty;
use registers::Register;

// Whether the register takes the duty and then has just that.
fn takes<R: Register>(register: &mut R, d: Duty) -> bool
    ensures { R.duties register.old ≡ [] → 0 < R.places register.old → (result ≡ true) × (R.duties register.new ≡ d ∷ []) }
{
    register.enter(d) && register.count() == 1 && register.held(d)
}

// Whether the register gives the duty back and then has none.
fn gives_back<R: Register>(register: &mut R, d: Duty) -> bool
    ensures { R.duties register.old ≡ d ∷ [] → (result ≡ true) × (R.duties register.new ≡ []) }
{
    register.strike(d) && !register.held(d) && register.after(None).is_none()
}

// Whether the register takes the duty and gives it back.
pub(crate) fn works<R: Register>(register: &mut R, d: Duty) -> bool
    ensures { R.duties register.old ≡ [] → 0 < R.places register.old → result ≡ true }
{
    takes(register, d) && gives_back(register, d)
}
