//! What holds of the parts of all traps.

ghost use Rattle.std.specs.Prelude.{◌≡◌, Ok};
ghost use Rattle.trap_parts.specs.Parts.{TrapValue, names_of};
ghost use Rattle.trap_parts.specs.Build.{AreNames, build_of, IsTrap};

/// Parts are accepted exactly where they keep what each trap keeps, and they are the trap that they make.
pub fn sound_parts_are_accepted()
    ensures accepted { (trap : TrapValue) → IsTrap trap → build_of trap ≡ Ok trap }
    ensures sound { (trap answer : TrapValue) → AreNames (names_of trap) → build_of trap ≡ Ok answer
        → IsTrap answer }
    ensures same { (trap answer : TrapValue) → build_of trap ≡ Ok answer → answer ≡ trap }
{}
