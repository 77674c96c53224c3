//! What holds of all trap files.

ghost use Rattle.std.specs.Prelude.{◌≡◌, ◌≢◌, ℕ, List, length, Option, Some, Ok, Err};
ghost use Rattle.trap_parts.specs.declared.fault.TrapFault.TheVariants as faults;
ghost use Rattle.trap_parts.specs.Parts.{TrapValue};
ghost use Rattle.trap_parts.specs.Build.{IsTrap};
ghost use Rattle.trap_read.specs.declared.fault.TrapText.TheVariants.{Trap};
ghost use Rattle.trap_read.specs.TrapFile.{trap_of};

/// The trap of a file keeps all rules of traps.
pub fn traps_of_files_are_right()
    ensures { (bytes : List ℕ) (trap : TrapValue) (given : Option (List (List (List ℕ))))
        → trap_of bytes ≡ Ok (trap, given) → IsTrap trap }
{}

/// Where a file has the table `place`, it gives one list of labels for each zone.
pub fn labels_for_each_zone()
    ensures { (bytes : List ℕ) (trap : TrapValue) (given : List (List (List ℕ)))
        → trap_of bytes ≡ Ok (trap, Some given) → length given ≡ length trap.zones }
{}

/// That memory ran out is never the fault of building for which a file is refused.
pub fn memory_is_no_fault_of_building()
    ensures { (bytes : List ℕ) → trap_of bytes ≢ Err (Trap faults.NoMemory) }
{}
