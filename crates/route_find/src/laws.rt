//! What holds of the walks of all traps.

ghost use Rattle.std.specs.Prelude.{ℕ};
ghost use Rattle.trap_parts.specs.Parts.{TrapValue};
ghost use Rattle.route_find.specs.Walks.{IsReachable};

/// Each channel has one that leads back, so walks lead back, and walks can be joined.
pub fn walks_lead_back()
    ensures back { (trap : TrapValue) (from to : ℕ) → IsReachable trap from to → IsReachable trap to from }
    ensures joined { (trap : TrapValue) (from through to : ℕ) → IsReachable trap from through
        → IsReachable trap through to
        → IsReachable trap from to }
{}
