//! What holds of the ready operations of all circuits.

ghost use Rattle.std.specs.Prelude.{◌≡◌, ℕ, [], true};
ghost use Rattle.circuit_core.specs.Order.{is_performed};
ghost use Rattle.gate_order.specs.Ready.{ReadyValue, IsAmong, AreReady};

/// Where no operation is ready, all that are no barriers are done.
pub fn all_are_done_where_none_is_ready()
    ensures { (value : ReadyValue) (number : ℕ) → AreReady value []
        → is_performed value.circuit number ≡ true → IsAmong value.done number }
{}
