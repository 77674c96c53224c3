//! What holds of all traps.

ghost use Rattle.std.specs.Prelude.{◌≡◌, ℕ, slice_get, Some};
ghost use Rattle.trap_model.specs.declared.channel.Channel.{Channel};
ghost use Rattle.trap_parts.specs.Parts.{TrapValue};
ghost use Rattle.trap_model.specs.Channels.{channels_of, number_of};
ghost use Rattle.trap_parts.specs.Build.{IsTrap};

/// Each channel, looked up by its own kind and ends, has its own number.
pub fn channels_have_their_own_numbers()
    ensures { (trap : TrapValue) (number : ℕ) (channel : Channel) → IsTrap trap
        → slice_get (channels_of trap) number ≡ Some channel → number_of trap channel ≡ Some number }
{}
