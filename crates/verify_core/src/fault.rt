//! Why a text is not that of a legal schedule.

ghost use Rattle.std.specs.Prelude.{◌≡◌};

use schedule_play::PlayFault;
use schedule_text::TextFault;

/// Why a text is not that of a legal schedule.
#[derive(Clone, Copy, Debug, PartialEq, Eq)]
pub enum CheckFault {
    /// The first bad line, counted from 1.
    Text(u64),
    /// The first fault of the schedule.
    Illegal(PlayFault),
    NoMemory,
}

impl From<TextFault> for CheckFault {
    ghost use Rattle.std.specs.Prelude.{◌≡◌};
    ghost use Rattle.verify_core.specs.Judging.{bad_text};

    ghost from_gives = { λ fault e. e ≡ bad_text fault };

    fn from(fault: TextFault) -> CheckFault {
        match fault {
            TextFault::Line { number } => CheckFault::Text(number),
            TextFault::NoMemory => CheckFault::NoMemory,
        }
    }
}

impl From<PlayFault> for CheckFault {
    ghost use Rattle.std.specs.Prelude.{◌≡◌};
    ghost use Rattle.verify_core.specs.Judging.{illegal};

    ghost from_gives = { λ fault e. e ≡ illegal fault };

    fn from(fault: PlayFault) -> CheckFault {
        match fault {
            PlayFault::NoMemory => CheckFault::NoMemory,
            _ => CheckFault::Illegal(fault),
        }
    }
}
