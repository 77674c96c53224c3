//! Where two ions are in a list.

ghost use Rattle.std.specs.Prelude.{◌≡◌, ◌<◌, ◌^◌, length};
ghost use Rattle.step_facts.specs.ToSchedule.{index_of_pair as index_of};

use qc_base::Ion;

/// How many ions of the list are before the first of these two.
pub fn index_of_pair(first: u32, second: u32, ions: &[Ion]) -> u32
    requires { length ions.now < 2 ^ 32 }
    ensures { result ≡ index_of first second ions.now }
{
    for (index, ion) in ions.iter().enumerate() {
        if ion.0 == first || ion.0 == second {
            return index as u32;
        }
    }
    ions.len() as u32
}
