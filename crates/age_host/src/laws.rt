//! Laws about the files that are read.

ghost use Rattle.age_host.specs.{NoInputIsChanged, NoOtherIsChanged};

use age_host_model::others_are_kept;
use age_host_paths::numbers_are_apart;

/// States that an output which is none of the opened files changes none of them, and neither does a
/// new one.
pub fn no_input_is_changed()
    ensures opened { NoInputIsChanged }
    ensures made { NoOtherIsChanged }
{
    numbers_are_apart();
    others_are_kept();
}
