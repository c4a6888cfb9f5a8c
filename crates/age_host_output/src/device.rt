//! Devices and pipes that are open for writing.

ghost use Rattle.std.specs.Prelude.{◌≡◌, Some};
ghost use Rattle.age_host_paths.specs.{number_of};
ghost use Rattle.age_host_output.specs.inner.Devices.{device_of};

use age_host_syscalls::{HostFile, Machine};

/// A device or a pipe that is open for writing, and the machine that opened it.
#[derive(Drop)]
pub(crate) struct Device {
    pub(crate) file: HostFile,
    pub(crate) machine: Machine,
    ghost opened: { device_of machine.calls ≡ Some (number_of file.node) },
}
