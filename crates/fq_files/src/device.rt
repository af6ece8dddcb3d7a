//! Device numbers.

ghost use Rattle.std.specs.Prelude.{◌≡◌, ◌<◌, ◌^◌, ℕ};
ghost use Rattle.fq_files.specs.Devices.{device_of};

/// The major number of a device. It is 0 if the system has no block device for the files: they are
/// on a network, in memory, or in other file systems.
pub(crate) fn major_of(device: u64) -> u64
    ensures { (major minor : ℕ) → major < 2 ^ 32 → minor < 2 ^ 32
        → device ≡ device_of major minor → result ≡ major }
{
    device / 256 % 4096 + device / (1 << 44) * 4096
}
