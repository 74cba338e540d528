//! Limits that several layers name, of which none stands on the other.

ghost use Rattle.std.specs.Prelude.{◌≡◌};
ghost use Rattle.ak_base.specs.Limits.{capacity_limit, app_looper_limit, looper_limit};

/// The most messages that a port keeps at a time.
pub const CAPACITY_LIMIT: u32 = 1_000;

/// The most loopers of one application.
pub const APP_LOOPER_LIMIT: usize = 8;

/// The most loopers of a run, whose numbers are below it.
pub const LOOPER_LIMIT: u32 = 32;

/// These limits are the numbers that the definitions name.
pub fn limits_are_named()
    ensures capacity { CAPACITY_LIMIT ≡ capacity_limit }
    ensures app_loopers { APP_LOOPER_LIMIT ≡ app_looper_limit }
    ensures loopers { LOOPER_LIMIT ≡ looper_limit }
{}
