// The limit of a feeder, which an entry may state.
ghost use Rattle.std.specs.Prelude.{◌≡◌};
ghost use Rattle.gathering.specs.Entering.{limit_of, too_high};

use network::bounds::HIGHEST_SETTING;

// The limit of a feeder whose entry states none.
pub const UNSTATED_LIMIT: u32 = 1_000_000;

// The limit of a feeder: as stated, or that of a feeder with none stated.
pub fn limit_of(stated: Option<u32>) -> u32
    ensures { result ≡ limit_of stated }
{
    stated.unwrap_or(UNSTATED_LIMIT)
}

// Whether a limit is stated that is above the highest that may be set.
pub fn is_too_high(stated: Option<u32>) -> bool
    ensures { result ≡ too_high stated }
{
    stated.is_some_and(|limit| limit > HIGHEST_SETTING)
}
