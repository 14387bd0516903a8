// The system's clock.
use std::time::Clock;

// Its seconds, or none where it can not be read. What it shows is compared for being equal alone, so that a clock which is set back or forth
// does no harm.
pub fn seconds(rt: &HostRuntime) -> Option<u64> {
    rt.since_1970().ok().map(|time| time.as_secs())
}
