//! What a thread does for entering threads when it leaves or waits and no place resumes next, so that the monitor
//! becomes free. It affects speed alone, except for the wake-up: `entrance` says why none is lost.
//!
//! *Waking.* If an entering thread may sleep, the releasing thread wakes one (`Entrance::wake_one`).
//!
//! *Backing off.* If T leaves and hands off the monitor to W, W finishes its visit and usually enters again before T
//! does. What W waits for is then mostly false, as T would have to make it true, and W waits: every visit costs a
//! hand-off. So W, after it has freed the monitor, spins for a while before its call returns.
use crate::door::RawBatonDoor;
use door_frame::polling::pause;
use door_frame::release::Release;
use hoare_law::data::MonitorData;

/// The length of a back-off in spin hints: half a microsecond, less than a hand-off takes.
const BACK_OFF: u32 = 128;

impl<D: MonitorData> RawBatonDoor<D> {
    /// Helps entering threads, after the caller has freed the monitor: wakes one of them, if one may sleep, and backs
    /// off if `backs_off` is true.
    #[inline(never)] // apart, so that a plain leave stays small
    pub(crate) fn help_others(&self, backs_off: bool) {
        self.entrance.wake_one();
        if backs_off {
            pause(BACK_OFF);
        }
    }
}

/// Returns true if a place that releases the monitor in this way waits on a condition afterwards.
#[inline]
pub(crate) fn is_wait(how: Release) -> bool {
    match how {
        Release::Wait(_, _) => true,
        Release::Signal(_) | Release::SignalTo(_, _) | Release::Pass(_) | Release::Leave => false,
    }
}

/// Returns true if a place that releases the monitor in this way is outside afterwards.
#[inline]
pub(crate) fn is_leaving(how: Release) -> bool {
    match how {
        Release::Pass(_) | Release::Leave => true,
        Release::Wait(_, _) | Release::Signal(_) | Release::SignalTo(_, _) => false,
    }
}
