//! Where threads wait until something came about: each looks for a while, and then sleeps until it is
//! notified.
use crossbeam_utils::sync::EventCount;
use std::hint::spin_loop;
use std::sync::Wait;
use std::sync::atomic::{AtomicU32, Ordering};

/// How often a thread looks before it sleeps, where that was of use the last time: for some tens of
/// microseconds, about what it takes to sleep and be woken.
const MOST_LOOKS: u32 = 20_000;

/// How often it looks at least.
const LEAST_LOOKS: u32 = 200;

/// After so many waits that looked in vain, one looks long again.
const PROBES: u32 = 16;

/// How often a thread looks after so many waits in a row that looked in vain: after each half as often.
fn looks_after(vain: u32) -> u32 {
    if vain % PROBES == 0 {
        return MOST_LOOKS;
    }
    (MOST_LOOKS >> vain.min(PROBES)).max(LEAST_LOOKS)
}

/// Where threads wait until something came about.
#[derive(Drop)]
pub(crate) struct WaitPoint {
    event: EventCount,
    /// How many waits in a row looked in vain.
    vain: AtomicU32,
}

impl WaitPoint {
    /// Nobody waits.
    pub(crate) fn new() -> WaitPoint {
        WaitPoint {
            event: EventCount::new(),
            vain: AtomicU32::new(0),
        }
    }

    /// Lets those go on that wait, where what they wait for came about.
    pub(crate) fn notify(&self) {
        self.event.notify_all();
    }

    /// Looks for a while. Whether it came about.
    pub(crate) fn look_for<F: Fn() -> bool>(&self, came: &F) -> bool
        requires { F.IsAlwaysCallable came.now }
    {
        let vain = self.vain.load(Ordering::SeqCst);
        for look in 0..looks_after(vain) {
            if came() {
                if look > LEAST_LOOKS {
                    self.vain.store(0, Ordering::SeqCst);
                }
                return true;
            }
            spin_loop();
        }
        self.vain.store(vain.wrapping_add(1), Ordering::SeqCst);
        false
    }

    /// Sleeps until it came about.
    pub(crate) fn sleep_until<R: Wait, F: Fn() -> bool>(&self, rt: &R, came: &F)
        requires { F.IsAlwaysCallable came.now }
    {
        for _ in rt.forever() {
            let key = self.event.prepare_wait();
            if came() {
                return;
            }
            key.wait(rt);
        }
    }

    /// Waits until it came about.
    pub(crate) fn wait_until<R: Wait, F: Fn() -> bool>(&self, rt: &R, came: &F)
        requires { F.IsAlwaysCallable came.now }
    {
        if !self.look_for(came) {
            self.sleep_until(rt, came);
        }
    }
}
