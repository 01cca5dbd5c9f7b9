//! What a case took.
use std::io;
use std::time::{CpuClock, Duration};

/// The processor time of this thread since it was that.
pub fn since(rt: &impl CpuClock, before: Duration) -> io::Result<Duration> {
    Ok(rt.thread_cpu_time()?.saturating_sub(before))
}
