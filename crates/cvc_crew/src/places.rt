//! Where a worker looks for a device.
ghost use Rattle.std.specs.Prelude.{◌≡◌, ◌==◌, ◌<◌, ◌≤◌, ◌+◌, ◌*◌, ◌/◌, ◌%◌, ◌⊎◌, length, IfSome, if◌then◌else◌};

use crossbeam_deque::{Steal, Stealer, Worker};
use cvc_base::DevId;

/// Whose deque a device comes from.
#[derive(Clone, Copy)]
pub(crate) enum Source {
    Own,
    Stolen,
}

/// A device to try next.
#[derive(Clone, Copy)]
pub(crate) struct Task {
    pub(crate) device: DevId,
    pub(crate) source: Source,
}

/// Where a worker's share of the devices begins, and so where the share of the one before it ends.
pub(crate) fn share_start(devices: u32, workers: u32, worker: u32) -> u32
    requires some { 0 < workers }
    requires worker { worker ≤ workers }
    ensures { result ≡ worker * devices / workers }
{
    (u64::from(worker) * u64::from(devices) / u64::from(workers)) as u32
}

/// Where a worker's scan begins: at its own share of the devices, and one further with each turn.
fn scan_start(devices: u32, workers: u32, worker: u32, turn: u64) -> u32
    requires some { 0 < devices }
    requires worker { worker < workers }
    ensures { result ≡ (worker * devices / workers + turn) % devices }
{
    let own = u64::from(share_start(devices, workers, worker));
    let devices = u64::from(devices);
    ((own + turn % devices) % devices) as u32
}

/// Where a worker's scan begins; 0 where there are no devices.
pub(crate) fn scan_place(devices: u32, workers: u32, worker: u32, turn: u64) -> u32
    requires { worker < workers }
    ensures place { result ≡ (if devices == 0 then 0 else (worker * devices / workers + turn) % devices) }
    ensures device { (result < devices) ⊎ (devices ≡ 0) }
{
    if devices == 0 {
        return 0;
    }
    scan_start(devices, workers, worker, turn)
}

/// One steal from each of these deques, until one gives a device.
fn steal_from(others: &[Stealer<DevId>]) -> Option<DevId> {
    for other in others {
        if let Steal::Success(d) = other.steal() {
            return Some(d);
        }
    }
    None
}

/// One steal from each other worker, from the next one round, until one gives a device.
fn steal(stealers: &[Stealer<DevId>], worker: usize) -> Option<DevId>
    requires { worker < length stealers.now }
{
    match steal_from(&stealers[worker + 1..]) {
        Some(d) => Some(d),
        None => steal_from(&stealers[..worker]),
    }
}

/// The device as a task, if there is such a device.
fn task_of(devices: u32, device: DevId, source: Source) -> Option<Task>
    ensures { IfSome result (λ t. t.device.0 < devices) }
{
    if device.0 < devices {
        Some(Task { device, source })
    } else {
        None
    }
}

/// The next device of the worker's own deque, or else one that it steals. A number that no device has is dropped.
pub(crate) fn next_task(
    tasks: &mut Worker<DevId>,
    stealers: &[Stealer<DevId>],
    worker: usize,
    devices: u32,
) -> Option<Task>
    requires { worker < length stealers.now }
    ensures { IfSome result (λ t. t.device.0 < devices) }
{
    if let Some(device) = tasks.pop() {
        return task_of(devices, device, Source::Own);
    }
    let device = steal(stealers, worker)?;
    task_of(devices, device, Source::Stolen)
}
