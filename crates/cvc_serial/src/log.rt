//! Derivation logs: how a family is found, line by line.
ghost use Rattle.std.specs.Prelude.{OnOk};
ghost use Rattle.cvc_serial.specs.Derivation.{IsNoted};

use cvc_base::{DevId, ItemList, Mv, NoMemory};

/// A line of a derivation log: the slot of the device gives the value. Slots 0 and 2 give a low, slots 1 and 3 a high.
#[derive(Clone, Copy, Debug, PartialEq, Eq)]
pub struct LogLine {
    pub device: u32,
    pub slot: u8,
    pub value: Mv,
}

/// The lines of a derivation log, in order.
pub type Log = ItemList<LogLine>;

/// Notes a widening, where a log is kept. A log that would reach 2^32 lines counts as want of memory.
pub(crate) fn note(
    log: &mut Option<Log>,
    device: DevId,
    slot: u8,
    value: Mv,
) -> Result<(), NoMemory>
    ensures { OnOk result (IsNoted log.old log.new record { device = device.0; slot = slot; value = value }) }
{
    let Some(lines) = log else {
        return Ok(());
    };
    if lines.len() >= u32::MAX as usize {
        return Err(NoMemory);
    }
    lines.push(LogLine {
        device: device.0,
        slot,
        value,
    })
}
