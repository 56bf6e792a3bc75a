//! Logs from their text.
ghost use Rattle.std.specs.Prelude.{◌≡◌, ◌+◌, ◌<◌, ◌≤◌, ◌^◌, IfOk, IfSome, length};
ghost use Rattle.std.specs.List.{position};
ghost use Rattle.cvc_rows.specs.Refusing.{Answers};
ghost use Rattle.cvc_rows.specs.declared.refused.Refused.TheVariants as refusals;
ghost use Rattle.cvc_chain.specs.Reading.{is_blank, is_line_feed, judged, limit, line_of, line_of_words, log_of, unended};

use crate::number::{number_below, voltage_of};
use crate::{Log, LogLine};
use cvc_base::Cause;
use cvc_rows::{LineFault, Refused};
use std::alloc::Global;

/// The first line, from 1, that is none of a log's or passes the limit.
pub type LogFault = LineFault<Cause>;

/// Why a log is not read.
pub type LogRefusal = Refused<LogFault>;

/// How many bytes a log has at most.
const LIMIT: usize = 134_217_728;

// Where the first blank stands.
fn first_blank(text: &[u8]) -> Option<usize>
    ensures inside { IfSome result (λ k. k < length text.now) }
    ensures room { IfSome result (λ k. k + 1 < 2 ^ 64) }
    ensures place { result ≡ position is_blank text.now }
{
    text.iter().position(|byte| *byte == b' ')
}

// Where the first LF stands.
fn first_line_feed(text: &[u8]) -> Option<usize>
    ensures inside { IfSome result (λ k. k < length text.now) }
    ensures room { IfSome result (λ k. k + 1 < 2 ^ 64) }
    ensures place { result ≡ position is_line_feed text.now }
{
    text.iter().position(|byte| *byte == b'\n')
}

// The log line of these words.
fn line_of_words(device: &[u8], slot: &[u8], value: &[u8]) -> Option<LogLine>
    ensures { result ≡ line_of_words device.now slot.now value.now }
{
    Some(LogLine {
        device: number_below(1 << 32, device)? as u32,
        slot: number_below(4, slot)? as u8,
        value: voltage_of(value)?,
    })
}

// The log line that a line writes, if it does.
#[tactic(auto, unfolding(crate::specs::Reading::line_of))]
fn line_of(text: &[u8]) -> Option<LogLine>
    ensures { result ≡ line_of text.now }
{
    let first = first_blank(text)?;
    let others = &text[first + 1..];
    let second = first_blank(others)?;
    line_of_words(&text[..first], &others[..second], &others[second + 1..])
}

// What a line says that ends at this byte.
fn judged(end: usize, text: &[u8]) -> Result<LogLine, Cause>
    ensures line { result ≡ judged end text.now }
    ensures within { IfOk result (λ _. end ≤ limit) }
{
    if LIMIT < end {
        return Err(Cause::FileTooLong);
    }
    line_of(text).ok_or(Cause::BadRow)
}

// Whether a file may end here, behind these bytes that no LF ends.
fn unended(end: usize, text: &[u8]) -> Result<(), Cause>
    ensures { result ≡ unended end text.now }
{
    if text.is_empty() {
        Ok(())
    } else if LIMIT < end {
        Err(Cause::FileTooLong)
    } else {
        Err(Cause::BadRow)
    }
}

// The fault at the line behind those that are read.
fn fault_behind(log: &Log, cause: Cause) -> LogRefusal
    requires { length log.now + 1 < 2 ^ 32 }
    ensures { result ≡ refusals.At (record { line = length log.now + 1; cause = cause }) }
{
    let line = log.len() as u32 + 1;
    Refused::At(LineFault { line, cause })
}

/// The log of these bytes, or its first fault: `FileTooLong` at the line that holds byte 134,217,729, then `BadRow` at a line that isn't exactly one that
/// `write_log` writes. It takes time linear in the bytes.
pub fn read_log(alloc: Global, bytes: &[u8]) -> Result<Log, LogRefusal>
    ensures log { Answers result (log_of bytes.now) }
    ensures few { IfOk result (λ log. length log < 2 ^ 32) }
{
    let mut log = Log::new(alloc);
    let mut start = 0;
    let mut rest = bytes;
    while let Some(length) = first_line_feed(rest) {
        let text = &rest[..length];
        rest = &rest[length + 1..];
        start += length + 1;
        match judged(start, text) {
            Ok(line) => log.push(line)?,
            Err(cause) => return Err(fault_behind(&log, cause)),
        }
    }
    match unended(bytes.len(), rest) {
        Ok(()) => Ok(log),
        Err(cause) => Err(fault_behind(&log, cause)),
    }
}
