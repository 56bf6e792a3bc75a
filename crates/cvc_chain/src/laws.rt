//! Laws of a log's text. Each is the contract of a function that does nothing.
ghost use Rattle.cvc_chain.specs.Laws.{BadRowsAreNotWritten, LinesAreWritten, LogsAreReadBack, OnlyLogsAreRead};

/// A log's text of at most 134,217,728 bytes is read as that log, and no other bytes are read.
pub fn a_log_is_read_back()
    ensures back { LogsAreReadBack }
    ensures only { OnlyLogsAreRead }
{}

/// A line is read just where it is written of a log line, and as that one. Up to the limit each other line is a bad row.
pub fn a_line_is_one_that_is_written()
    ensures read { LinesAreWritten }
    ensures refused { BadRowsAreNotWritten }
{}
