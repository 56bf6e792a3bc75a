//! Why the words of the command line are refused.
ghost use Rattle.std.specs.Prelude.{◌≡◌};
ghost use Rattle.cvc_words.specs.Faults.{word_of};

use cvc_base::NoMemory;

/// Why the words of the command line ask for nothing. The first fault is told: of the command, then of the words that it must have, then of each
/// later word from the left.
#[derive(Clone, Copy, Debug, PartialEq, Eq)]
pub enum WordFault {
    /// There is no word.
    NoCommand,
    /// The first word is no command.
    UnknownCommand,
    /// A file name, a seed or a size is missing.
    MissingWord,
    /// A later word is no option of the command.
    UnknownWord,
    /// An option that came before.
    TwiceWord,
    /// A seed, a size or a number of workers that is no number, or is outside its limits.
    BadNumber,
    /// `top=` without a name.
    BadName,
}

impl WordFault {
    /// The word that a refusal line prints.
    pub fn word(&self) -> &'static [u8]
        ensures { result.now ≡ word_of self.now }
    {
        match self {
            WordFault::NoCommand => b"no-command",
            WordFault::UnknownCommand => b"unknown-command",
            WordFault::MissingWord => b"missing-word",
            WordFault::UnknownWord => b"unknown-word",
            WordFault::TwiceWord => b"twice-word",
            WordFault::BadNumber => b"bad-number",
            WordFault::BadName => b"bad-name",
        }
    }
}

/// Why there is no command: the first fault of the words, or want of memory.
#[derive(Clone, Copy, Debug, PartialEq, Eq)]
pub enum WordRefusal {
    At(WordFault),
    NoMemory,
}

impl From<WordFault> for WordRefusal {
    ghost use Rattle.std.specs.Prelude.{◌≡◌};
    ghost use Rattle.cvc_words.specs.declared.fault.WordRefusal.TheVariants as refusals;

    ghost from_gives = { λ fault refusal. refusal ≡ refusals.At fault };

    fn from(fault: WordFault) -> WordRefusal {
        WordRefusal::At(fault)
    }
}

impl From<NoMemory> for WordRefusal {
    ghost use Rattle.std.specs.Prelude.{◌≡◌};
    ghost use Rattle.cvc_words.specs.declared.fault.WordRefusal.TheVariants as refusals;

    ghost from_gives = { λ _ refusal. refusal ≡ refusals.NoMemory };

    fn from(_: NoMemory) -> WordRefusal {
        WordRefusal::NoMemory
    }
}
