//! What a command takes behind its name.
ghost use Rattle.std.specs.Prelude.{◌≡◌, ◌≤◌, IfOk, MatchResult, Ok, Err, length};
ghost use Rattle.cvc_words.specs.Options.{given, later_of, options_of, with_nets, with_top, with_word, with_workers};
ghost use Rattle.cvc_words.specs.Views.{IsLimited, options_view, options_seen};

use crate::WordFault;
use crate::number::number_within;
use cvc_base::Text;

/// What a command takes: how many words it must have, and which options come behind them.
#[derive(Clone, Copy)]
pub(crate) struct Takes {
    pub(crate) must_have: usize,
    pub(crate) top: bool,
    pub(crate) workers: bool,
    pub(crate) nets: bool,
}

/// What the options gave so far.
#[derive(Clone, Copy)]
pub(crate) struct Options<'a> {
    pub(crate) top: Option<&'a [u8]>,
    pub(crate) workers: Option<u32>,
    pub(crate) nets: bool,
}

// The most workers of a run.
const MOST_WORKERS: u64 = 64;

impl<'a> Options<'a> {
    fn with_top(self, name: &'a [u8]) -> Result<Options<'a>, WordFault>
        requires { IsLimited self }
        ensures option { options_seen result ≡ with_top (options_view self.entry) name.now }
        ensures limited { IfOk result IsLimited }
    {
        if self.top.is_some() {
            return Err(WordFault::TwiceWord);
        }
        if name.is_empty() {
            return Err(WordFault::BadName);
        }
        Ok(Options {
            top: Some(name),
            ..self
        })
    }

    fn with_workers(self, number: &[u8]) -> Result<Options<'a>, WordFault>
        ensures option { options_seen result ≡ with_workers (options_view self.entry) number.now }
        ensures limited { IfOk result IsLimited }
    {
        if self.workers.is_some() {
            return Err(WordFault::TwiceWord);
        }
        let workers = number_within(1, MOST_WORKERS, number)?;
        Ok(Options {
            workers: Some(workers as u32),
            ..self
        })
    }

    fn with_nets(self) -> Result<Options<'a>, WordFault>
        requires { IsLimited self }
        ensures option { options_seen result ≡ with_nets (options_view self.entry) }
        ensures limited { IfOk result IsLimited }
    {
        if self.nets {
            return Err(WordFault::TwiceWord);
        }
        Ok(Options { nets: true, ..self })
    }

    #[tactic(auto, unfolding(crate::specs::Options::with_word))]
    fn with_word(self, takes: Takes, word: &'a [u8]) -> Result<Options<'a>, WordFault>
        requires { IsLimited self }
        ensures option { options_seen result ≡ with_word takes (options_view self.entry) word.now }
        ensures limited { IfOk result IsLimited }
    {
        if takes.top
            && let Some(name) = word.strip_prefix(b"top=")
        {
            return self.with_top(name);
        }
        if takes.workers
            && let Some(number) = word.strip_prefix(b"workers=")
        {
            return self.with_workers(number);
        }
        if takes.nets && word == b"nets".as_slice() {
            return self.with_nets();
        }
        Err(WordFault::UnknownWord)
    }
}

/// The options that the later words of a command give, up to the first fault.
pub(crate) fn read_options(takes: Takes, words: &[Text]) -> Result<Options<'_>, WordFault>
    ensures options { options_seen result ≡ options_of takes words.now }
    ensures limited { IfOk result IsLimited }
{
    let mut options = Options {
        top: None,
        workers: None,
        nets: false,
    };
    for word in words {
        options = options.with_word(takes, word.bytes())?;
    }
    Ok(options)
}

/// The words behind those that the command must have.
pub(crate) fn later_words(takes: Takes, words: &[Text]) -> Result<&[Text], WordFault>
    ensures later { MatchResult result (λ later. later_of takes words.now ≡ Ok later.now) (λ fault. later_of takes words.now ≡ Err fault) }
    ensures enough { IfOk result (λ _. takes.must_have ≤ length words.now) }
{
    if words.len() < takes.must_have {
        return Err(WordFault::MissingWord);
    }
    Ok(&words[takes.must_have..])
}

/// The options of a command whose other words are names of files.
pub(crate) fn read_given(takes: Takes, words: &[Text]) -> Result<Options<'_>, WordFault>
    ensures options { options_seen result ≡ given takes words.now }
    ensures limited { IfOk result IsLimited }
    ensures enough { IfOk result (λ _. takes.must_have ≤ length words.now) }
{
    let later = later_words(takes, words)?;
    read_options(takes, later)
}
