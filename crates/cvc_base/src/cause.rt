//! The causes of refusals, and the word that is printed for each.
ghost use Rattle.std.specs.Prelude.{◌≡◌};
ghost use Rattle.cvc_base.specs.Words.{word_of};

/// Why an input is refused.
#[derive(Clone, Copy, Debug, PartialEq, Eq)]
pub enum Cause {
    /// A control byte other than a tab, or the byte 7F.
    BadByte,
    /// The file has more bytes than its limit.
    FileTooLong,
    /// A logical line has more bytes than its limit.
    LongLine,
    /// A token has more bytes than its limit.
    LongToken,
    /// A continuation before which no line was started.
    StrayPlus,
    /// The first token begins no known card.
    UnknownCard,
    /// A card or an expression that the check gives no meaning to.
    Unsupported,
    /// An equals sign that lacks its name or its value, or a bracket that isn't closed.
    BadParam,
    /// Connections by name beside nets, or one port connected twice.
    BadPins,
    /// A net, a model, a cell or a cell's name is missing.
    ShortCard,
    /// A cell begins inside a cell.
    NestedSubckt,
    /// A cell ends where none is open.
    StrayEnds,
    /// A cell ends under another name.
    EndsName,
    /// A cell of this name stands earlier.
    TwiceCell,
    /// A cell names a port twice.
    TwicePort,
    /// A device or an instance of this name stands earlier on the same level.
    TwiceName,
    /// The file ends inside a cell.
    OpenSubckt,
    /// An instance of a cell that the file lacks.
    UnknownCell,
    /// An instance connects another number of nets than its cell has ports.
    PortCount,
    /// An instance connects a name that is no port of its cell.
    UnknownPort,
    /// A cell that contains itself.
    Recursive,
    /// The top that was asked for is no cell of the file.
    NoTop,
    /// More levels of instances than the limit.
    TooDeep,
    /// More instances than the limit.
    TooManyInstances,
    /// More devices than the limit.
    TooManyDevices,
    /// More nets than the limit.
    TooManyNets,
    /// A parameter whose value leads back to it.
    ParamLoop,
    /// A row of another form.
    BadRow,
    /// A model row of no known kind.
    UnknownKind,
    /// A key that this kind of model doesn't have.
    UnknownKey,
    /// A text that is no voltage in whole millivolts.
    BadVoltage,
    /// A voltage below 0 where none may be.
    Negative,
    /// A MOS model without a threshold.
    MissingVth,
    /// A lowest voltage above the highest.
    MinAboveMax,
    /// A power row of this name stands earlier.
    TwiceRow,
    /// No model row fits the device.
    NoModel,
    /// A model row tests a parameter that is a word.
    ParamText,
    /// The device's letter and its model's kind don't fit.
    WrongKind,
    /// A power row names no net.
    UnknownNet,
    /// A power row names a net that an earlier one declared.
    SameNetTwice,
}

impl Cause {
    /// The word that a refusal line prints.
    pub fn word(&self) -> &'static [u8]
        ensures { result.now ≡ word_of self.now }
    {
        match self {
            Cause::BadByte => b"bad-byte",
            Cause::FileTooLong => b"file-too-long",
            Cause::LongLine => b"long-line",
            Cause::LongToken => b"long-token",
            Cause::StrayPlus => b"stray-plus",
            Cause::UnknownCard => b"unknown-card",
            Cause::Unsupported => b"unsupported",
            Cause::BadParam => b"bad-param",
            Cause::BadPins => b"bad-pins",
            Cause::ShortCard => b"short-card",
            Cause::NestedSubckt => b"nested-subckt",
            Cause::StrayEnds => b"stray-ends",
            Cause::EndsName => b"ends-name",
            Cause::TwiceCell => b"twice-cell",
            Cause::TwicePort => b"twice-port",
            Cause::TwiceName => b"twice-name",
            Cause::OpenSubckt => b"open-subckt",
            Cause::UnknownCell => b"unknown-cell",
            Cause::PortCount => b"port-count",
            Cause::UnknownPort => b"unknown-port",
            Cause::Recursive => b"recursive",
            Cause::NoTop => b"no-top",
            Cause::TooDeep => b"too-deep",
            Cause::TooManyInstances => b"too-many-instances",
            Cause::TooManyDevices => b"too-many-devices",
            Cause::TooManyNets => b"too-many-nets",
            Cause::ParamLoop => b"param-loop",
            Cause::BadRow => b"bad-row",
            Cause::UnknownKind => b"unknown-kind",
            Cause::UnknownKey => b"unknown-key",
            Cause::BadVoltage => b"bad-voltage",
            Cause::Negative => b"negative",
            Cause::MissingVth => b"missing-vth",
            Cause::MinAboveMax => b"min-above-max",
            Cause::TwiceRow => b"twice-row",
            Cause::NoModel => b"no-model",
            Cause::ParamText => b"param-text",
            Cause::WrongKind => b"wrong-kind",
            Cause::UnknownNet => b"unknown-net",
            Cause::SameNetTwice => b"same-net-twice",
        }
    }
}
