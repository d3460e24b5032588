ghost use Rattle.std.specs.Prelude.{◌≡◌};
ghost use Rattle.tier_core.specs.Scan.{fits, opens};
ghost use Rattle.tier_core.specs.Symbols.{byte_of, sym_of};
ghost use Rattle.tier_core.specs.Timelines.{is_edge};

/// What a tier has at one place. Start, End and Both are edges.
///
/// The symbols are ordered as they are listed.
#[derive(Clone, Copy, Debug, Default, PartialEq, Eq, PartialOrd, Ord)]
pub enum Sym {
    /// No constituent is here, written `-`.
    #[default]
    Outside,
    /// Inside a constituent, written `+`.
    Inside,
    /// A constituent starts, written `[`.
    Start,
    /// A constituent ends, written `]`.
    End,
    /// One constituent ends and the next starts, written `|`.
    Both,
}

impl Sym {
    /// The symbol that is written as this byte, or `None` if the byte is none of the five.
    pub fn of_byte(byte: u8) -> Option<Sym>
        ensures { result ≡ sym_of byte }
    {
        match byte {
            b'-' => Some(Sym::Outside),
            b'+' => Some(Sym::Inside),
            b'[' => Some(Sym::Start),
            b']' => Some(Sym::End),
            b'|' => Some(Sym::Both),
            _ => None,
        }
    }

    /// The byte that the symbol is written as: `-`, `+`, `[`, `]` or `|`.
    pub fn byte(self) -> u8
        ensures { result ≡ byte_of self }
    {
        match self {
            Sym::Outside => b'-',
            Sym::Inside => b'+',
            Sym::Start => b'[',
            Sym::End => b']',
            Sym::Both => b'|',
        }
    }

    /// Whether a constituent starts or ends here.
    pub fn is_edge(self) -> bool
        ensures { result ≡ is_edge self }
    {
        matches!(self, Sym::Start | Sym::End | Sym::Both)
    }

    /// Whether the symbol may come next, given whether its tier is open.
    pub fn may_come(self, is_open: bool) -> bool
        ensures { result ≡ fits is_open self }
    {
        match self {
            Sym::Outside | Sym::Start => !is_open,
            Sym::Inside | Sym::End | Sym::Both => is_open,
        }
    }

    /// Whether its tier is open after the symbol.
    pub fn is_open_after(self) -> bool
        ensures { result ≡ opens self }
    {
        matches!(self, Sym::Inside | Sym::Start | Sym::Both)
    }
}
