ghost use Rattle.std.specs.Prelude.{◌≡◌};
ghost use Rattle.code_rules.specs.Rules.{number_of};

/// A rule of code.
#[derive(Clone, Copy, Debug, PartialEq, Eq)]
pub enum Rule {
    /// What an op names is in range.
    Ranges,
    /// Jumps go forward and stay in their handler, loops are closed and nest.
    Jumps,
    /// The stack never runs short, and is empty where it has to be.
    Stack,
    /// Values have the types that ops need.
    Types,
    /// A handler ends with Done.
    Ends,
    /// A rest follows its one Suspend.
    Rests,
    /// A rest keeps the slots that are read from there on.
    Live,
    /// A state has one door for each kind, and one for all else.
    Doors,
    /// A loop has a slot to itself for its set.
    Sets,
}

impl Rule {
    pub fn number(self) -> u8
        ensures { result ≡ number_of self }
    {
        match self {
            Rule::Ranges => 1,
            Rule::Jumps => 2,
            Rule::Stack => 3,
            Rule::Types => 4,
            Rule::Ends => 5,
            Rule::Rests => 6,
            Rule::Live => 7,
            Rule::Doors => 8,
            Rule::Sets => 9,
        }
    }
}

/// Why code is not run.
#[derive(Clone, Copy, Debug, PartialEq, Eq)]
pub enum CodeFault {
    /// The least place at which a rule is broken, and the number of the first rule that is broken there.
    Broken { at: u32, rule: u8 },
    Memory,
}

/// A place at which a rule is broken.
#[derive(Clone, Copy, Debug, PartialEq, Eq)]
pub struct Fault {
    pub at: u32,
    pub rule: Rule,
}
