ghost use Rattle.std.specs.Prelude.{◌≡◌};
ghost use Rattle.teapot_rules.specs.Firsts.{sooner};

use teapot_tree::Rule;

/// A rule, and a line at which it is broken.
#[derive(Clone, Copy, Debug, PartialEq, Eq)]
pub struct Fault {
    pub line: u32,
    pub rule: Rule,
}

/// The break of a rule, or a later one where that has a lesser line.
pub fn sooner(line: Option<u32>, rule: Rule, later: Option<Fault>) -> Option<Fault>
    ensures { result ≡ sooner line rule later }
{
    match line {
        None => later,
        Some(line) => match later {
            None => Some(Fault { line, rule }),
            Some(later) => {
                if line <= later.line {
                    Some(Fault { line, rule })
                } else {
                    Some(later)
                }
            }
        },
    }
}
