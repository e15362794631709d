ghost use Rattle.std.specs.Prelude.{◌≡◌, ◌<◌, length, IfOk, IfErr, OnOk};
ghost use Rattle.xs_gram.specs.{IsBuilt};
ghost use Rattle.xs_pair.specs.{grammar_of, IsSoundPair};
ghost use Rattle.xs_unique.specs.{IsReason};
ghost use Rattle.xs_top.specs.Checks.{IsSure, IsUnsure, HasRules, name_at, line_at, report_at};
ghost use Rattle.xs_top.specs.Stops.{StopsBy};

use crate::stop::Stop;
use std::alloc::Global;
use xs_class::{Memory, Side, Text};
use xs_gram::Suspect;
use xs_pair::Two;
use xs_talk::{Outcome, Report};
use xs_unique::{AcceptFault, accept};

/// The name of a production's nonterminal.
fn name(alloc: Global, two: &Two, side: Side, rule: u32) -> Result<Text, Memory>
    requires built { IsBuilt (grammar_of two.now side) }
    requires there { rule < length (grammar_of two.now side).rules }
    ensures { IfOk result (λ name. name ≡ name_at two.now side rule) }
{
    two.see();
    let non = two.gram(side).non_of(rule);
    Text::of(alloc, two.non_name(non))
}

/// The line of a production.
fn line(two: &Two, side: Side, rule: u32) -> u32
    requires { rule < length (grammar_of two.now side).rules }
    ensures { result ≡ line_at two.now rule }
{
    two.see();
    two.line(rule)
}

/// What is reported of a suspect.
fn report(alloc: Global, two: &Two, suspect: Suspect) -> Result<Report, Memory>
    requires sound { IsSoundPair two.now }
    requires there { HasRules two.now suspect }
    ensures { IfOk result (λ report. report ≡ report_at two.now suspect) }
{
    match suspect {
        Suspect::Vertical {
            side,
            rule,
            rule2,
            word,
        } => {
            let name = name(alloc, two, side, rule)?;
            let line1 = line(two, side, rule);
            let line2 = line(two, side, rule2);
            Ok(Report::Vertical {
                side,
                name,
                line: line1,
                line2,
                word,
            })
        }
        Suspect::Horizontal {
            side,
            rule,
            cut,
            x,
            a,
            y,
        } => {
            let name = name(alloc, two, side, rule)?;
            let line = line(two, side, rule);
            Ok(Report::Horizontal {
                side,
                name,
                line,
                cut,
                x,
                a,
                y,
            })
        }
    }
}

/// How a run ends whose sheet is not accepted.
pub fn refused(alloc: Global, two: &Two, fault: AcceptFault) -> Result<Stop, Memory>
    requires sound { IsSoundPair two.now }
    requires reason { IsReason two.now.text two.now.xml fault }
    ensures { IfOk result (StopsBy (IsUnsure two.now)) }
{
    match fault {
        AcceptFault::Heavy { weight } => Ok(Stop::Refused(Outcome::Heavy { weight })),
        AcceptFault::Suspect(suspect) => {
            let report = report(alloc, two, suspect)?;
            Ok(Stop::Refused(Outcome::Suspect(report)))
        }
        AcceptFault::Memory => Ok(Stop::Memory),
    }
}

/// Makes sure that a sheet is accepted, so that each word of either side has at most one
/// derivation.
pub fn checked(alloc: Global, two: &Two) -> Result<(), Stop>
    requires sound { IsSoundPair two.now }
    ensures sure { OnOk result (IsSure two.now) }
    ensures stop { IfErr result (StopsBy (IsUnsure two.now)) }
{
    match accept(alloc, two) {
        Ok(_) => Ok(()),
        Err(fault) => Err(refused(alloc, two, fault)?),
    }
}
