// Which argument is a reply to a line, and of which kind.
ghost use Rattle.std.specs.Prelude.{◌≡◌, ◌+◌, not, ◌||◌, ◌≤◌, ◌<◌, length, get_or, eqb, MatchOption};
ghost use Rattle.lists.specs.Lists.{any};
ghost use Rattle.literals.specs.Sets.{within};
ghost use Rattle.argument.specs.Argument.{mask_of};
ghost use Rattle.defeat.specs.Inside.Kinds.{number_of, number_of_kind};
ghost use Rattle.tree.specs.Reply.{permit, reply_kind};
ghost use Rattle.tree.specs.Inside.Steps.{line_of, Prepared, tests_in, Asked, NoReply, FirstReply};

use crate::nodes::Step;
use argument::numbers::mask_of;
use defeat::defeaters;
use defeat::kinds::Kind;
use literals::masks;
use program::RuleTable;

// What the trees of a program grow from: its rules, their closures as rows, the exclusion set of each literal, and its
// argument list.
#[derive(Clone, Copy)]
pub struct Framework<'t> {
    pub table: &'t RuleTable,
    pub rows: &'t [u64],
    pub exclusions: &'t [u64; 256],
    pub arguments: &'t [u32],
}

// An argument's index in the list, with its kind as a reply.
#[derive(Clone, Copy)]
pub struct Reply {
    pub index: usize,
    pub kind: Kind,
}

// An argument with this mask would be a sub-argument of one on the line.
fn used(line: &[u32], depth: usize, mask: u64) -> bool
    requires { depth ≤ length line.now }
    ensures { result ≡ any (λ x. within mask (mask_of x)) (line_of line.now depth) }
{
    for i in (0..depth).rev() {
        if masks::within(mask, mask_of(line[i])) {
            return true;
        }
    }
    false
}

// The kind of a defeater after one of kind `last`: directly after a blocking one stands only a proper one.
fn follow(last: Option<Kind>, kind: Kind) -> Option<Kind>
    ensures { number_of_kind result ≡ permit (number_of kind) (not (eqb (number_of_kind last) 2) || eqb (number_of kind) 1) }
{
    match (last, kind) {
        (Some(Kind::Blocking), Kind::Blocking) => None,
        _ => Some(kind),
    }
}

// The kind of candidate j as a reply to a step, whose argument is the line's last one, or None. Most candidates
// attack nothing there, which is the cheapest to see, so that test comes first.
pub fn reply_kind(framework: &Framework<'_>, line: &[u32], step: Step, j: usize) -> Option<Kind>
    requires asked { Asked framework.now line.now step }
    requires j_in_list { j < length framework.now.arguments.now }
    ensures { (w : Prepared framework.now)
        → number_of_kind result ≡ reply_kind (tests_in w) (line_of line.now (step.depth + 1)) (get_or framework.now.arguments.now j 0) }
{
    let x = framework.arguments[j];
    let y = line[step.depth];
    if !defeaters::attacks(framework.rows, framework.exclusions, x, y) {
        return None;
    }
    let mask = mask_of(x);
    if closures::contradictory(framework.rows, step.other | mask) {
        return None;
    }
    if used(line, step.depth + 1, mask) {
        return None;
    }
    let kind = defeaters::kind(
        framework.table,
        framework.exclusions,
        framework.arguments,
        x,
        y,
    )?;
    follow(step.kind, kind)
}

// The first candidate from `start` on that is a reply to the step.
pub fn first_reply(
    framework: &Framework<'_>,
    line: &[u32],
    step: Step,
    start: usize,
) -> Option<Reply>
    requires { Asked framework.now line.now step }
    ensures { MatchOption result
        (NoReply framework.now line.now step start (length framework.now.arguments.now))
        (λ r. FirstReply framework.now line.now step start r) }
{
    for index in start..framework.arguments.len() {
        if let Some(kind) = reply_kind(framework, line, step, index) {
            return Some(Reply { index, kind });
        }
    }
    None
}
