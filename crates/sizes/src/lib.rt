// The list with a table of rows of its own, in one of four sizes: a program whose rows are short neither clears nor reserves a
// megabyte.
#![tactic(auto)]

ghost use Rattle.std.specs.Prelude.{◌≡◌, ◌+◌, ◌^◌, ◌<◌, length};
ghost use Rattle.literals.specs.Inside.Words.{set_of};
ghost use Rattle.program.specs.Program.{Program};
ghost use Rattle.program.specs.Limits.{Limits};
ghost use Rattle.program.specs.Inside.Table.{Holds, Shaped};
ghost use Rattle.argument.specs.List.{argument_list};
ghost use Rattle.listing.specs.Inside.Listing.{listed, with_list};
ghost use Rattle.rows.specs.Switched.{NeedsOne};
ghost use Rattle.closing.specs.Inside.Plan.{Planned};
ghost use Rattle.sizes.specs.Inside.Lists.{ListsPlanned};

use closing::Ground;
use program::RuleTable;

// Writes the argument list of the program that the table holds, and returns the number of arguments; none where the lent table is
// too short.
pub fn list(table: &RuleTable, arguments: &mut [u32]) -> Option<u32>
    requires { (Shaped table.now) × (NeedsOne table.now) }
    ensures result { (p : Program) → Limits p → Holds p table.now
        → result ≡ listed (argument_list p.rules) arguments.old }
    ensures written { (p : Program) → Limits p → Holds p table.now
        → arguments.new ≡ with_list (argument_list p.rules) arguments.old }
{
    let mut live = [0u64; 419];
    let mut keep = [0u64; 128];
    let mut base = [0u64; 128];
    let plan = closing::plan(table, &mut live, &mut keep, &mut base);
    let last = plan.end + plan.span;
    if last < 512 {
        return with_rows::<512>(&live, plan, &keep, &base, arguments);
    }
    if last < 2304 {
        return with_rows::<2304>(&live, plan, &keep, &base, arguments);
    }
    if last < 8464 {
        return with_rows::<8464>(&live, plan, &keep, &base, arguments);
    }
    with_rows::<133120>(&live, plan, &keep, &base, arguments)
}

// With a table of N words. Each size has a frame of its own, which `list` does not take.
#[inline(never)]
fn with_rows<const N: usize>(
    live: &RuleTable,
    plan: Ground,
    keep: &[u64; 128],
    base: &[u64; 128],
    arguments: &mut [u32],
) -> Option<u32>
    requires planned { Planned live.now keep.now base.now (set_of plan.derived) (set_of plan.literals) (set_of plan.pairs) plan.end plan.span }
    requires room { (plan.end + plan.span < N) × (N < 2 ^ 32) }
    ensures { ListsPlanned live.now (set_of plan.derived) (set_of plan.literals) arguments.old arguments.new result }
{
    let mut rows = [0u64; N];
    closing::fill(live, plan, keep, base, &mut rows);
    collecting::list(&rows, plan.derived.union(plan.literals), arguments)
}
