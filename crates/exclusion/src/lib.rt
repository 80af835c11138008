// Two calls on one image, each the query or the call from C: literals that exclude each other never both get YES. No program
// needs it: it shows that what the calls promise is enough.
#![tactic(auto)]

ghost use Rattle.std.specs.Prelude.{◌≡◌, true, false, eqb, length};
ghost use Rattle.calls.specs.Outcomes.{outcome_of, code_in};
ghost use Rattle.exclusion.specs.Exclusion.{call_of, says_yes, OneCall, TablesLeft, TwoCalls};

use answer::Answer;
use layout::Refusal;
use nodes::Node;

// Whether an answer is YES.
fn is_yes(answered: Result<Answer, Refusal>) -> bool
    ensures { result ≡ eqb (code_in (outcome_of answered)) 1 }
{
    matches!(answered, Ok(Answer::Yes { nodes: _ }))
}

// Whether the call from C says YES.
fn by_host(image: &[u8], literal: u32, budget: u32) -> bool
    ensures { result ≡ says_yes image.now (call_of true literal budget 0 0) }
{
    foqtirel::foqtirel_query(image, literal, budget) / 0x1_0000 == 1
}

// Whether the query with the lent tables says YES.
fn by_query(
    image: &[u8],
    literal: u32,
    budget: u32,
    arguments: &mut [u32],
    nodes: &mut [Node],
) -> bool
    ensures { OneCall false image.now literal budget arguments.old nodes.old result arguments.new nodes.new }
{
    is_yes(warrant::query(image, literal, budget, arguments, nodes))
}

// Whether one call says YES: the one from C where `foreign`, else the query with the lent tables.
fn says_yes(
    foreign: bool,
    image: &[u8],
    literal: u32,
    budget: u32,
    arguments: &mut [u32],
    nodes: &mut [Node],
) -> bool
    ensures { OneCall foreign image.now literal budget arguments.old nodes.old result arguments.new nodes.new }
{
    if foreign {
        by_host(image, literal, budget)
    } else {
        by_query(image, literal, budget, arguments, nodes)
    }
}

// Two calls on one image, whichever they are, with tables of their own: whether both say YES, and what each leaves in its
// tables.
pub fn both_yes(
    image: &[u8],
    foreign: bool,
    literal: u32,
    budget: u32,
    arguments: &mut [u32],
    nodes: &mut [Node],
    foreign2: bool,
    literal2: u32,
    budget2: u32,
    arguments2: &mut [u32],
    nodes2: &mut [Node],
) -> bool
    ensures { TwoCalls image.now literal literal2 (call_of foreign literal budget (length arguments.old) (length nodes.old)) (call_of foreign2 literal2 budget2 (length arguments2.old) (length nodes2.old)) result × TablesLeft foreign image.now literal budget arguments.old nodes.old arguments.new nodes.new × TablesLeft foreign2 image.now literal2 budget2 arguments2.old nodes2.old arguments2.new nodes2.new }
{
    let first = says_yes(foreign, image, literal, budget, arguments, nodes);
    let second = says_yes(foreign2, image, literal2, budget2, arguments2, nodes2);
    first & second
}
