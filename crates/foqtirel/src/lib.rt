// The calls for C programs, as crate foqtirel_c exports them.
#![tactic(auto)]

ghost use Rattle.std.specs.Prelude.{◌≡◌, length};
ghost use Rattle.calls.specs.Calls.{check_call, list_call, list_table, trees_call, query_arguments, query_nodes, host_call};
ghost use Rattle.clash.specs.Calls.{clash_call, clash_table};
ghost use Rattle.filing.specs.Calls.{file_call, file_table, file_numbers, unfile_call, unfile_table};
ghost use Rattle.billing.specs.Bills.{bill_of};

use billing::Billed;
use nodes::Node;

// 0 where the image is accepted, else number * 2^32 + place.
pub fn foqtirel_check(image: &[u8]) -> u64
    ensures { result ≡ check_call image.now }
{
    packing::verdict(warrant::check(image))
}

// The rule count of an image that is refused with 14, or number * 2^32 + place of the cause; and the lent table.
pub fn foqtirel_clash(image: &[u8], marks: &mut [u8]) -> u64
    ensures { (result ≡ clash_call image.now (length marks.old)) × (marks.new ≡ clash_table image.now marks.old) }
{
    packing::count(clash::clash(image, marks))
}

// The number of arguments, or number * 2^32 + place of the cause; and the lent table.
pub fn foqtirel_list(image: &[u8], arguments: &mut [u32]) -> u64
    ensures { (result ≡ list_call image.now (length arguments.old)) × (arguments.new ≡ list_table image.now arguments.old) }
{
    packing::count(warrant::list(image, arguments))
}

// The length of the image's filed form, or number * 2^32 + place of the cause; and the two lent tables.
pub fn foqtirel_file(image: &[u8], out: &mut [u8], numbers: &mut [u8]) -> u64
    ensures { (result ≡ file_call image.now (length out.old) (length numbers.old)) × (out.new ≡ file_table image.now out.old (length numbers.old)) × (numbers.new ≡ file_numbers image.now (length out.old) numbers.old) }
{
    packing::count(filer::file(image, out, numbers))
}

// The length of the image in typed order, or number * 2^32 + place of the cause; and the lent table.
pub fn foqtirel_unfile(image: &[u8], numbers: &[u8], out: &mut [u8]) -> u64
    ensures { (result ≡ unfile_call image.now numbers.now (length out.old)) × (out.new ≡ unfile_table image.now numbers.now out.old) }
{
    packing::count(filer::unfile(image, numbers, out))
}

// A literal's answer as one number, or number * 2^32 + place of the cause; and the two lent tables.
pub fn foqtirel_trees(
    image: &[u8],
    literal: u32,
    budget: u32,
    arguments: &mut [u32],
    nodes: &mut [Node],
) -> u64
    ensures { (result ≡ trees_call image.now literal budget (length arguments.old) (length nodes.old)) × (arguments.new ≡ query_arguments image.now literal budget arguments.old (length nodes.old)) × (nodes.new ≡ query_nodes image.now literal budget (length arguments.old) nodes.old) }
{
    packing::answered(warrant::query(image, literal, budget, arguments, nodes))
}

// A literal's answer as one number, with tables of its own that the answer does not show.
pub fn foqtirel_query(image: &[u8], literal: u32, budget: u32) -> u32
    ensures { result ≡ host_call image.now literal budget }
{
    let mut arguments = [0u32; 4096];
    let mut nodes = [Node {
        argument: 0,
        parent: 0,
        kind: 0,
        mark: 0,
    }; 4096];
    packing::pack(warrant::query(image, literal, budget, &mut arguments, &mut nodes))
}

// What each branch pays, or the number and the place of the cause, by value.
pub fn foqtirel_bill(lines: &[u64]) -> Billed
    ensures { result ≡ bill_of lines.now }
{
    biller::bill(lines)
}
