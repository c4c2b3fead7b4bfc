// 01, The record and the writer, 7006: the tests of a draft whose record is given as numbers, one after the other, and
// the size of its command. That identifiers, vendors and codes fit four octets is so by their type. The tests take the
// array that the C interface lends: a struct over that one reference would be no plainer.
#![tactic(auto)]

ghost use Rattle.std.specs.Prelude.{◌≡◌, ◌&&◌, List, ℕ, ◌≤◌, ◌<◌, leb, length, drop};
ghost use Rattle.rules.specs.Dictionary.{dictionary};
ghost use Rattle.rules.specs.Walk.{most_avps, deepest};
ghost use Rattle.rules.specs.Draft.{draft_of, is_blank, all_blank, is_placed, all_placed};
ghost use Rattle.rules.specs.Draft.{next_depth, is_tree, has_sizes, is_well_formed};
ghost use Rattle.numbers.specs.Numbers.{numbered_record, numbered_used};
ghost use Rattle.numbers.specs.Draft.{numbered_draft};
ghost use Rattle.draft.specs.Drafts.{draft_cell, draft_cells};
ghost use Rattle.draft.specs.Promise.{HasSize, IsCommandSize};

use numbers::Numbers;
use rules::{Avp, limits};

mod sizes;

// An unused place is all 0.
fn is_blank(a: Avp) -> bool
    ensures { result ≡ is_blank a }
{
    a == Avp::default()
}

fn are_blank(numbers: &Numbers, from: usize) -> bool
    ensures { result ≡ all_blank (drop from (numbered_record numbers.now).avps) }
{
    (from..limits::MOST_AVPS).all(|position| is_blank(numbers::get(numbers, position)))
}

// The data part of an AVP that is no read group lies in the octets.
#[tactic(auto, unfolding(rules::specs::Draft::is_placed))]
fn is_placed(a: Avp, size: usize) -> bool
    ensures { result ≡ is_placed dictionary size a }
{
    dictionary::is_read_group(a.vendor, a.code) || a.start as usize + a.length as usize <= size
}

fn are_placed(numbers: &Numbers, size: usize) -> bool
    ensures { result ≡ all_placed dictionary size (numbered_used numbers.now) }
{
    let used = numbers::used(numbers);
    (0..used).all(|position| is_placed(numbers::get(numbers, position), size))
}

// A depth from 1 on, no greater than what may follow, and at most 4.
fn is_in_tree(depth: u32, most: u32) -> bool
    ensures { result ≡ (leb 1 depth && leb depth most && leb depth deepest) }
{
    1 <= depth && depth <= most && depth <= limits::DEEPEST
}

// The greatest depth that may follow an AVP: one more only after a read group.
fn next_depth(a: Avp) -> u32
    requires { a.depth ≤ deepest }
    ensures { (s : List ℕ) → result ≡ next_depth dictionary (draft_cell s a) }
{
    if dictionary::is_read_group(a.vendor, a.code) {
        a.depth + 1
    } else {
        a.depth
    }
}

fn is_tree(numbers: &Numbers) -> bool
    ensures { (s : List ℕ) → result ≡ is_tree 1 dictionary (draft_cells s (numbered_used numbers.now)) }
{
    let mut most: u32 = 1;
    for position in 0..numbers::used(numbers) {
        let a = numbers::get(numbers, position);
        if !is_in_tree(a.depth, most) {
            return false;
        }
        most = next_depth(a);
    }
    true
}

// A read group's length is that of its members with padding. The bound is of one call: a type for it would be made and
// taken apart at each.
fn has_size(numbers: &Numbers, position: usize) -> bool
    requires { position < most_avps }
    ensures { HasSize numbers.now position result }
{
    let a = numbers::get(numbers, position);
    !dictionary::is_read_group(a.vendor, a.code)
        || a.length as usize == sizes::members_size(numbers, position + 1, a.depth as usize + 1)
}

fn has_sizes(numbers: &Numbers) -> bool
    ensures { (s : List ℕ) → result ≡ has_sizes dictionary (draft_cells s (numbered_used numbers.now)) }
{
    (0..numbers::used(numbers)).all(|position| has_size(numbers, position))
}

// The record that the numbers stand for, over the octets, is a draft that is not 7006.
fn is_formed(numbers: &Numbers, s: &[u8]) -> bool
    ensures { result ≡ is_well_formed (draft_of (numbered_record numbers.now) s.now) }
{
    let count = numbers::count(numbers);
    count <= limits::MOST_AVPS
        && are_blank(numbers, count)
        && are_placed(numbers, s.len())
        && is_tree(numbers)
        && has_sizes(numbers)
}

// A draft that is not 7006: that of numbers and octets.
pub fn is_well_formed(numbers: &Numbers, s: &[u8]) -> bool
    ensures { result ≡ is_well_formed (numbered_draft numbers.now s.now) }
{
    numbers::flags_fit(numbers) && is_formed(numbers, s)
}

// The octets of the command of a draft, where it is well formed: the header and the members at depth 1.
pub fn command_size(numbers: &Numbers) -> usize
    ensures { IsCommandSize numbers.now result }
{
    limits::HEADER_SIZE + sizes::members_size(numbers, 0, 1)
}
