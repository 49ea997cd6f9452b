// Results against each other, in one pass over the pairs: of one subject, which comes again in one year and which are kept; and which may not stand in
// one set. `usable` has bit i for each usable result i.
ghost use Rattle.std.specs.Prelude.{◌≡◌, ◌<◌};
ghost use Rattle.paper.specs.Limits.{most_results};
ghost use Rattle.clashes.specs.InnerPairs.{OneOf, Pair, Both, Comparable, same_subject_in, too_far, shared, without, where_in, by_sorts, AgainstAll, ComparedAs};

use crate::masks::{Masks, marked};
use paper::limits::{MOST_RESULTS, MOST_SPAN, RESULT_BYTES};
use paper::refusal::Refusal;
use results::reading;

// The results before one, by what they are to it: usable, of its subject, and of its year, of a later one, of an earlier one; and those too far from it
// in years or with its identity.
#[derive(Clone, Copy)]
pub struct Against {
    pub again: u16,
    pub later: u16,
    pub earlier: u16,
    pub apart: u16,
}

// Whether result j is usable, of the same subject as result i.
fn same_subject(results: &[u8], usable: u16, i: usize, j: usize) -> bool
    requires { Pair results.now i j }
    ensures { result ≡ same_subject_in results.now usable i j }
{
    usable & (1u16 << j) != 0 && reading::subject_at(results, j) == reading::subject_at(results, i)
}

// Whether of two years the one exceeds the other by more than four.
fn too_far(one: u16, other: u16) -> bool
    ensures { result ≡ too_far one other }
{
    let one = u64::from(one);
    let other = u64::from(other);
    one + MOST_SPAN < other || other + MOST_SPAN < one
}

// Whether results i and j have one identity.
fn shares(identities: &[u16; MOST_RESULTS], i: usize, j: usize) -> bool
    requires { Both i j }
    ensures { result ≡ shared identities.now i j }
{
    let own = identities[i];
    own != 0 && identities[j] == own
}

// The results before result i against it.
fn set_against(results: &[u8], usable: u16, identities: &[u16; MOST_RESULTS], i: usize) -> Against
    requires { OneOf results.now i }
    ensures { AgainstAll results.now usable identities.now i i result }
{
    let own = reading::year_at(results, i);
    let mut against = Against {
        again: 0,
        later: 0,
        earlier: 0,
        apart: 0,
    };
    for j in 0..i {
        let year = reading::year_at(results, j);
        let same = same_subject(results, usable, i, j);
        let far = too_far(own, year);
        let shared = shares(identities, i, j);
        // `&` and `|`, so that filling in a mask has no branch of its own.
        against = Against {
            again: marked(against.again, j, same & (year == own)),
            later: marked(against.later, j, same & (own < year)),
            earlier: marked(against.earlier, j, same & (year < own)),
            apart: marked(against.apart, j, far | shared),
        };
    }
    against
}

// A mask without what is in another.
fn without(mask: u16, gone: u16) -> u16
    ensures { result ≡ without mask gone }
{
    mask ^ (mask & gone)
}

// A mask, where result i is in another; else none.
fn where_in(one: u16, other: u16, i: usize) -> u16
    requires { i < most_results }
    ensures { result ≡ where_in one other i }
{
    if one & (1u16 << i) == 0 { 0 } else { other }
}

// Those that may not stand in one set with result i for their sorts; those after it too, at which the search does not look.
fn by_sorts(masks: Masks, i: usize) -> u16
    requires { i < most_results }
    ensures { result ≡ by_sorts masks i }
{
    where_in(masks.general_english, masks.applied_english, i)
        | (where_in(masks.applied_english, masks.general_english, i)
            | (where_in(masks.general_maths, masks.applied_maths, i)
                | where_in(masks.applied_maths, masks.general_maths, i)))
}

// Compares all results: the first that is repeated, or those that are kept, with the results that each clashes with.
pub fn compare(
    results: &[u8],
    masks: Masks,
    identities: &[u16; MOST_RESULTS],
    clashes: &mut [u16; MOST_RESULTS],
) -> Result<u16, Refusal>
    requires { Comparable results.now clashes.old }
    ensures { ComparedAs results.now masks identities.now result clashes.new }
{
    let usable = masks.usable;
    let mut kept: u16 = 0;
    for i in 0..results.len() / RESULT_BYTES {
        let others = set_against(results, usable, identities, i);
        if usable & (1u16 << i) != 0 {
            if others.again != 0 {
                return Err(Refusal::Again(i));
            }
            // It is kept unless one before it is later, and those before it that are earlier are kept no more.
            kept = marked(without(kept, others.earlier), i, others.later == 0);
        }
        clashes[i] = by_sorts(masks, i) | others.apart;
    }
    Ok(kept)
}
